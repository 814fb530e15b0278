ghost use Rattle.std.specs.Prelude.{◌≡◌, ◌+◌, ◌*◌, ◌^◌, ◌<◌, ◌≤◌, length, min, pos, IfOk, OnOk};
ghost use Rattle.std.specs.List.{slice_index_or};
ghost use Rattle.disk_model.specs.Image.{Holds, SameOutside};
ghost use Rattle.disk_model.specs.View.{EachImage, LeavesOnly, Stays, Steps};
ghost use Rattle.qsr_value.specs.Causes.{CountsFault, next_count};
ghost use Rattle.row_script.specs.Rows.{HasRows, WritesRows, row_bytes};

use byteorder::{ByteOrder, LittleEndian};
use disk_model::Disk;
use qsr_value::Failed;

/// How many bytes of the disk a row takes.
pub const ROW_BYTES: u64 = 8;

/// Writes the next rows to the disk, `count` of them or all that are left, each by a device write of its own, and
/// then syncs once. Answers how many rows are acknowledged then.
pub fn turn<D: Disk>(
    disk: &mut D,
    rows: &[i64],
    acknowledged: usize,
    count: u64,
) -> Result<usize, Failed>
    requires some { acknowledged ≤ length rows.now }
    requires fits { ROW_BYTES * length rows.now ≤ D.size_of disk.old }

    // A crash at any moment of the call leaves the rows that were acknowledged before it, also where it fails.
    ensures any_moment { EachImage (D.view disk.old) (HasRows rows.now acknowledged)
        → LeavesOnly (D.view disk.old) (D.view disk.new) (HasRows rows.now acknowledged) }

    // Where it answers, a crash leaves the rows that are acknowledged then.
    ensures acknowledged { IfOk result (λ now. EachImage (D.view disk.old) (HasRows rows.now acknowledged) → EachImage (D.view disk.new) (HasRows rows.now now)) }
    ensures count { IfOk result (λ now. now ≡ min (length rows.now) (acknowledged + count)) }

    // Each row that is newly acknowledged is a device write of its own.
    ensures writes { IfOk result (λ now. WritesRows acknowledged now (D.writes_of disk.old) (D.writes_of disk.new)) }

    // It reads nothing, and syncs once where it wrote a row, else never.
    ensures reads { D.reads_of disk.new ≡ D.reads_of disk.old }
    ensures synced { IfOk result (λ now. acknowledged < now → D.syncs_of disk.new ≡ next_count (D.syncs_of disk.old)) }
    ensures unsynced { IfOk result (λ now. now ≤ acknowledged → D.syncs_of disk.new ≡ D.syncs_of disk.old) }

    ensures faults { CountsFault result (D.faults_of disk.old) (D.faults_of disk.new) }
    ensures size { D.size_of disk.new ≡ D.size_of disk.old }
{
    let left = rows.len() - acknowledged;
    let end = match usize::try_from(count) {
        Ok(count) => acknowledged + left.min(count),
        Err(_) => rows.len(),
    };
    for place in acknowledged..end {
        write_row(disk, rows, place)?;
    }
    if acknowledged < end {
        disk.sync()?;
    }
    Ok(end)
}

/// Writes the row of a place to its place on the disk.
fn write_row<D: Disk>(disk: &mut D, rows: &[i64], place: usize) -> Result<(), Failed>
    requires within { place < length rows.now }
    requires fits { ROW_BYTES * length rows.now ≤ D.size_of disk.old }
    ensures bytes { OnOk result ((D.view disk.old).honest → Holds (D.view disk.new).seen (ROW_BYTES * place) (row_bytes (slice_index_or rows.now place (pos 0)))) }
    ensures steps { Steps (SameOutside (ROW_BYTES * place) ROW_BYTES) (D.view disk.old) (D.view disk.new) }
    ensures faults { CountsFault result (D.faults_of disk.old) (D.faults_of disk.new) }
    ensures size { D.size_of disk.new ≡ D.size_of disk.old }
    ensures reads { D.reads_of disk.new ≡ D.reads_of disk.old }
    ensures writes { D.writes_of disk.new ≡ next_count (D.writes_of disk.old) }
    ensures syncs { D.syncs_of disk.new ≡ D.syncs_of disk.old }
{
    // For the proof: a size that is read is known to be within u64, and so is each place below it.
    let _size = disk.size();
    let mut bytes = [0; 8];
    LittleEndian::write_i64(&mut bytes, rows[place]);
    disk.write(ROW_BYTES * place as u64, &bytes)
}

/// Reads the row of a place from the disk.
pub fn read_row<D: Disk>(disk: &mut D, place: usize) -> Result<i64, Failed>
    requires { ROW_BYTES * (place + 1) ≤ D.size_of disk.old }
    ensures value { IfOk result (λ value. (D.view disk.old).honest → Holds (D.view disk.old).seen (ROW_BYTES * place) (row_bytes value)) }
    ensures stays { Stays (D.view disk.old) (D.view disk.new) }
    ensures faults { CountsFault result (D.faults_of disk.old) (D.faults_of disk.new) }
    ensures size { D.size_of disk.new ≡ D.size_of disk.old }
    ensures reads { D.reads_of disk.new ≡ next_count (D.reads_of disk.old) }
    ensures writes { D.writes_of disk.new ≡ D.writes_of disk.old }
    ensures syncs { D.syncs_of disk.new ≡ D.syncs_of disk.old }
{
    // For the proof: a size that is read is known to be within u64, and so is each place below it.
    let _size = disk.size();
    let mut row = [0; 8];
    disk.read(ROW_BYTES * place as u64, &mut row)?;
    Ok(row_of(&row))
}

/// The row that these bytes are.
fn row_of(bytes: &[u8]) -> i64
    requires { length bytes.now ≡ 8 }
    ensures { row_bytes result ≡ bytes.now }
{
    LittleEndian::read_i64(bytes)
}
