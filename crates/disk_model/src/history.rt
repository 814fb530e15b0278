ghost use Rattle.std.specs.Prelude.{◌≡◌, ℕ, ◌+◌, ◌≤◌, List, length, take, drop, nat_lt, slice_index, IfOk};
ghost use Rattle.std.specs.List.{All, prefix_len};
ghost use Rattle.disk_model.specs.Image.{Image};
ghost use Rattle.disk_model.specs.Replay.{written, filled, put_by, played, picked, replay, at_rest, before, SplitsAt, Wrote, deed_of, event_of, events_of, FitsIn};

use qsr_value::Memory;
use std::alloc::Global;

/// What a crash leaves where bytes were written since the last sync.
#[derive(Clone, Copy, Debug, PartialEq, Eq)]
pub enum Pick {
    /// The bytes that stood there when all was synced.
    Old,
    /// The bytes that were written.
    New,
    /// This byte at each place.
    Fill(u8),
}

/// What a call did. Of a write's array the first `len` bytes count.
#[derive(Drop)]
pub(crate) enum What {
    Write {
        at: usize,
        len: usize,
        bytes: [u8; 4096],
    },
    Sync,
    FailedSync,
}

/// What a call did, and its number.
#[derive(Drop)]
pub(crate) struct Record {
    pub(crate) number: u64,
    pub(crate) what: What,
}

/// The bytes at the front of an array.
fn page_of(bytes: &[u8]) -> [u8; 4096]
    requires { length bytes.now ≤ 4096 }
    ensures { take (length bytes.now) result ≡ bytes.now }
{
    let mut page = [0; 4096];
    page[..bytes.len()].copy_from_slice(bytes);
    page
}

/// The record of a write.
pub(crate) fn write_of(number: u64, at: usize, bytes: &[u8]) -> Record
    requires { length bytes.now ≤ 4096 }
    ensures event { event_of result ≡ record { call = number; deed = Wrote at bytes.now } }
    ensures fits { (size : ℕ) → at + length bytes.now ≤ size → FitsIn size result.what }
{
    Record {
        number,
        what: What::Write {
            at,
            len: bytes.len(),
            bytes: page_of(bytes),
        },
    }
}

/// Puts bytes over others.
pub(crate) fn overwrite(bytes: &mut [u8], at: usize, with: &[u8])
    requires { at + length with.now ≤ length bytes.old }
    ensures size { length bytes.new ≡ length bytes.old }
    ensures image { slice_index bytes.new ≡ written at with.now (slice_index bytes.old) }
{
    bytes[at..at + with.len()].copy_from_slice(with);
}

/// Puts a byte over others.
fn fill_range(bytes: &mut [u8], at: usize, len: usize, byte: u8)
    requires { at + len ≤ length bytes.old }
    ensures size { length bytes.new ≡ length bytes.old }
    ensures image { slice_index bytes.new ≡ filled at len byte (slice_index bytes.old) }
{
    bytes[at..at + len].fill(byte);
}

/// Does a call again, as a pick has it.
fn put(bytes: &mut [u8], what: &What, pick: Pick)
    requires { FitsIn (length bytes.old) what.now }
    ensures size { length bytes.new ≡ length bytes.old }
    ensures image { slice_index bytes.new ≡ put_by pick (deed_of what.now) (slice_index bytes.old) }
{
    let What::Write {
        at,
        len,
        bytes: page,
    } = what
    else {
        return;
    };
    let with = &page[..*len];
    match pick {
        Pick::Old => {}
        Pick::New => overwrite(bytes, *at, with),
        Pick::Fill(byte) => fill_range(bytes, *at, with.len(), byte),
    }
}

/// Does calls again, as a pick has them.
fn play(bytes: &mut [u8], records: &[Record], pick: Pick)
    requires { All (λ r. FitsIn (length bytes.old) r.what) records.now }
    ensures size { length bytes.new ≡ length bytes.old }
    ensures image { slice_index bytes.new ≡ played pick (events_of records.now) (slice_index bytes.old) }
{
    for record in records {
        put(bytes, &record.what, pick);
    }
}

/// How many records come before the first of a later call.
fn stop_of(records: &[Record], calls: u64) -> usize
    ensures within { result ≤ length records.now }
    ensures count { result ≡ prefix_len (λ e. nat_lt e.call calls) (events_of records.now) }
{
    for (at, record) in records.iter().enumerate() {
        if record.number >= calls {
            return at;
        }
    }
    records.len()
}

/// How many records there are up to the last sync.
fn last_sync(records: &[Record]) -> usize
    ensures within { result ≤ length records.now }
    ensures splits { SplitsAt result (events_of records.now) }
{
    let mut last = 0;
    for (at, record) in records.iter().enumerate() {
        if let What::Sync = record.what {
            last = at + 1;
        }
    }
    last
}

/// Makes of the bytes that all was synced with, before these calls, what a pick leaves after them.
fn leave(bytes: &mut [u8], records: &[Record], pick: Pick)
    requires { All (λ r. FitsIn (length bytes.old) r.what) records.now }
    ensures size { length bytes.new ≡ length bytes.old }
    ensures image { slice_index bytes.new ≡ picked pick (replay (at_rest (slice_index bytes.old)) (events_of records.now)) }
{
    let last = last_sync(records);
    play(bytes, &records[..last], Pick::New);
    play(bytes, &records[last..], pick);
}

/// What a pick leaves after the first so many calls of a disk that these bytes stood on at the start.
pub(crate) fn image_of(
    alloc: Global,
    base: &[u8],
    log: &[Record],
    calls: u64,
    pick: Pick,
) -> Result<Vec<u8>, Memory>
    requires { All (λ r. FitsIn (length base.now) r.what) log.now }
    ensures size { IfOk result (λ bytes. length bytes.items ≡ length base.now) }
    ensures image { IfOk result (λ bytes. slice_index bytes.items ≡ picked pick (replay (at_rest (slice_index base.now)) (before calls (events_of log.now)))) }
{
    let stop = stop_of(log, calls);
    let mut bytes = Vec::from_slice(alloc, base)?;
    leave(&mut bytes, &log[..stop], pick);
    Ok(bytes)
}
