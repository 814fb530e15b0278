// How the rows of an output file are given out again.

ghost use Rattle.std.specs.Prelude.{All, ◌≡◌, ℕ, ◌+◌, ◌-◌, ◌*◌, ◌/◌, ◌<◌, ◌≤◌, List, length, min, IfErr, IfOk, OnErr, OnOk, MatchResult};
ghost use Rattle.byteorder.specs.Endian.{little_number};
ghost use Rattle.disk_model.specs.View.{Stays};
ghost use Rattle.page_store.specs.Format.{little};
ghost use Rattle.page_store.specs.PageOrder.{job_part};
ghost use Rattle.page_store.specs.Store.{Contents, IsReady, store_view};
ghost use Rattle.page_store.specs.Twin.{bytes_at};
ghost use Rattle.job_store.specs.JobHead.{IsHead};
ghost use Rattle.qsr_value.specs.Causes.{CountsFault};
ghost use Rattle.qsr_value.specs.Encoding.{encoded_row};
ghost use Rattle.qsr_value.specs.declared.row.Value.{Value};
ghost use Rattle.out_file.specs.Listing.{AreOutRows, HasListed, Kept, ListsFrom};
ghost use Rattle.row_page.specs.Framed.{rows_bytes};
ghost use Rattle.out_file.specs.Output.{HasOutRows};
ghost use Rattle.out_file.specs.Pushes.{ListingCause, PushCause};

use crate::OutFault;
use crate::window::Window;
use byteorder::{ByteOrder, LittleEndian};
use disk_model::Disk;
use job_store::JobHead;
use page_store::Store;
use qsr_value::{Memory, Row, RowFault, RowSink, Schema, decode_row};
use std::alloc::Global;

/// How many bytes stand before those of a row, to tell how many they are.
const LENGTH_BYTES: u32 = 2;

/// How many bytes a row has at most.
const ROW_BYTES: u32 = 65_535;

/// How far the rows of an output file were given out.
#[derive(Drop)]
struct Listing {
    window: Window,
    /// The rows end before this byte of the output area.
    end: u32,
    /// The next row begins at this byte.
    at: u32,
    ghost within: { at ≤ end },
}

impl Listing {
    ghost use Rattle.std.specs.Prelude.{Bool, true};
    ghost use Rattle.qsr_value.specs.declared.schema.Column.{Column};
    ghost use Rattle.out_file.specs.Reading.{HasGiven, HasPage, HasStepped, IsOutReadFault, IsRowOf, IsStepFault, OnlyRead, out_area};

    /// The rows of a job, 0 to 7, that end before this byte, with none of them given out.
    fn new(job: u8, end: u32) -> Listing
        requires { job < 8 }
        ensures job { result.window.job ≡ job }
        ensures none { result.window.next ≡ 0 }
        ensures end { result.end ≡ end }
        ensures at { result.at ≡ 0 }
    {
        Listing {
            window: Window::new(job),
            end,
            at: 0,
        }
    }

    /// Where the row that comes next ends, by its length.
    fn row_end<D: Disk>(&mut self, store: &mut Store<'_, D>) -> Result<u32, OutFault>
        requires form { self.old.end ≤ 4096 * store.old.sizes.out }
        requires behind { 4096 * self.old.window.next ≤ self.old.at + 4095 }
        requires more { self.old.at < self.old.end }
        ensures ends { IfOk result (λ next. (self.old.at + 2 ≤ next) × (next ≤ self.old.end) × (next < self.old.at + 65538)) }
        ensures bytes { IfOk result (λ next. (m : Contents) → (store_view store.old).seen ≡ m → (store_view store.old).honest → HasPage self.old.window m
            → HasPage self.new.window m × (bytes_at (out_area self.old.window.job m) self.old.at 2 ≡ little 2 (next - self.old.at - 2))) }
        ensures fault { IfErr result (λ fault. (schema : List Column) → (wanted : Bool) → (m : Contents) → (store_view store.old).seen ≡ m → ((store_view store.old).honest → HasPage self.old.window m)
            → IsStepFault schema (wanted ≡ true) ((store_view store.old).honest) self.old.at (bytes_at (out_area self.old.window.job m) self.old.at (self.old.end - self.old.at)) fault) }
        ensures behind { 4096 * self.new.window.next ≤ self.old.at + 2 + 4095 }
        ensures most { 4096 * self.new.window.next ≤ self.old.end + 4095 }
        ensures setup { (self.new.window.job ≡ self.old.window.job) × (self.new.end ≡ self.old.end) × (self.new.at ≡ self.old.at) }
        ensures read { OnlyRead store.old store.new }
        ensures reads { D.reads_of store.new.disk.now + self.old.window.next ≤ D.reads_of store.old.disk.now + self.new.window.next }
        ensures cause { MatchResult result (λ _. D.faults_of store.new.disk.now ≡ D.faults_of store.old.disk.now)
            (λ fault. PushCause fault (D.faults_of store.old.disk.now) (D.faults_of store.new.disk.now)) }
    {
        let left = self.end - self.at;
        if left < LENGTH_BYTES {
            return Err(OutFault::BadRow { at: self.at });
        }
        let mut length = [0; 2];
        let Ok(()) = self.window.fill(store, self.at, &mut length) else {
            return Err(OutFault::Failed);
        };
        let length = length_in(&length);
        if left - LENGTH_BYTES < length {
            return Err(OutFault::BadRow { at: self.at });
        }
        Ok(self.at + LENGTH_BYTES + length)
    }

    /// Reads the row that comes next, which ends before this byte.
    fn row<D: Disk>(
        &mut self,
        alloc: Global,
        store: &mut Store<'_, D>,
        schema: &Schema,
        end: u32,
        buffer: &mut [u8],
    ) -> Result<Row, OutFault>
        requires form { self.old.end ≤ 4096 * store.old.sizes.out }
        requires behind { 4096 * self.old.window.next ≤ self.old.at + 2 + 4095 }
        requires begins { self.old.at + 2 ≤ end }
        requires ends { end ≤ self.old.end }
        requires short { end < self.old.at + 65538 }
        requires buffer { min self.old.end 65535 ≤ length buffer.old }
        ensures row { IfOk result (λ row. (m : Contents) → (store_view store.old).seen ≡ m → ((store_view store.old).honest → HasPage self.old.window m)
            → IsRowOf schema.now ((store_view store.old).honest) (bytes_at (out_area self.old.window.job m) (self.old.at + 2) (end - self.old.at - 2)) row) }
        ensures page { OnOk result ((m : Contents) → (store_view store.old).seen ≡ m → (store_view store.old).honest → HasPage self.old.window m → HasPage self.new.window m) }
        ensures fault { IfErr result (λ fault. (m : Contents) → (store_view store.old).seen ≡ m → ((store_view store.old).honest → HasPage self.old.window m)
            → IsOutReadFault schema.now ((store_view store.old).honest) self.old.at (bytes_at (out_area self.old.window.job m) (self.old.at + 2) (end - self.old.at - 2)) fault) }
        ensures behind { 4096 * self.new.window.next ≤ end + 4095 }
        ensures setup { (self.new.window.job ≡ self.old.window.job) × (self.new.end ≡ self.old.end) × (self.new.at ≡ self.old.at) }
        ensures read { OnlyRead store.old store.new }
        ensures reads { D.reads_of store.new.disk.now + self.old.window.next ≤ D.reads_of store.old.disk.now + self.new.window.next }
        ensures cause { MatchResult result (λ _. D.faults_of store.new.disk.now ≡ D.faults_of store.old.disk.now)
            (λ fault. PushCause fault (D.faults_of store.old.disk.now) (D.faults_of store.new.disk.now)) }
    {
        let from = self.at + LENGTH_BYTES;
        let bytes = &mut buffer[..(end - from) as usize];
        let Ok(()) = self.window.fill(store, from, bytes) else {
            return Err(OutFault::Failed);
        };
        match decode_row(alloc, schema, bytes) {
            Ok(row) => Ok(row),
            Err(RowFault::BadRow { .. }) => Err(OutFault::BadRow { at: self.at }),
            Err(RowFault::Memory) => Err(OutFault::Memory),
        }
    }

    /// Gives the row that comes next, which ends before this byte, to a sink.
    fn give<D: Disk, R: RowSink>(
        &mut self,
        alloc: Global,
        store: &mut Store<'_, D>,
        schema: &Schema,
        end: u32,
        buffer: &mut [u8],
        out: &mut R,
    ) -> Result<(), OutFault>
        requires form { self.old.end ≤ 4096 * store.old.sizes.out }
        requires behind { 4096 * self.old.window.next ≤ self.old.at + 2 + 4095 }
        requires begins { self.old.at + 2 ≤ end }
        requires ends { end ≤ self.old.end }
        requires short { end < self.old.at + 65538 }
        requires buffer { min self.old.end 65535 ≤ length buffer.old }
        requires sink { R.unbounded out.old }
        ensures given { OnOk result ((m : Contents) → (store_view store.old).seen ≡ m → ((store_view store.old).honest → HasPage self.old.window m)
            → ((store_view store.old).honest → bytes_at (out_area self.old.window.job m) self.old.at 2 ≡ little 2 (end - self.old.at - 2))
            → HasGiven schema.now ((store_view store.old).honest) (out_area self.old.window.job m) self.old.at self.new.at (R.pushed out.old) (R.pushed out.new)) }
        ensures page { OnOk result ((m : Contents) → (store_view store.old).seen ≡ m → (store_view store.old).honest → HasPage self.old.window m → HasPage self.new.window m) }
        ensures fault { IfErr result (λ fault. (m : Contents) → (store_view store.old).seen ≡ m → ((store_view store.old).honest → HasPage self.old.window m)
            → IsOutReadFault schema.now ((store_view store.old).honest) self.old.at (bytes_at (out_area self.old.window.job m) (self.old.at + 2) (end - self.old.at - 2)) fault) }
        ensures kept { OnErr result (Kept (R.pushed out.old) (R.pushed out.new)) }
        ensures at { OnOk result (self.new.at ≡ end) }
        ensures behind { 4096 * self.new.window.next ≤ end + 4095 }
        ensures setup { (self.new.window.job ≡ self.old.window.job) × (self.new.end ≡ self.old.end) }
        ensures read { OnlyRead store.old store.new }
        ensures reads { D.reads_of store.new.disk.now + self.old.window.next ≤ D.reads_of store.old.disk.now + self.new.window.next }
        ensures follows { R.follows out.old out.new }
        ensures calls { R.calls out.new ≡ R.calls out.old }
        ensures unbounded { R.unbounded out.new }
        ensures cause { MatchResult result (λ _. (D.faults_of store.new.disk.now ≡ D.faults_of store.old.disk.now) × (R.row_faults_of out.new ≡ R.row_faults_of out.old))
            (λ fault. ListingCause fault (D.faults_of store.old.disk.now) (D.faults_of store.new.disk.now) (R.row_faults_of out.old) (R.row_faults_of out.new)) }
    {
        let row = self.row(alloc, store, schema, end, buffer)?;
        let Ok(()) = out.push(&row) else {
            return Err(OutFault::Failed);
        };
        self.at = end;
        Ok(())
    }

    /// Gives the row that comes next to a sink where it is wanted, and else passes over it by its length.
    fn step<D: Disk, R: RowSink>(
        &mut self,
        alloc: Global,
        store: &mut Store<'_, D>,
        schema: &Schema,
        wanted: bool,
        buffer: &mut [u8],
        out: &mut R,
    ) -> Result<(), OutFault>
        requires form { self.old.end ≤ 4096 * store.old.sizes.out }
        requires behind { 4096 * self.old.window.next ≤ self.old.at + 4095 }
        requires more { self.old.at < self.old.end }
        requires buffer { min self.old.end 65535 ≤ length buffer.old }
        requires sink { R.unbounded out.old }
        ensures stepped { OnOk result ((m : Contents) → (store_view store.old).seen ≡ m → ((store_view store.old).honest → HasPage self.old.window m)
            → HasStepped schema.now wanted ((store_view store.old).honest) (out_area self.old.window.job m) self.old.at self.new.at (R.pushed out.old) (R.pushed out.new)) }
        ensures page { OnOk result ((m : Contents) → (store_view store.old).seen ≡ m → (store_view store.old).honest → HasPage self.old.window m → HasPage self.new.window m) }
        ensures fault { IfErr result (λ fault. (m : Contents) → (store_view store.old).seen ≡ m → ((store_view store.old).honest → HasPage self.old.window m)
            → IsStepFault schema.now (wanted ≡ true) ((store_view store.old).honest) self.old.at (bytes_at (out_area self.old.window.job m) self.old.at (self.old.end - self.old.at)) fault) }
        ensures kept { OnErr result (Kept (R.pushed out.old) (R.pushed out.new)) }
        ensures on { OnOk result (self.old.at + 2 ≤ self.new.at) }
        ensures behind { OnOk result (4096 * self.new.window.next ≤ self.new.at + 4095) }
        ensures most { 4096 * self.new.window.next ≤ self.old.end + 4095 }
        ensures setup { (self.new.window.job ≡ self.old.window.job) × (self.new.end ≡ self.old.end) }
        ensures read { OnlyRead store.old store.new }
        ensures reads { D.reads_of store.new.disk.now + self.old.window.next ≤ D.reads_of store.old.disk.now + self.new.window.next }
        ensures follows { R.follows out.old out.new }
        ensures calls { R.calls out.new ≡ R.calls out.old }
        ensures unbounded { R.unbounded out.new }
        ensures cause { MatchResult result (λ _. (D.faults_of store.new.disk.now ≡ D.faults_of store.old.disk.now) × (R.row_faults_of out.new ≡ R.row_faults_of out.old))
            (λ fault. ListingCause fault (D.faults_of store.old.disk.now) (D.faults_of store.new.disk.now) (R.row_faults_of out.old) (R.row_faults_of out.new)) }
    {
        let end = self.row_end(store)?;
        if wanted {
            return self.give(alloc, store, schema, end, buffer, out);
        }
        self.at = end;
        Ok(())
    }
}

/// Room for the bytes of any row of an output of so many bytes.
fn buffer_for(alloc: Global, end: u32) -> Result<Vec<u8>, Memory>
    ensures { IfOk result (λ buffer. length buffer.items ≡ min end 65535) }
{
    Ok(vec![in alloc; 0; end.min(ROW_BYTES) as usize]?)
}

/// The length in two bytes, the lowest first.
fn length_in(bytes: &[u8; 2]) -> u32
    ensures number { result ≡ little_number 2 bytes.now }
    ensures bytes { little 2 result ≡ bytes.now }
    ensures most { result < 65536 }
{
    u32::from(LittleEndian::read_u16(bytes))
}

/// Gives the acknowledged rows of a job, 0 to 7, to a sink, from the row of this number on, counted from 0. Each page is
/// read once. Room for the bytes of one row is taken at the start, and no memory per row beyond the row that is handed on.
pub fn rows_from<D: Disk, R: RowSink>(
    alloc: Global,
    store: &mut Store<'_, D>,
    schema: &Schema,
    job: u8,
    head: &JobHead,
    from: u64,
    out: &mut R,
) -> Result<(), OutFault>
    requires job { job < 8 }
    requires form { IsHead store.old.sizes head.now }
    requires sink { R.unbounded out.old }
    ensures listed { HasListed schema.now from ((store_view store.old).honest) (bytes_at ((store_view store.old).seen.area (job_part job 4)) 0 head.now.end)
        result (R.pushed out.old) (R.pushed out.new) }

    // Where the area has just these rows, of which none has more than 65,535 bytes, they are given and none is refused.
    ensures rows { (rows : List (List Value)) → AreOutRows schema.now rows → All (λ row. length (encoded_row schema.now row) < 65536) rows → length (rows_bytes (encoded_row schema.now) rows) ≡ head.now.end
        → ((store_view store.old).honest → HasOutRows job schema.now rows (store_view store.old).seen)
        → ListsFrom from ((store_view store.old).honest) rows result (R.pushed out.old) (R.pushed out.new) }
    ensures stays { Stays (store_view store.old) (store_view store.new) }
    ensures ready { IsReady store.old → IsReady store.new }
    ensures sizes { store.new.sizes ≡ store.old.sizes }
    ensures same { store.new.disk.ghost_name ≡ store.old.disk.ghost_name }
    ensures follows { R.follows out.old out.new }
    ensures calls { R.calls out.new ≡ R.calls out.old }
    ensures unbounded { R.unbounded out.new }
    ensures cause { MatchResult result (λ _. (D.faults_of store.new.disk.now ≡ D.faults_of store.old.disk.now) × (R.row_faults_of out.new ≡ R.row_faults_of out.old))
        (λ fault. ListingCause fault (D.faults_of store.old.disk.now) (D.faults_of store.new.disk.now) (R.row_faults_of out.old) (R.row_faults_of out.new)) }

    // A read for each page that was come to, and no write.
    ensures reads { D.reads_of store.new.disk.now ≤ D.reads_of store.old.disk.now + (head.now.end + 4095) / 4096 }
    ensures writes { D.writes_of store.new.disk.now ≡ D.writes_of store.old.disk.now }
    ensures syncs { D.syncs_of store.new.disk.now ≡ D.syncs_of store.old.disk.now }
{
    let Ok(mut buffer) = buffer_for(alloc, head.end) else {
        return Err(OutFault::Memory);
    };
    let buffer = buffer.as_mut_slice();
    let mut listing = Listing::new(job, head.end);
    let mut number = 0;
    while listing.at < head.end {
        listing.step(alloc, store, schema, from <= number, buffer, out)?;
        number += 1;
    }
    Ok(())
}
