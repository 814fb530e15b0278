// A layout says where the fields of a record stand in a page.

ghost use Rattle.std.specs.Prelude.{◌≡◌, ◌≢◌, ℕ, ◌+◌, ◌^◌, ◌<◌, ◌≤◌, ◌↔◌, IsTrue};
ghost use Rattle.byteorder.specs.Endian.{little_bytes};
ghost use Rattle.qsr_layout.specs.Fields.{IsChecked, field_value, field_start_of, field_width_of};
ghost use Rattle.qsr_layout.specs.Page.{PageHolds, PageSameOutside};

use byteorder::{ByteOrder, LittleEndian};
use qsr_value::PAGE_BYTES;

/// How many bytes a field has at most: those of the widest number.
const FIELD_BYTES: u8 = 16;

/// Where a field begins in its page, and how many bytes it has.
#[derive(Clone, Copy)]
pub struct Field {
    pub at: u16,
    pub bytes: u8,
}

/// The fields of a record, in the order of their offsets.
#[derive(Clone, Copy)]
pub struct Layout<const N: usize> {
    pub fields: [Field; N],
}

impl<const N: usize> Layout<N> {
    /// Whether the fields stand in order, overlap nowhere, have 1 to 16 bytes each and end within a page.
    pub const fn checked(&self) -> bool
        ensures { IsTrue result ↔ IsChecked self.now.fields }
    {
        // Each field has to begin behind the one before it, so it is enough to keep where that one ends.
        let mut end = 0;
        let mut place = 0;
        'fields: while place < N {
            let field = self.fields[place];
            if field.bytes < 1 || field.bytes > FIELD_BYTES || (field.at as usize) < end {
                return false;
            }
            end = field.at as usize + field.bytes as usize;
            if end > PAGE_BYTES {
                return false;
            }
            place += 1;
        }
        true
    }
}

/// Reads the number that stands in a field, its lowest byte first.
pub fn read_field<const N: usize>(l: &Layout<N>, i: usize, page: &[u8; PAGE_BYTES]) -> u128
    requires checked { IsChecked l.now.fields }
    requires inside { i < N }
    ensures value { result ≡ field_value l.now.fields i page.now }
    ensures fits { result < 256 ^ field_width_of l.now.fields i }
{
    let field = l.fields[i];
    LittleEndian::read_uint128(&page[field.at as usize..], field.bytes as usize)
}

/// Writes a number into a field, its lowest byte first.
pub fn write_field<const N: usize>(l: &Layout<N>, i: usize, page: &mut [u8; PAGE_BYTES], v: u128)
    requires checked { IsChecked l.now.fields }
    requires inside { i < N }
    requires fits { v < 256 ^ field_width_of l.now.fields i }
    ensures bytes { PageHolds page.new (field_start_of l.now.fields i) (little_bytes (field_width_of l.now.fields i) v) }
    ensures outside { PageSameOutside (field_start_of l.now.fields i) (field_width_of l.now.fields i) page.old page.new }

    // A field that was written is read back, and any other field keeps its number.
    ensures reads_back { field_value l.now.fields i page.new ≡ v }
    ensures others { (j : ℕ) → j < N → j ≢ i → field_value l.now.fields j page.new ≡ field_value l.now.fields j page.old }
{
    put_number(page, l.fields[i], v);
}

/// Puts a number into the bytes of one field.
fn put_number(page: &mut [u8; PAGE_BYTES], field: Field, v: u128)
    requires some { 1 ≤ field.bytes }
    requires most { field.bytes ≤ FIELD_BYTES }
    requires within { field.at + field.bytes ≤ PAGE_BYTES }
    requires fits { v < 256 ^ field.bytes }
    ensures bytes { PageHolds page.new field.at (little_bytes field.bytes v) }
    ensures outside { PageSameOutside field.at field.bytes page.old page.new }
{
    LittleEndian::write_uint128(&mut page[field.at as usize..], v, field.bytes as usize);
}
