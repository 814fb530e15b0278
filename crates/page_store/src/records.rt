// The records of a store, as bytes in a page.

ghost use Rattle.std.specs.Prelude.{◌≡◌, ℕ, ◌+◌, ◌-◌, ◌^◌, ◌<◌, ◌≤◌, length, take, drop, ◌&&◌, IsTrue, MatchOption, ⊤};
ghost use Rattle.std.specs.Int.{bytes_low_first};
ghost use Rattle.qsr_layout.specs.Page.{PageHolds, PageSameOutside};
ghost use Rattle.qsr_layout.specs.StoreHead.{store_head_field};
ghost use Rattle.qsr_layout.specs.SlotHead.{slot_head_field};
ghost use Rattle.page_store.specs.Format.{behind_gate, head_rest, slot_front};
ghost use Rattle.page_store.specs.Head.{are_sizes, head_in, is_marked, is_size, sizes_in};
ghost use Rattle.page_store.specs.PageOrder.{AreSizes};
ghost use Rattle.page_store.specs.Twin.{number_in};

use crate::Sizes;
use qsr_layout::records::{SLOT_BODY_AT, SLOT_HEAD, STORE_HEAD, SlotHeadField, StoreHeadField};
use qsr_layout::{laws, read_field, write_field};
use qsr_value::{MAX_AREA_PAGES, PAGE_BYTES};

/// The gate of what is whole.
pub(crate) const OPEN: u8 = 0xA5;

/// A gate is closed by this byte.
pub(crate) const CLOSED: u8 = 0;

/// How many bytes a page has.
pub(crate) const PAGE: u64 = PAGE_BYTES as u64;

/// How many bytes of a body stand in the first page of its slot.
pub(crate) const FRONT_BYTES: usize = PAGE_BYTES - SLOT_BODY_AT;

/// The text QSRSTOR1, its first letter as the lowest byte.
const STORE_TEXT: u128 = 0x3152_4F54_5352_5351;

/// The version of the format.
const VERSION: u128 = 1;

/// How many bytes the store head has.
pub(crate) const STORE_HEAD_BYTES: usize = 31;

const _: () = prove!(
    STORE_HEAD.fields[StoreHeadField::SpillPages as usize].at as usize
        + STORE_HEAD.fields[StoreHeadField::SpillPages as usize].bytes as usize
        == STORE_HEAD_BYTES
);

/// Puts a number into a field of the store head.
fn put_head_field(page: &mut [u8; PAGE_BYTES], field: StoreHeadField, value: u128)
    requires { value < 256 ^ (store_head_field field).bytes }
    ensures bytes { PageHolds page.new (store_head_field field).at (bytes_low_first 0 (store_head_field field).bytes value) }
    ensures outside { PageSameOutside (store_head_field field).at (store_head_field field).bytes page.old page.new }
{
    // For the proof: each field of the record is one that can be read and written.
    laws::records_are_checked();
    write_field(&STORE_HEAD, field.index(), page, value);
}

/// A page with the store head, its gate closed.
pub(crate) fn head_page(sizes: &Sizes) -> [u8; PAGE_BYTES]
    requires { AreSizes sizes.now }
    ensures { take 30 (drop 1 result) ≡ head_rest sizes.now }
{
    let mut page = [0; PAGE_BYTES];
    put_head_field(&mut page, StoreHeadField::Text, STORE_TEXT);
    put_head_field(&mut page, StoreHeadField::Version, VERSION);
    put_head_field(&mut page, StoreHeadField::TablePages, sizes.table as u128);
    put_head_field(&mut page, StoreHeadField::IndexPages, sizes.index as u128);
    put_head_field(&mut page, StoreHeadField::OutputPages, sizes.out as u128);
    put_head_field(&mut page, StoreHeadField::ImagePages, sizes.image as u128);
    put_head_field(&mut page, StoreHeadField::SpillPages, sizes.spill as u128);
    page
}

/// Puts a number into a field of a slot's head.
fn put_slot_field(page: &mut [u8; PAGE_BYTES], field: SlotHeadField, value: u128)
    requires { value < 256 ^ (slot_head_field field).bytes }
    ensures bytes { PageHolds page.new (slot_head_field field).at (bytes_low_first 0 (slot_head_field field).bytes value) }
    ensures outside { PageSameOutside (slot_head_field field).at (slot_head_field field).bytes page.old page.new }
{
    // For the proof: each field of the record is one that can be read and written.
    laws::records_are_checked();
    write_field(&SLOT_HEAD, field.index(), page, value);
}

/// Puts the body of a slot behind its head.
fn put_body(page: &mut [u8; PAGE_BYTES], body: &[u8])
    requires { length body.now ≤ 4088 }
    ensures bytes { PageHolds page.new SLOT_BODY_AT body.now }
    ensures outside { PageSameOutside SLOT_BODY_AT (length body.now) page.old page.new }
{
    page[SLOT_BODY_AT..SLOT_BODY_AT + body.len()].copy_from_slice(body);
}

/// A page with the front of a slot, whose body has `len` bytes in all.
pub(crate) fn slot_page(gate: u8, sequence: u8, len: u32, front: &[u8]) -> [u8; PAGE_BYTES]
    requires { length front.now ≤ 4088 }
    ensures slot { take (SLOT_BODY_AT + length front.now) result ≡ slot_front gate sequence len front.now }
    ensures behind { take (SLOT_BODY_AT + length front.now - 1) (drop 1 result) ≡ behind_gate sequence len front.now }
{
    let mut page = [0; PAGE_BYTES];
    put_slot_field(&mut page, SlotHeadField::Gate, gate as u128);
    put_slot_field(&mut page, SlotHeadField::Sequence, sequence as u128);
    put_slot_field(&mut page, SlotHeadField::Length, len as u128);
    put_slot_field(&mut page, SlotHeadField::Zero, 0);
    put_body(&mut page, front);
    page
}

/// The number in a field of the store head.
fn head_field(page: &[u8; PAGE_BYTES], field: StoreHeadField) -> u128
    ensures value { result ≡ number_in (store_head_field field) page.now }
    ensures fits { result < 256 ^ (store_head_field field).bytes }
{
    // For the proof: each field of the record is one that can be read and written.
    laws::records_are_checked();
    read_field(&STORE_HEAD, field.index(), page)
}

/// Whether a number is one that an area may have of pages.
fn is_size(pages: u32) -> bool
    ensures { result ≡ is_size pages }
{
    1 <= pages && pages <= MAX_AREA_PAGES
}

/// Whether all sizes are such numbers.
fn are_sizes(sizes: &Sizes) -> bool
    ensures value { result ≡ are_sizes sizes.now }
    ensures sizes { IsTrue result → AreSizes sizes.now }
{
    is_size(sizes.table)
        && is_size(sizes.index)
        && is_size(sizes.out)
        && is_size(sizes.image)
        && is_size(sizes.spill)
}

/// Whether the gate is open, and the text and the version are those of a store.
fn is_marked(page: &[u8; PAGE_BYTES]) -> bool
    ensures { result ≡ is_marked page.now }
{
    head_field(page, StoreHeadField::Gate) == OPEN as u128
        && head_field(page, StoreHeadField::Text) == STORE_TEXT
        && head_field(page, StoreHeadField::Version) == VERSION
}

/// The sizes in a store head.
fn sizes_in(page: &[u8; PAGE_BYTES]) -> Sizes
    ensures { result ≡ sizes_in page.now }
{
    Sizes {
        table: head_field(page, StoreHeadField::TablePages) as u32,
        index: head_field(page, StoreHeadField::IndexPages) as u32,
        out: head_field(page, StoreHeadField::OutputPages) as u32,
        image: head_field(page, StoreHeadField::ImagePages) as u32,
        spill: head_field(page, StoreHeadField::SpillPages) as u32,
    }
}

/// Whether the head of a store is marked as one and has these sizes.
fn is_head(page: &[u8; PAGE_BYTES], sizes: &Sizes) -> bool
    ensures value { result ≡ (is_marked page.now && are_sizes sizes.now) }
    ensures sizes { IsTrue result → AreSizes sizes.now }
{
    is_marked(page) && are_sizes(sizes)
}

/// The sizes of the store whose head these bytes are, if they are one.
#[tactic(auto, unfolding(crate::specs::Head::head_in))]
pub(crate) fn head_in(page: &[u8; PAGE_BYTES]) -> Option<Sizes>
    ensures value { result ≡ head_in page.now }
    ensures sizes { MatchOption result ⊤ (λ sizes. AreSizes sizes) }
{
    let sizes = sizes_in(page);
    if is_head(page, &sizes) {
        Some(sizes)
    } else {
        None
    }
}
