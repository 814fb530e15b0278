// The heads of the two slots of a twin, and which of the slots is current.

ghost use Rattle.std.specs.Prelude.{◌≡◌, ℕ, ◌+◌, ◌*◌, ◌^◌, ◌<◌, ◌≤◌, ◌==◌, length, slice_index, MatchOption, ⊤, IfOk, OnOk};
ghost use Rattle.disk_model.specs.Image.{Holds};
ghost use Rattle.disk_model.specs.View.{Stays};
ghost use Rattle.qsr_value.specs.Causes.{CountsFault, count_after, next_count};
ghost use Rattle.qsr_layout.specs.SlotHead.{slot_head_field};
ghost use Rattle.page_store.specs.Twin.{AreHeads, found_of, head_at, is_current, is_open, is_whole, next_sequence, number_in, stale_of};

use crate::records::OPEN;
use disk_model::Disk;
use qsr_layout::records::{SLOT_BODY_AT, SLOT_HEAD, SlotHeadField};
use qsr_layout::{laws, read_field};
use qsr_value::{Failed, PAGE_BYTES};

/// The first sequence after which 0 comes again.
const LAST_SEQUENCE: u8 = 2;

/// What stands in front of the body of a slot.
#[derive(Clone, Copy)]
pub(crate) struct SlotHead {
    pub(crate) gate: u8,
    pub(crate) sequence: u8,
    pub(crate) len: u32,
}

impl SlotHead {
    /// Whether its gate is open.
    fn is_open(&self) -> bool
        ensures { result ≡ is_open self.now }
    {
        self.gate == OPEN
    }

    /// Whether its sequence is one of the three and its body fits in a slot of so many bytes.
    fn is_whole(&self, span: u64) -> bool
        ensures { result ≡ is_whole span self.now }
    {
        self.sequence <= LAST_SEQUENCE && self.len as u64 + SLOT_BODY_AT as u64 <= span
    }

    /// Whether it comes after another slot, both being whole.
    fn comes_behind(&self, other: &SlotHead) -> bool
        ensures { result ≡ (self.now.sequence == next_sequence other.now.sequence) }
    {
        self.sequence == next_sequence(other.sequence)
    }

    /// Whether it is the current one of two slots of so many bytes.
    fn is_current(&self, other: &SlotHead, span: u64) -> bool
        ensures { result ≡ is_current span self.now other.now }
    {
        self.is_open()
            && self.is_whole(span)
            && (!other.is_open() || (other.is_whole(span) && self.comes_behind(other)))
    }
}

/// The sequence after another.
pub(crate) fn next_sequence(sequence: u8) -> u8
    ensures { result ≡ next_sequence sequence }
{
    if sequence < LAST_SEQUENCE {
        sequence + 1
    } else {
        0
    }
}

/// The number in a field of a slot's head.
fn slot_field(page: &[u8; PAGE_BYTES], field: SlotHeadField) -> u128
    ensures value { result ≡ number_in (slot_head_field field) page.now }
    ensures fits { result < 256 ^ (slot_head_field field).bytes }
{
    // For the proof: each field of the record is one that can be read and written.
    laws::records_are_checked();
    read_field(&SLOT_HEAD, field.index(), page)
}

/// The head of a slot in its first bytes.
fn head_of(page: &[u8; PAGE_BYTES]) -> SlotHead
    ensures gate { result.gate ≡ slice_index page.now 0 }
    ensures sequence { result.sequence ≡ slice_index page.now 1 }
    ensures len { result.len ≡ number_in (record { at = 2; bytes = 4 }) page.now }
{
    SlotHead {
        gate: slot_field(page, SlotHeadField::Gate) as u8,
        sequence: slot_field(page, SlotHeadField::Sequence) as u8,
        len: slot_field(page, SlotHeadField::Length) as u32,
    }
}

/// Reads the head of the slot at this offset.
fn read_head<D: Disk>(disk: &mut D, slot: u64) -> Result<SlotHead, Failed>
    requires { slot + 8 ≤ D.size_of disk.old }
    ensures head { IfOk result (λ head. (D.view disk.old).honest → head_at (D.view disk.old).seen slot ≡ head) }
    ensures stays { Stays (D.view disk.old) (D.view disk.new) }
    ensures faults { CountsFault result (D.faults_of disk.old) (D.faults_of disk.new) }
    ensures reads { D.reads_of disk.new ≡ next_count (D.reads_of disk.old) }
    ensures writes { D.writes_of disk.new ≡ D.writes_of disk.old }
    ensures syncs { D.syncs_of disk.new ≡ D.syncs_of disk.old }
    ensures size { D.size_of disk.new ≡ D.size_of disk.old }
{
    let mut page = [0; PAGE_BYTES];
    disk.read(slot, &mut page[..SLOT_BODY_AT])?;
    Ok(head_of(&page))
}

/// The heads of the two slots of a twin.
#[derive(Clone, Copy)]
pub(crate) struct Heads {
    pub(crate) first: SlotHead,
    pub(crate) second: SlotHead,
}

/// Where the body of a current slot stands, and how many bytes it has.
#[derive(Clone, Copy)]
pub(crate) struct Found {
    pub(crate) at: u64,
    pub(crate) len: u32,
}

/// A slot that is to be replaced: where it begins, the byte of its gate, and the sequence that it gets.
#[derive(Clone, Copy)]
pub(crate) struct Stale {
    pub(crate) slot: u64,
    pub(crate) gate: u8,
    pub(crate) sequence: u8,
}

impl Heads {
    /// The body of the current slot, of a twin at this offset whose slots have so many bytes.
    pub(crate) fn found(&self, at: u64, span: u64) -> Option<Found>
        requires { at + 2 * span < 2 ^ 64 }
        ensures found { result ≡ found_of span at self.now }
        ensures within { MatchOption result ⊤ (λ found. found.at + found.len ≤ at + 2 * span) }
        ensures long { MatchOption result ⊤ (λ found. found.len + 8 ≤ span) }
    {
        if self.first.is_current(&self.second, span) {
            Some(Found {
                at: at + SLOT_BODY_AT as u64,
                len: self.first.len,
            })
        } else if self.second.is_current(&self.first, span) {
            Some(Found {
                at: at + span + SLOT_BODY_AT as u64,
                len: self.second.len,
            })
        } else {
            None
        }
    }

    /// The slot that isn't current, of a twin at this offset whose slots have so many bytes.
    pub(crate) fn stale(&self, at: u64, span: u64) -> Stale
        requires { at + 2 * span < 2 ^ 64 }
        ensures stale { result ≡ stale_of span at self.now }
        ensures low { at ≤ result.slot }
        ensures high { result.slot ≤ at + span }
    {
        if self.first.is_current(&self.second, span) {
            Stale {
                slot: at + span,
                gate: self.second.gate,
                sequence: next_sequence(self.first.sequence),
            }
        } else {
            Stale {
                slot: at,
                gate: self.first.gate,
                sequence: next_sequence(self.second.sequence),
            }
        }
    }
}

/// Reads the heads of the two slots of a twin.
pub(crate) fn read_heads<D: Disk>(disk: &mut D, at: u64, span: u64) -> Result<Heads, Failed>
    requires some { 8 ≤ span }
    requires within { at + 2 * span ≤ D.size_of disk.old }
    requires fits { at + 2 * span < 2 ^ 64 }
    ensures heads { IfOk result (λ heads. (D.view disk.old).honest → AreHeads span at (D.view disk.old).seen heads) }
    ensures stays { Stays (D.view disk.old) (D.view disk.new) }
    ensures faults { CountsFault result (D.faults_of disk.old) (D.faults_of disk.new) }
    ensures reads { OnOk result (D.reads_of disk.new ≡ count_after 2 (D.reads_of disk.old)) }
    ensures writes { D.writes_of disk.new ≡ D.writes_of disk.old }
    ensures syncs { D.syncs_of disk.new ≡ D.syncs_of disk.old }
    ensures size { D.size_of disk.new ≡ D.size_of disk.old }
{
    let first = read_head(disk, at)?;
    let second = read_head(disk, at + span)?;
    Ok(Heads { first, second })
}
