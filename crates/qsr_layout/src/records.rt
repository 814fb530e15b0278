//! The fixed records of the store. Their offsets stand here and nowhere else in the code. That they are those of the
//! format, which specs/ has once more by the names of the fields, is what the clauses `field` say.

ghost use Rattle.std.specs.Prelude.{◌≡◌, ◌<◌};
ghost use Rattle.qsr_layout.specs.Fields.{field_at};
ghost use Rattle.qsr_layout.specs.StoreHead.{store_head_place, store_head_field};
ghost use Rattle.qsr_layout.specs.SlotHead.{slot_head_place, slot_head_field};

use crate::{Field, Layout};

/// The head of a store, in the first page.
pub const STORE_HEAD: Layout<8> = Layout {
    fields: [
        Field { at: 0, bytes: 1 },
        Field { at: 1, bytes: 8 },
        Field { at: 9, bytes: 2 },
        Field { at: 11, bytes: 4 },
        Field { at: 15, bytes: 4 },
        Field { at: 19, bytes: 4 },
        Field { at: 23, bytes: 4 },
        Field { at: 27, bytes: 4 },
    ],
};

/// The head of a slot, in front of its body.
pub const SLOT_HEAD: Layout<4> = Layout {
    fields: [
        Field { at: 0, bytes: 1 },
        Field { at: 1, bytes: 1 },
        Field { at: 2, bytes: 4 },
        Field { at: 6, bytes: 2 },
    ],
};

/// Where the body of a slot begins.
pub const SLOT_BODY_AT: usize = 8;

/// How many bytes the head of a job has, which is the body of a slot.
pub const JOB_HEAD_BYTES: usize = 22;

// The head of a slot ends where its last field ends, and there its body begins.
const _: () = prove!(
    SLOT_HEAD.fields[SlotHeadField::Zero as usize].at as usize
        + SLOT_HEAD.fields[SlotHeadField::Zero as usize].bytes as usize
        == SLOT_BODY_AT
);

/// The fields of the head of a store, in the order of its layout.
#[derive(Clone, Copy)]
pub enum StoreHeadField {
    Gate,
    /// The text QSRSTOR1.
    Text,
    Version,
    /// How many pages a table area has: T.
    TablePages,
    /// How many pages an index area has: X.
    IndexPages,
    /// How many pages the output area of a job has: O.
    OutputPages,
    /// How many pages an image side of a job has: I.
    ImagePages,
    /// How many pages the spill area of a job has: S.
    SpillPages,
}

impl StoreHeadField {
    /// Its place in the layout.
    pub const fn index(self) -> usize
        ensures place { result ≡ store_head_place self }
        ensures inside { result < 8 }
        ensures field { field_at STORE_HEAD.fields result ≡ store_head_field self }
    {
        self as usize
    }
}

/// The fields of the head of a slot, in the order of its layout.
#[derive(Clone, Copy)]
pub enum SlotHeadField {
    Gate,
    Sequence,
    /// How many bytes the body has.
    Length,
    /// Two bytes that are zero.
    Zero,
}

impl SlotHeadField {
    /// Its place in the layout.
    pub const fn index(self) -> usize
        ensures place { result ≡ slot_head_place self }
        ensures inside { result < 4 }
        ensures field { field_at SLOT_HEAD.fields result ≡ slot_head_field self }
    {
        self as usize
    }
}
