//! What crashes leave of bytes that weren't synced, and how many device calls are more than any run makes.

use disk_model::Pick;

/// The five ways in which a stop leaves what was written and not synced.
pub const FILLS: [Pick; 5] = [
    Pick::Old,
    Pick::New,
    Pick::Fill(0),
    Pick::Fill(0xA5),
    Pick::Fill(0x7F),
];

/// More calls than a run makes: a stop after so many is one after all.
pub const ALL_CALLS: u64 = 1_000_000;
