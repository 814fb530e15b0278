//! Formats of bytes: readers and writers of numbers, texts and lists of parts, with the laws by which what is put together of them is exact,
//! too: what is read is what stands there, what stands there is read, and of what is none the first bad place is told.
#![tactic(auto)]

pub mod laws;
mod reading;
mod unread;
mod writing;

pub use reading::{
    byte_of, i64_of, i128_of, short_text_of, text_of, u16_of, u32_of, u64_of, u128_of,
};
pub use unread::Unread;
pub use writing::{
    put_byte, put_bytes, put_i64, put_i128, put_short_text, put_u16, put_u32, put_u64, put_u128,
};
