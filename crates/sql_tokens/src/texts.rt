ghost use Rattle.std.specs.Prelude.{◌≡◌, IfOk, false, ◌&&◌, ◌==◌};
ghost use Rattle.sql_tokens.specs.Text.{between_marks, undoubled, text_content};

use crate::scan::is_open_mark;
use qsr_value::{Bytes, Memory};
use std::alloc::Global;

/// The bytes between the marks of the text at this place with so many bytes, as far as they are there.
fn between_marks(bytes: &[u8], at: usize, length: usize) -> &[u8]
    ensures { result.now ≡ between_marks bytes.now at length }
{
    let (_, behind) = bytes.split_at(at.min(bytes.len()));
    let (between, _) = behind.split_at(length.saturating_sub(2).min(behind.len()));
    between
}

/// Whether this byte is a mark right behind another that it belongs to.
fn is_second_mark(marked: bool, b: u8) -> bool
    ensures { result ≡ (marked && b == 39) }
{
    marked && b == b'\''
}

/// A copy of these bytes with one mark for two.
fn undoubled(alloc: Global, bytes: &[u8]) -> Result<Bytes, Memory>
    ensures { IfOk result (λ copy. copy ≡ undoubled false bytes.now) }
{
    let mut copy = Bytes::with_room(alloc, bytes.len())?;
    let mut marked = false;
    for b in bytes {
        if !is_second_mark(marked, *b) {
            copy.push(*b)?;
        }
        marked = is_open_mark(marked, *b);
    }
    Ok(copy)
}

/// What the text at this place with so many bytes says: the bytes between its marks, with one mark for two.
pub fn text_value(alloc: Global, text: &str, at: u32, length: u32) -> Result<Bytes, Memory>
    ensures { IfOk result (λ bytes. bytes ≡ text_content text.now at length) }
{
    let between = between_marks(text.as_bytes(), at as usize, length as usize);
    if between.contains(&b'\'') {
        return undoubled(alloc, between);
    }
    Bytes::from_slice(alloc, between)
}
