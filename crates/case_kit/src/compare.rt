//! Where bytes differ from those that are wanted.

use std::alloc::{AllocError, Global};
use std::fmt::Write;

/// So many bytes are shown of each side, from a few before the first difference on.
const SHOWN: usize = 60;

/// So many of them stand before the difference.
const BEFORE: usize = 20;

/// Adds bytes as a line writes them.
pub fn push_shown(into: &mut String, bytes: &[u8]) -> Result<(), AllocError> {
    for byte in bytes {
        match *byte {
            b'\n' => into.push_str("\\n")?,
            b'\r' => into.push_str("\\r")?,
            b'\t' => into.push_str("\\t")?,
            b'\\' => into.push_str("\\\\")?,
            b' '..=b'~' => into.push(char::from(*byte))?,
            other => write!(into, "\\x{other:02x}")?,
        }
    }
    Ok(())
}

/// The part of some bytes that is shown of a difference at a place.
fn part(bytes: &[u8], place: usize) -> &[u8] {
    let from = place.saturating_sub(BEFORE).min(bytes.len());
    let rest = bytes.split_at(from).1;
    rest.split_at(rest.len().min(SHOWN)).0
}

/// The first place at which two lists of bytes differ, if they do.
fn first_difference(wanted: &[u8], given: &[u8]) -> Option<usize> {
    if wanted == given {
        return None;
    }
    let mut pairs = wanted.iter().zip(given);
    let same = wanted.len().min(given.len());
    Some(pairs.position(|(one, other)| one != other).unwrap_or(same))
}

/// Says where bytes differ from those that are wanted, if they do.
pub fn difference(
    alloc: Global,
    wanted: &[u8],
    given: &[u8],
) -> Result<Option<String>, AllocError> {
    let Some(place) = first_difference(wanted, given) else {
        return Ok(None);
    };
    let mut said = format!(in alloc; "byte {place}: wanted `")?;
    push_shown(&mut said, part(wanted, place))?;
    said.push_str("`, came `")?;
    push_shown(&mut said, part(given, place))?;
    said.push_str("`")?;
    Ok(Some(said))
}
