ghost use Rattle.std.specs.Prelude.{◌≡◌, ℕ, ◌+◌, ◌<◌, ◌≤◌, List, length, take, drop, IfOk, IfErr, IfSome, MatchOption, MatchResult};
ghost use Rattle.qsr_value.specs.declared.row.Value.{Value as RowValue};
ghost use Rattle.qsr_value.specs.Values.{Fits, AreTexts};
ghost use Rattle.qsr_value.specs.Encoding.{IsBadValue, IsBadText, IsFault, StandsAtFront, encoded_row};

use crate::encode::value_length;
use crate::kind::{INT_BYTES, LENGTH_BYTES, WIDE_BYTES};
use crate::{ColKind, Memory, Row, Schema, Txt, Value};
use byteorder::{ByteOrder, LittleEndian};
use std::alloc::Global;
use std::str;
use thiserror::Error;

/// Why bytes gave no row.
#[derive(Clone, Copy, Debug, PartialEq, Eq, Error)]
pub enum RowFault {
    /// The bytes are no row: `at` is the first byte of the first value that is cut off, too long or not UTF-8, or the
    /// first byte too many.
    #[error("no row, from byte {at} on")]
    BadRow { at: usize },
    #[error("no memory")]
    Memory,
}

impl From<Memory> for RowFault {
    ghost use Rattle.std.specs.Prelude.{◌≡◌};
    ghost use Rattle.qsr_value.specs.declared.decode.RowFault.{RowFault};

    ghost from_gives = { λ _ fault. fault ≡ RowFault.Memory };

    fn from(_error: Memory) -> RowFault {
        RowFault::Memory
    }
}

/// Reads the row that these bytes are.
pub fn decode_row(alloc: Global, schema: &Schema, bytes: &[u8]) -> Result<Row, RowFault>
    ensures ok { IfOk result (λ row. Fits schema.now row × AreTexts row × (bytes.now ≡ encoded_row schema.now row)) }
    ensures bad { IfErr result (IsFault schema.now bytes.now) }

    // What is the encoding of a row is read as that row.
    ensures reads_back { (row : List RowValue) → Fits schema.now row → AreTexts row → bytes.now ≡ encoded_row schema.now row → MatchResult result (λ read. read ≡ row) (λ fault. fault ≡ RowFault.Memory) }
{
    let mut row = Row::with_room(alloc, schema.len())?;
    let mut at = 0;
    for place in 0..schema.len() {
        let kind = schema.get(place).kind;
        let Some(value) = read_value(alloc, kind, &bytes[at..])? else {
            return Err(RowFault::BadRow { at });
        };
        at += value_length(&value, kind);
        row.push(value)?;
    }
    if at < bytes.len() {
        return Err(RowFault::BadRow { at });
    }
    Ok(row)
}

/// Reads the value of a column of this kind at the front of the bytes. None is there where they are cut off, too long
/// or not UTF-8.
fn read_value(alloc: Global, kind: ColKind, bytes: &[u8]) -> Result<Option<Value>, Memory>
    ensures { IfOk result (λ found. MatchOption found (IsBadValue kind bytes.now) (StandsAtFront kind bytes.now)) }
{
    match kind {
        ColKind::Int => Ok(read_int(bytes)),
        ColKind::Wide => Ok(read_wide(bytes)),
        ColKind::Text { max } => match text_at_front(max, bytes) {
            None => Ok(None),
            Some(text) => Ok(Some(Value::Text(Txt::from_str(alloc, text)?))),
        },
    }
}

/// Reads a number of 8 bytes.
fn read_int(bytes: &[u8]) -> Option<Value>
    ensures { MatchOption result (IsBadValue ColKind.Int bytes.now) (StandsAtFront ColKind.Int bytes.now) }
{
    if bytes.len() < INT_BYTES {
        return None;
    }
    Some(Value::Int(i128::from(LittleEndian::read_i64(bytes))))
}

/// Reads a number of 16 bytes.
fn read_wide(bytes: &[u8]) -> Option<Value>
    ensures { MatchOption result (IsBadValue ColKind.Wide bytes.now) (StandsAtFront ColKind.Wide bytes.now) }
{
    if bytes.len() < WIDE_BYTES {
        return None;
    }
    Some(Value::Int(LittleEndian::read_i128(bytes)))
}

/// The text of at most `max` bytes at the front of the bytes, its length before it.
fn text_at_front(max: u16, bytes: &[u8]) -> Option<&str>
    ensures { MatchOption result (IsBadText max bytes.now) (λ text. StandsAtFront (ColKind.Text max) bytes.now (Value.Text text.now)) }
{
    if bytes.len() < LENGTH_BYTES {
        return None;
    }
    let length = LittleEndian::read_u16(bytes);
    if max < length || bytes.len() - LENGTH_BYTES < length as usize {
        return None;
    }
    let end = LENGTH_BYTES + length as usize;
    match str::from_utf8(&bytes[LENGTH_BYTES..end]) {
        Ok(text) => Some(text),
        Err(_) => None,
    }
}
