ghost use Rattle.std.specs.Prelude.{◌≡◌, ℕ, ◌+◌, ◌^◌, ◌-◌, ◌<◌, ◌≤◌, ℤ, min, List, ◌++◌, length, take, drop, slice_get, IfOk, OnOk, OnErr, IfErr, MatchOption, MatchResult};
ghost use Rattle.qsr_value.specs.Values.{IsOfKind, Fits, IsText, AreTexts};
ghost use Rattle.qsr_value.specs.Encoding.{encoded, encoded_row, text_bytes};

use crate::kind::{INT_BYTES, LENGTH_BYTES, WIDE_BYTES};
use crate::{ColKind, Row, Schema, Value};
use byteorder::{ByteOrder, LittleEndian};
use thiserror::Error;

/// A row doesn't fit into the bytes from a place on.
#[derive(Clone, Copy, Debug, PartialEq, Eq, Error)]
#[error("no room for the row")]
pub struct NoRoom;

/// Writes a row into `buf` from byte `at` on, and answers where it ends. A whole number of an Int column has 8 bytes and
/// one of a Wide column 16, in two's complement with the lowest byte first; a text has its length in 2 bytes, the lowest
/// first, and then its bytes. A row that doesn't fit leaves `buf` as it was.
pub fn encode_row(row: &Row, schema: &Schema, buf: &mut [u8], at: usize) -> Result<usize, NoRoom>
    requires { Fits schema.now row.now }
    ensures end { IfOk result (λ end. end ≡ at + length (encoded_row schema.now row.now)) }
    ensures within { IfOk result (λ end. end ≤ length buf.old) }
    ensures bytes { IfOk result (λ end. buf.new ≡ take at buf.old ++ (encoded_row schema.now row.now ++ drop end buf.old)) }
    ensures room { OnErr result (length buf.old < at + length (encoded_row schema.now row.now)) }
    ensures as_before { OnErr result (buf.new ≡ buf.old) }
    ensures long { length buf.new ≡ length buf.old }

    // Each text of the program is UTF-8. A caller that asks for it of a row learns it here.
    ensures texts { AreTexts row.now }
{
    let length = encoded_length(row, schema);
    if buf.len() < at || buf.len() - at < length {
        return Err(NoRoom);
    }
    Ok(put_row(row, schema, buf, at))
}

/// How many bytes a row has, up to the greatest number.
fn encoded_length(row: &Row, schema: &Schema) -> usize
    requires { Fits schema.now row.now }
    ensures length { result ≡ min (length (encoded_row schema.now row.now)) (2 ^ 64 - 1) }
    ensures texts { AreTexts row.now }
{
    let mut length = 0usize;
    for place in 0..row.len() {
        length = length.saturating_add(value_length(row.get(place), schema.get(place).kind));
    }
    length
}

/// How many bytes a value has.
#[tactic(auto, using(crate::proofs::Encodings::text_facts))]
pub(crate) fn value_length(value: &Value, kind: ColKind) -> usize
    requires { IsOfKind kind value.now }
    ensures length { result ≡ length (encoded kind value.now) }
    ensures bound { result ≤ 65537 }
    ensures text { IsText value.now }
{
    match value {
        Value::Int(_) => number_length(kind),
        Value::Text(text) => LENGTH_BYTES + text.as_str().len(),
    }
}

/// How many bytes a number of a column of this kind has.
#[tactic(auto, using(crate::proofs::Bytes::byte_counts))]
fn number_length(kind: ColKind) -> usize
    ensures length { (n : ℤ) → result ≡ length (encoded kind (Value.Int n)) }
    ensures bound { result ≤ 16 }
{
    match kind {
        ColKind::Int => INT_BYTES,
        ColKind::Wide => WIDE_BYTES,
        // No number is of a column of texts.
        ColKind::Text { .. } => 0,
    }
}

/// Writes a row that fits, and answers where it ends.
fn put_row(row: &Row, schema: &Schema, buf: &mut [u8], at: usize) -> usize
    requires fits { Fits schema.now row.now }
    requires room { at + length (encoded_row schema.now row.now) ≤ length buf.old }
    ensures end { result ≡ at + length (encoded_row schema.now row.now) }
    ensures bytes { buf.new ≡ take at buf.old ++ (encoded_row schema.now row.now ++ drop result buf.old) }
{
    let mut end = at;
    for place in 0..row.len() {
        end = put_value(row.get(place), schema.get(place).kind, buf, end);
    }
    end
}

/// Writes a value from a place on, and answers where it ends.
fn put_value(value: &Value, kind: ColKind, buf: &mut [u8], at: usize) -> usize
    requires of_kind { IsOfKind kind value.now }
    requires room { at + length (encoded kind value.now) ≤ length buf.old }
    ensures end { result ≡ at + length (encoded kind value.now) }
    ensures bytes { buf.new ≡ take at buf.old ++ (encoded kind value.now ++ drop result buf.old) }
{
    match value {
        Value::Int(number) => at + put_number(*number, kind, &mut buf[at..]),
        Value::Text(text) => at + put_text(text.as_str(), &mut buf[at..]),
    }
}

/// Writes a number of a column of this kind to the front, and answers how many bytes it has.
#[tactic(auto, unfolding(crate::specs::Encoding::int_bytes, crate::specs::Encoding::wide_bytes))]
fn put_number(number: i128, kind: ColKind, buf: &mut [u8]) -> usize
    requires of_kind { IsOfKind kind (Value.Int number) }
    requires room { length (encoded kind (Value.Int number)) ≤ length buf.old }
    ensures length { result ≡ length (encoded kind (Value.Int number)) }
    ensures bytes { buf.new ≡ encoded kind (Value.Int number) ++ drop result buf.old }
{
    match kind {
        ColKind::Int => {
            LittleEndian::write_i64(buf, number as i64);
            INT_BYTES
        }
        ColKind::Wide => {
            LittleEndian::write_i128(buf, number);
            WIDE_BYTES
        }
        // No number is of a column of texts.
        ColKind::Text { .. } => 0,
    }
}

/// Writes a text to the front, its length before it, and answers how many bytes both have.
#[tactic(auto, unfolding(crate::specs::Encoding::text_bytes))]
fn put_text(text: &str, buf: &mut [u8]) -> usize
    requires short { length text.now < 2 ^ 16 }
    requires room { length (text_bytes text.now) ≤ length buf.old }
    ensures length { result ≡ length (text_bytes text.now) }
    ensures bytes { buf.new ≡ text_bytes text.now ++ drop result buf.old }
{
    let end = LENGTH_BYTES + text.len();
    LittleEndian::write_u16(buf, text.len() as u16);
    buf[LENGTH_BYTES..end].copy_from_slice(text.as_bytes());
    end
}
