// Parts of a format, read from the front of bytes: each reader answers the part and the bytes behind it, or that it isn't there.

ghost use Rattle.std.specs.Prelude.{IfErr};
ghost use Rattle.std.specs.Int.{w64, w128};
ghost use Rattle.part_codec.specs.Reading.{Gives, IsBad, byte_at, unsigned_at, short_text_at, signed_at, text_at};

use crate::Unread;
use byteorder::{ByteOrder, LittleEndian};
use qsr_value::Txt;
use std::alloc::Global;
use std::str;

/// Reads a byte within these limits.
#[tactic(auto, unfolding(crate::specs::Reading::byte_at))]
pub fn byte_of(least: u8, most: u8, bytes: &[u8]) -> Result<(u8, &[u8]), Unread>
    ensures part { Gives (λ x. (x.0, x.1.now)) result (byte_at least most bytes.now) }
    ensures bad { IfErr result IsBad }
{
    match bytes {
        [] => Err(Unread::Bad { left: 0 }),
        [byte, rest @ ..] => {
            if *byte < least || most < *byte {
                return Err(Unread::Bad { left: bytes.len() });
            }
            Ok((*byte, rest))
        }
    }
}

/// Reads a number of two bytes, the lowest first, within these limits.
#[tactic(auto, unfolding(crate::specs::Reading::unsigned_at))]
pub fn u16_of(least: u16, most: u16, bytes: &[u8]) -> Result<(u16, &[u8]), Unread>
    ensures part { Gives (λ x. (x.0, x.1.now)) result (unsigned_at 2 least most bytes.now) }
    ensures bad { IfErr result IsBad }
{
    if bytes.len() < 2 {
        return Err(Unread::Bad { left: bytes.len() });
    }
    let number = LittleEndian::read_u16(bytes);
    if number < least || most < number {
        return Err(Unread::Bad { left: bytes.len() });
    }
    let (_, rest) = bytes.split_at(2);
    Ok((number, rest))
}

/// Reads a number of four bytes, the lowest first, within these limits.
#[tactic(auto, unfolding(crate::specs::Reading::unsigned_at))]
pub fn u32_of(least: u32, most: u32, bytes: &[u8]) -> Result<(u32, &[u8]), Unread>
    ensures part { Gives (λ x. (x.0, x.1.now)) result (unsigned_at 4 least most bytes.now) }
    ensures bad { IfErr result IsBad }
{
    if bytes.len() < 4 {
        return Err(Unread::Bad { left: bytes.len() });
    }
    let number = LittleEndian::read_u32(bytes);
    if number < least || most < number {
        return Err(Unread::Bad { left: bytes.len() });
    }
    let (_, rest) = bytes.split_at(4);
    Ok((number, rest))
}

/// Reads a number of eight bytes, the lowest first, within these limits.
#[tactic(auto, unfolding(crate::specs::Reading::unsigned_at))]
pub fn u64_of(least: u64, most: u64, bytes: &[u8]) -> Result<(u64, &[u8]), Unread>
    ensures part { Gives (λ x. (x.0, x.1.now)) result (unsigned_at 8 least most bytes.now) }
    ensures bad { IfErr result IsBad }
{
    if bytes.len() < 8 {
        return Err(Unread::Bad { left: bytes.len() });
    }
    let number = LittleEndian::read_u64(bytes);
    if number < least || most < number {
        return Err(Unread::Bad { left: bytes.len() });
    }
    let (_, rest) = bytes.split_at(8);
    Ok((number, rest))
}

/// Reads a number of sixteen bytes, the lowest first, within these limits.
#[tactic(auto, unfolding(crate::specs::Reading::unsigned_at))]
pub fn u128_of(least: u128, most: u128, bytes: &[u8]) -> Result<(u128, &[u8]), Unread>
    ensures part { Gives (λ x. (x.0, x.1.now)) result (unsigned_at 16 least most bytes.now) }
    ensures bad { IfErr result IsBad }
{
    if bytes.len() < 16 {
        return Err(Unread::Bad { left: bytes.len() });
    }
    let number = LittleEndian::read_u128(bytes);
    if number < least || most < number {
        return Err(Unread::Bad { left: bytes.len() });
    }
    let (_, rest) = bytes.split_at(16);
    Ok((number, rest))
}

/// Reads a number of eight bytes in two's complement, the lowest first.
#[tactic(auto, unfolding(crate::specs::Reading::signed_at))]
pub fn i64_of(bytes: &[u8]) -> Result<(i64, &[u8]), Unread>
    ensures part { Gives (λ x. (x.0, x.1.now)) result (signed_at w64 bytes.now) }
    ensures bad { IfErr result IsBad }
{
    if bytes.len() < 8 {
        return Err(Unread::Bad { left: bytes.len() });
    }
    let number = LittleEndian::read_i64(bytes);
    let (_, rest) = bytes.split_at(8);
    Ok((number, rest))
}

/// Reads a number of sixteen bytes in two's complement, the lowest first.
#[tactic(auto, unfolding(crate::specs::Reading::signed_at))]
pub fn i128_of(bytes: &[u8]) -> Result<(i128, &[u8]), Unread>
    ensures part { Gives (λ x. (x.0, x.1.now)) result (signed_at w128 bytes.now) }
    ensures bad { IfErr result IsBad }
{
    if bytes.len() < 16 {
        return Err(Unread::Bad { left: bytes.len() });
    }
    let number = LittleEndian::read_i128(bytes);
    let (_, rest) = bytes.split_at(16);
    Ok((number, rest))
}

/// Reads a text of so many bytes.
#[tactic(auto, unfolding(crate::specs::Reading::text_at))]
pub fn text_of(alloc: Global, size: u8, bytes: &[u8]) -> Result<(Txt, &[u8]), Unread>
    ensures { Gives (λ x. (x.0, x.1.now)) result (text_at size bytes.now) }
{
    let size = size as usize;
    if bytes.len() < size {
        return Err(Unread::Bad { left: bytes.len() });
    }
    let (front, rest) = bytes.split_at(size);
    match str::from_utf8(front) {
        Ok(text) => Ok((Txt::from_str(alloc, text)?, rest)),
        Err(_) => Err(Unread::Bad { left: bytes.len() }),
    }
}

/// Reads a text behind its length in one byte, which is within these limits.
#[tactic(auto, unfolding(crate::specs::Reading::short_text_at))]
pub fn short_text_of(
    alloc: Global,
    least: u8,
    most: u8,
    bytes: &[u8],
) -> Result<(Txt, &[u8]), Unread>
    ensures { Gives (λ x. (x.0, x.1.now)) result (short_text_at least most bytes.now) }
{
    let (size, rest) = byte_of(least, most, bytes)?;
    text_of(alloc, size, rest)
}
