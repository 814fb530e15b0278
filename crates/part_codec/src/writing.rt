// Parts of a format, put into a buffer from a place on: each writer answers the place behind what it put.

ghost use Rattle.std.specs.Prelude.{◌+◌, ◌^◌, ◌<◌, ◌≤◌, [], ◌∷◌, length};
ghost use Rattle.std.specs.Int.{w64, w128};
ghost use Rattle.byteorder.specs.Endian.{little_bytes};
ghost use Rattle.part_codec.specs.Puts.{Puts, short_text_bytes, signed_bytes};

use byteorder::{ByteOrder, LittleEndian};

/// Puts bytes as they are.
pub fn put_bytes(bytes: &[u8], body: &mut [u8], at: usize) -> usize
    requires { at + length bytes.now ≤ length body.old }
    ensures { Puts body.old at bytes.now body.new result }
{
    let end = at + bytes.len();
    body[at..end].copy_from_slice(bytes);
    end
}

/// Puts one byte.
pub fn put_byte(byte: u8, body: &mut [u8], at: usize) -> usize
    requires { at + 1 ≤ length body.old }
    ensures { Puts body.old at (byte ∷ []) body.new result }
{
    put_bytes(&[byte], body, at)
}

/// Puts a number in two bytes, the lowest first.
pub fn put_u16(number: u16, body: &mut [u8], at: usize) -> usize
    requires { at + 2 ≤ length body.old }
    ensures { Puts body.old at (little_bytes 2 number) body.new result }
{
    let mut bytes = [0; 2];
    LittleEndian::write_u16(&mut bytes, number);
    put_bytes(&bytes, body, at)
}

/// Puts a number in four bytes, the lowest first.
pub fn put_u32(number: u32, body: &mut [u8], at: usize) -> usize
    requires { at + 4 ≤ length body.old }
    ensures { Puts body.old at (little_bytes 4 number) body.new result }
{
    let mut bytes = [0; 4];
    LittleEndian::write_u32(&mut bytes, number);
    put_bytes(&bytes, body, at)
}

/// Puts a number in eight bytes, the lowest first.
pub fn put_u64(number: u64, body: &mut [u8], at: usize) -> usize
    requires { at + 8 ≤ length body.old }
    ensures { Puts body.old at (little_bytes 8 number) body.new result }
{
    let mut bytes = [0; 8];
    LittleEndian::write_u64(&mut bytes, number);
    put_bytes(&bytes, body, at)
}

/// Puts a number in sixteen bytes, the lowest first.
pub fn put_u128(number: u128, body: &mut [u8], at: usize) -> usize
    requires { at + 16 ≤ length body.old }
    ensures { Puts body.old at (little_bytes 16 number) body.new result }
{
    let mut bytes = [0; 16];
    LittleEndian::write_u128(&mut bytes, number);
    put_bytes(&bytes, body, at)
}

/// Puts a number in eight bytes in two's complement, the lowest first.
pub fn put_i64(number: i64, body: &mut [u8], at: usize) -> usize
    requires { at + 8 ≤ length body.old }
    ensures { Puts body.old at (signed_bytes w64 number) body.new result }
{
    let mut bytes = [0; 8];
    LittleEndian::write_i64(&mut bytes, number);
    put_bytes(&bytes, body, at)
}

/// Puts a number in sixteen bytes in two's complement, the lowest first.
pub fn put_i128(number: i128, body: &mut [u8], at: usize) -> usize
    requires { at + 16 ≤ length body.old }
    ensures { Puts body.old at (signed_bytes w128 number) body.new result }
{
    let mut bytes = [0; 16];
    LittleEndian::write_i128(&mut bytes, number);
    put_bytes(&bytes, body, at)
}

/// Puts a text behind its length in one byte.
#[tactic(auto, using(crate::proofs::Putting::then_puts))]
pub fn put_short_text(text: &str, body: &mut [u8], at: usize) -> usize
    requires short { length text.now < 2 ^ 8 }
    requires room { at + length (short_text_bytes text.now) ≤ length body.old }
    ensures { Puts body.old at (short_text_bytes text.now) body.new result }
{
    let at = put_byte(text.len() as u8, body, at);
    put_bytes(text.as_bytes(), body, at)
}
