// How the rows of a page are found.

ghost use Rattle.std.specs.Prelude.{◌≡◌, ◌↔◌, ◌≤◌, ℕ, List, length, drop, IfSome, IfNone, IsTrue};
ghost use Rattle.row_page.specs.Framed.{rows_bytes};
ghost use Rattle.row_page.specs.Pages.{EndsBehind, IsAtFront, IsNoFront, IsNoPage, IsPage};

use byteorder::{ByteOrder, LittleEndian};

/// How many bytes stand before those of a row, to tell how many they are.
pub(crate) const LENGTH_BYTES: usize = 2;

/// The bytes of the row whose length stands at this byte of a page. None stands there where the length is 0, or it or the
/// row is cut off by the end of these bytes.
pub fn row_at(page: &[u8], at: usize) -> Option<&[u8]>
    requires { at ≤ length page.now }
    ensures row { IfSome result (λ row. IsAtFront row.now (drop at page.now)) }
    ensures none { IfNone result (IsNoFront (drop at page.now)) }
{
    let rest = &page[at..];
    if rest.len() < LENGTH_BYTES {
        return None;
    }
    let length = LittleEndian::read_u16(rest) as usize;
    if length == 0 || rest.len() - LENGTH_BYTES < length {
        return None;
    }
    Some(&rest[LENGTH_BYTES..LENGTH_BYTES + length])
}

/// Where the rows of a page end, whose bytes for rows these are: at a length of 0, or where fewer than two bytes are left.
/// Bytes that are those of no page have rows up to their end, of which one is cut off.
pub fn rows_end(page: &[u8]) -> usize
    ensures rows { (rows : List (List ℕ)) → IsPage rows page.now → result ≡ length (rows_bytes (λ row. row) rows) }
    ensures none { IsNoPage page.now → result ≡ length page.now }
    ensures within { result ≤ length page.now }
{
    let mut at = 0;
    while let Some(row) = row_at(page, at) {
        at += LENGTH_BYTES + row.len();
    }
    if is_end(page, at) { at } else { page.len() }
}

/// Whether the rows of a page end at this byte.
fn is_end(page: &[u8], at: usize) -> bool
    requires { at ≤ length page.now }
    ensures { IsTrue result ↔ EndsBehind at page.now }
{
    let rest = &page[at..];
    if rest.len() < LENGTH_BYTES {
        return true;
    }
    LittleEndian::read_u16(rest) == 0
}
