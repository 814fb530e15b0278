// How rows are put on a page.

ghost use Rattle.std.specs.Prelude.{◌≡◌, ◌+◌, ◌^◌, ◌<◌, ◌≤◌, ◌++◌, length, take, drop, IfOk, OnErr};
ghost use Rattle.qsr_value.specs.Columns.{width_of};
ghost use Rattle.qsr_value.specs.Encoding.{encoded_row};
ghost use Rattle.qsr_value.specs.Values.{AreTexts, Fits};
ghost use Rattle.row_page.specs.Framed.{framed};
ghost use Rattle.row_page.specs.Pages.{page_end};

use crate::reading::LENGTH_BYTES;
use byteorder::{ByteOrder, LittleEndian};
use qsr_value::{NoRoom, Row, Schema, encode_row, laws};

/// Puts a row on a page from this byte on, its length before it, and answers where it ends. A row that doesn't fit leaves the
/// page as it was.
pub fn put_row(page: &mut [u8], at: usize, row: &Row, schema: &Schema) -> Result<usize, NoRoom>
    requires at { at ≤ length page.old }
    requires fits { Fits schema.now row.now }
    requires short { width_of schema.now < 2 ^ 16 }
    ensures end { IfOk result (λ end. end ≡ at + length (framed (encoded_row schema.now row.now))) }
    ensures within { IfOk result (λ end. end ≤ length page.old) }
    ensures bytes { IfOk result (λ end. page.new ≡ take at page.old ++ (framed (encoded_row schema.now row.now) ++ drop end page.old)) }
    ensures room { OnErr result (length page.old < at + length (framed (encoded_row schema.now row.now))) }
    ensures as_before { OnErr result (page.new ≡ page.old) }
    ensures long { length page.new ≡ length page.old }
    ensures texts { AreTexts row.now }
{
    // For the proof: a row's bytes are no more than its columns are wide, so that two bytes can count them.
    laws::encodings_are_exact();
    let row_at = at + LENGTH_BYTES;
    let end = encode_row(row, schema, page, row_at)?;
    LittleEndian::write_u16(&mut page[at..], (end - row_at) as u16);
    Ok(end)
}

/// Ends the rows of a page at this byte, where another page follows: by a length of 0 where two bytes are left. Answers where
/// what is written ends.
pub fn end_page(page: &mut [u8], at: usize) -> usize
    requires { at ≤ length page.old }
    ensures end { result ≡ at + length (page_end (length page.old) at) }
    ensures bytes { page.new ≡ take at page.old ++ (page_end (length page.old) at ++ drop result page.old) }
{
    if page.len() - at < LENGTH_BYTES {
        return at;
    }
    page[at..at + LENGTH_BYTES].fill(0);
    at + LENGTH_BYTES
}
