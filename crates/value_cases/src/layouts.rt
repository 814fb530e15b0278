//! Calls on the fields of records.

ghost use Rattle.std.specs.Prelude.{◌^◌, ◌<◌, IsTrue};

use anyhow::{Context, Result, bail, ensure};
use case_kit::{byte_of, bytes_of, show_bytes};
use qsr_layout::records::{SLOT_HEAD, STORE_HEAD};
use qsr_layout::{Field, Layout, read_field, write_field};
use qsr_value::{ListOf, PAGE_BYTES};
use std::alloc::Global;
use std::fmt::Write;

/// A record whose second field ends with the page.
const LAST: Layout<2> = Layout {
    fields: [
        Field { at: 0, bytes: 1 },
        Field {
            at: 4080,
            bytes: 16,
        },
    ],
};

/// Of each field the number that is to be written there, if any.
type Numbers = ListOf<Option<u128>>;

/// Whether a number fits in so many bytes. Fields of other widths are those of no record here.
fn fits(number: u128, bytes: u8) -> bool
    ensures { IsTrue result → number < 256 ^ bytes }
{
    match bytes {
        1 => number <= 0xFF,
        2 => number <= 0xFFFF,
        4 => number <= 0xFFFF_FFFF,
        8 => number <= 0xFFFF_FFFF_FFFF_FFFF,
        16 => true,
        _ => false,
    }
}

/// A field, as `PLACE:BYTES`.
fn field_of(word: &str) -> Result<Field> {
    let (at, bytes) = word.split_once(':').context("no width")?;
    let at = at.parse::<u16>()?;
    let bytes = bytes.parse::<u8>()?;
    Ok(Field { at, bytes })
}

fn fields_of(alloc: Global, text: &str) -> Result<ListOf<Field>> {
    let mut fields = ListOf::new(alloc);
    for word in text.split_whitespace() {
        fields.push(field_of(word)?)?;
    }
    Ok(fields)
}

/// Whether the layout of none, two or three fields is checked.
fn is_checked(fields: &[Field]) -> Result<bool> {
    match fields {
        [] => Ok(Layout { fields: [] }.checked()),
        [one, two] => Ok(Layout {
            fields: [*one, *two],
        }
        .checked()),
        [one, two, three] => Ok(Layout {
            fields: [*one, *two, *three],
        }
        .checked()),
        _ => bail!("no layout of so many fields"),
    }
}

/// `FIELD FIELD ..`: says whether their layout is checked.
fn checked(alloc: Global, into: &mut String, rest: &str) -> Result<()> {
    let fields = fields_of(alloc, rest)?;
    writeln!(into, "{}", is_checked(fields.as_slice())?)?;
    Ok(())
}

/// Numbers in hexadecimal digits; a `-` stands for none.
fn numbers_of(alloc: Global, text: &str) -> Result<Numbers> {
    let mut numbers = Numbers::new(alloc);
    for word in text.split(' ') {
        let number = match word {
            "-" => None,
            digits => Some(u128::from_str_radix(digits, 16)?),
        };
        numbers.push(number)?;
    }
    Ok(numbers)
}

/// Adds the numbers of all fields of a page.
fn show_fields<const N: usize>(
    into: &mut String,
    layout: &Layout<N>,
    page: &[u8; PAGE_BYTES],
) -> Result<()> {
    ensure!(layout.checked(), "no checked layout");
    into.push_str("fields")?;
    for place in 0..N {
        write!(into, " {:x}", read_field(layout, place, page))?;
    }
    into.push('\n')?;
    Ok(())
}

/// Writes a number into a field of a page.
fn write_one<const N: usize>(
    layout: &Layout<N>,
    place: usize,
    page: &mut [u8; PAGE_BYTES],
    number: u128,
) -> Result<()> {
    ensure!(layout.checked(), "no checked layout");
    ensure!(place < N, "no such field");
    ensure!(
        fits(number, layout.fields[place].bytes),
        "too great a number"
    );
    write_field(layout, place, page, number);
    Ok(())
}

/// For each number a page of one byte, its field written, and all fields read.
fn write_each<const N: usize>(
    into: &mut String,
    layout: &Layout<N>,
    fill: u8,
    numbers: &Numbers,
) -> Result<()> {
    for (place, number) in numbers.as_slice().iter().enumerate() {
        if let Some(number) = number {
            let mut page = [fill; PAGE_BYTES];
            write_one(layout, place, &mut page, *number)?;
            show_fields(into, layout, &page)?;
        }
    }
    Ok(())
}

/// All numbers are written into one page of one byte, whose bytes are said.
fn write_all<const N: usize>(
    into: &mut String,
    layout: &Layout<N>,
    fill: u8,
    numbers: &Numbers,
) -> Result<()> {
    let mut page = [fill; PAGE_BYTES];
    for (place, number) in numbers.as_slice().iter().enumerate() {
        if let Some(number) = number {
            write_one(layout, place, &mut page, *number)?;
        }
    }
    into.push_str("page")?;
    show_bytes(into, &page)?;
    into.push('\n')?;
    Ok(())
}

/// A page of a byte with other bytes at its front, whose fields are said.
fn read_all<const N: usize>(
    into: &mut String,
    layout: &Layout<N>,
    fill: u8,
    front: &[u8],
) -> Result<()> {
    let mut page = [fill; PAGE_BYTES];
    ensure!(front.len() <= PAGE_BYTES, "more than a page");
    page[..front.len()].copy_from_slice(front);
    show_fields(into, layout, &page)
}

/// Which call is made.
#[derive(Clone, Copy)]
enum Call {
    Each,
    All,
    Read,
}

/// Makes a call on a record, over a page of a byte.
fn on_record<const N: usize>(
    alloc: Global,
    into: &mut String,
    layout: &Layout<N>,
    call: Call,
    fill: u8,
    rest: &str,
) -> Result<()> {
    match call {
        Call::Each => write_each(into, layout, fill, &numbers_of(alloc, rest)?),
        Call::All => write_all(into, layout, fill, &numbers_of(alloc, rest)?),
        Call::Read => read_all(into, layout, fill, &bytes_of(alloc, rest)?),
    }
}

/// `RECORD FILL ..`: makes a call on the record of that name.
fn named(alloc: Global, into: &mut String, call: Call, rest: &str) -> Result<()> {
    let (name, rest) = rest.split_once(' ').context("no byte")?;
    let (fill, rest) = rest.split_once(' ').context("no fields")?;
    let fill = byte_of(fill)?;
    match name {
        "store" => on_record(alloc, into, &STORE_HEAD, call, fill, rest),
        "slot" => on_record(alloc, into, &SLOT_HEAD, call, fill, rest),
        "last" => on_record(alloc, into, &LAST, call, fill, rest),
        _ => bail!("no such record: {name}"),
    }
}

/// Makes a call of these kinds; `false` where the word names none of them.
pub(crate) fn make(alloc: Global, into: &mut String, word: &str, rest: &str) -> Result<bool> {
    match word {
        "layout" => checked(alloc, into, rest)?,
        "field-each" => named(alloc, into, Call::Each, rest)?,
        "fields" => named(alloc, into, Call::All, rest)?,
        "field-read" => named(alloc, into, Call::Read, rest)?,
        _ => return Ok(false),
    }
    Ok(true)
}
