//! The sizes of a store, its areas and its twins as words, and where its parts stand.

ghost use Rattle.std.specs.Prelude.{◌≡◌, ◌<◌, ◌≤◌, IsTrue, IfOk};
ghost use Rattle.page_store.specs.PageOrder.{AreSizes, IsArea, area_pages};
ghost use Rattle.page_store.specs.Store.{IsTwin};

use anyhow::{Context, Result, bail, ensure};
use case_kit::{Words, number};
use page_store::{Area, Sizes, Twin, first_page, layout_pages};
use std::fmt::Write;

/// Whether an area may have so many pages.
fn is_size(pages: u32) -> bool
    ensures { IsTrue result → (1 ≤ pages) × (pages ≤ 65536) }
{
    1 <= pages && pages <= 65_536
}

/// Whether a store may have these sizes.
fn are_sizes(sizes: &Sizes) -> bool
    ensures { IsTrue result → AreSizes sizes.now }
{
    is_size(sizes.table)
        && is_size(sizes.index)
        && is_size(sizes.out)
        && is_size(sizes.image)
        && is_size(sizes.spill)
}

/// The five numbers of `TABLE:INDEX:OUT:IMAGE:SPILL`.
fn numbers(word: &str) -> Result<[u32; 5]> {
    let mut numbers = [0; 5];
    let mut parts = word.split(':');
    for place in &mut numbers {
        *place = number(parts.next().context("a size is missing")?)?;
    }
    Ok(numbers)
}

/// The sizes that a word tells, of a table, an index, the output, an image side and the spill area.
pub(crate) fn sizes_of(word: &str) -> Result<Sizes>
    ensures { IfOk result AreSizes }
{
    let [table, index, out, image, spill] = numbers(word)?;
    let sizes = Sizes {
        table,
        index,
        out,
        image,
        spill,
    };
    ensure!(are_sizes(&sizes), "no sizes of a store: {word}");
    Ok(sizes)
}

/// A word, parted where its number begins.
fn parted(word: &str) -> Result<(&str, &str)> {
    let at = word.find(|letter: char| letter.is_ascii_digit());
    let parts = at.and_then(|at| word.split_at_checked(at));
    parts.context(format_args!("no number: {word}"))
}

/// A number below another.
fn below(most: u8, text: &str) -> Result<u8>
    ensures { IfOk result (λ number. number < most) }
{
    let number = number::<u8>(text)?;
    ensure!(number < most, "too large a number: {number}");
    Ok(number)
}

/// The number of a job.
pub fn job_of(text: &str) -> Result<u8>
    ensures { IfOk result (λ job. job < 8) }
{
    below(8, text)
}

/// An image side, as `JOB.SIDE`.
fn image(text: &str) -> Result<Area>
    ensures { IfOk result IsArea }
{
    let (job, side) = text.split_once('.').context("an image without its side")?;
    let (job, side) = (below(8, job)?, below(3, side)?);
    ensure!(side > 0, "no side of an image: {side}");
    Ok(Area::Image(job, side))
}

/// The area that a word names: `table0`, `index15`, `text7`, `plan7`, `out7`, `image7.2`, `spill7`.
pub fn area_of(word: &str) -> Result<Area>
    ensures { IfOk result IsArea }
{
    let (kind, text) = parted(word)?;
    match kind {
        "table" => Ok(Area::Table(below(16, text)?)),
        "index" => Ok(Area::Index(below(16, text)?)),
        "text" => Ok(Area::Text(below(8, text)?)),
        "plan" => Ok(Area::Plan(below(8, text)?)),
        "out" => Ok(Area::Out(below(8, text)?)),
        "image" => image(text),
        "spill" => Ok(Area::Spill(below(8, text)?)),
        _ => bail!("no such area: {word}"),
    }
}

/// The twin that a word names: `catalogue`, or `job0` to `job7`.
pub fn twin_of(word: &str) -> Result<Twin>
    ensures { IfOk result IsTwin }
{
    if word == "catalogue" {
        return Ok(Twin::Catalogue);
    }
    let job = word.strip_prefix("job").context("no such twin")?;
    Ok(Twin::Job(job_of(job)?))
}

/// How many pages an area has.
pub fn pages_of(sizes: &Sizes, area: Area) -> u32
    ensures { result ≡ area_pages sizes.now area }
{
    match area {
        Area::Table(_) => sizes.table,
        Area::Index(_) => sizes.index,
        Area::Text(_) | Area::Plan(_) => 1,
        Area::Out(_) => sizes.out,
        Area::Image(_, _) => sizes.image,
        Area::Spill(_) => sizes.spill,
    }
}

/// Says at which pages areas begin, as `SIZES AREA AREA`.
fn say_first(said: &mut String, words: &mut Words<'_>) -> Result<()> {
    let sizes = sizes_of(words.word()?)?;
    said.push_str("first pages")?;
    for word in words.rest().split(' ') {
        let area = area_of(word)?;
        write!(said, " {}", first_page(&sizes, area))?;
    }
    said.push('\n')?;
    Ok(())
}

/// Tells of a layout, and whether the word asks for that.
pub(crate) fn serve(said: &mut String, word: &str, words: &mut Words<'_>) -> Result<bool> {
    match word {
        "layout" => writeln!(said, "{} pages", layout_pages(&sizes_of(words.word()?)?))?,
        "first" => say_first(said, words)?,
        _ => return Ok(false),
    }
    Ok(true)
}
