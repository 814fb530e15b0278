//! Calls on tables of a store in memory.

ghost use Rattle.std.specs.Prelude.{◌≤◌, IfOk};
ghost use Rattle.page_store.specs.PageOrder.{AreSizes};

use crate::stops::{fail_each, stop_each};
use crate::stored;
use anyhow::{Context, Result, bail, ensure};
use case_kit::{bytes_of, number_first, range_of};
use disk_model::MemDisk;
use page_store::{Sizes, Store, format, layout_pages};
use std::alloc::Global;
use std::fmt::Write;

/// So many writes and syncs a disk keeps.
const ROOM: u32 = 1000;

/// A store in memory.
#[derive(Drop)]
pub(crate) struct Tables {
    /// How many pages its areas have, as a line tells.
    sizes: String,
    disk: Option<MemDisk>,
    /// The calls that were made on it.
    calls: Vec<String>,
    /// The bytes of a catalogue, of which others are made.
    body: Vec<u8>,
}

/// How many pages each area of a kind has.
fn pages_of(word: Option<&str>) -> Result<u32>
    ensures { IfOk result (λ pages. (1 ≤ pages) × (pages ≤ 65536)) }
{
    let pages = word
        .context("a number of pages is missing")?
        .parse::<u32>()?;
    ensure!(1 <= pages && pages <= 65536, "no number of pages");
    Ok(pages)
}

/// The sizes that a line tells: of the areas of tables, of indexes and of outputs, of image sides and of spill areas.
fn sizes_of(text: &str) -> Result<Sizes>
    ensures { IfOk result AreSizes }
{
    let mut words = text.split(' ');
    let table = pages_of(words.next())?;
    let index = pages_of(words.next())?;
    let out = pages_of(words.next())?;
    let image = pages_of(words.next())?;
    let spill = pages_of(words.next())?;
    Ok(Sizes {
        table,
        index,
        out,
        image,
        spill,
    })
}

/// A disk with an empty store, of which the calls with these numbers fail. Says what came of it.
pub(crate) fn formatted(
    alloc: Global,
    into: &mut String,
    sizes: &str,
    failing: &[u64],
) -> Result<MemDisk> {
    let sizes = sizes_of(sizes)?;
    let bytes = u64::from(layout_pages(&sizes)) * 4096;
    let mut disk = MemDisk::failing(alloc, bytes, ROOM, failing)?;
    match format(&mut disk, sizes) {
        Ok(pages) => writeln!(into, "{pages} pages")?,
        Err(fault) => writeln!(into, "{fault:?}")?,
    }
    Ok(disk)
}

/// Says the reason of what couldn't be made.
fn show_error(into: &mut String, made: Result<()>) -> Result<()> {
    if let Err(error) = made {
        writeln!(into, "error: {error}")?;
    }
    Ok(())
}

/// Opens the store on a disk and makes a call on it.
fn call_on(alloc: Global, disk: &mut MemDisk, into: &mut String, line: &str) -> Result<()> {
    let (word, rest) = line.split_once(' ').unwrap_or((line, ""));
    match Store::open(disk) {
        Ok(mut store) => stored::make(alloc, &mut store, into, word, rest),
        Err(unopened) => bail!("{:?}", unopened.fault),
    }
}

/// Makes a call on the store on a disk. Of a call that fails the reason is said.
pub(crate) fn call(alloc: Global, disk: &mut MemDisk, into: &mut String, line: &str) -> Result<()> {
    let made = call_on(alloc, disk, into, line);
    show_error(into, made)
}

/// Makes bytes those of the catalogue of the store on a disk.
fn load_on(alloc: Global, disk: &mut MemDisk, into: &mut String, bytes: &[u8]) -> Result<()> {
    match Store::open(disk) {
        Ok(mut store) => stored::load(alloc, &mut store, into, bytes),
        Err(unopened) => bail!("{:?}", unopened.fault),
    }
}

/// Bytes with others in the place of those from a place on up to another.
fn changed(alloc: Global, bytes: &[u8], from: usize, to: usize, with: &[u8]) -> Result<Vec<u8>> {
    let mut changed = Vec::new(alloc);
    changed.extend_from_slice(bytes.get(..from).context("no such place")?)?;
    changed.extend_from_slice(with)?;
    changed.extend_from_slice(bytes.get(to..).context("no such place")?)?;
    Ok(changed)
}

impl Tables {
    pub(crate) fn new(alloc: Global) -> Tables {
        Tables {
            sizes: String::new(alloc),
            disk: None,
            calls: Vec::new(alloc),
            body: Vec::new(alloc),
        }
    }

    /// `SIZES`: formats a new disk.
    fn begin(&mut self, alloc: Global, into: &mut String, sizes: &str) -> Result<()> {
        self.calls = Vec::new(alloc);
        self.sizes = String::from_str(alloc, sizes)?;
        self.disk = Some(formatted(alloc, into, sizes, &[])?);
        Ok(())
    }

    /// Makes a call on the store, and keeps it.
    fn call(&mut self, alloc: Global, into: &mut String, line: String) -> Result<()> {
        let disk = self.disk.as_mut().context("there is no store")?;
        call(alloc, disk, into, line.as_str())?;
        self.calls.push(line)?;
        Ok(())
    }

    /// Makes bytes those of the catalogue, and says what it tells then.
    fn load(&mut self, alloc: Global, into: &mut String, bytes: &[u8]) -> Result<()> {
        let disk = self.disk.as_mut().context("there is no store")?;
        let made = load_on(alloc, disk, into, bytes);
        show_error(into, made)
    }

    /// `FROM TO BYTES`: loads the bytes that were given with these in the place of some.
    fn change(&mut self, alloc: Global, into: &mut String, rest: &str) -> Result<()> {
        let (from, rest) = number_first(rest)?;
        let (to, rest) = number_first(rest)?;
        let with = bytes_of(alloc, rest)?;
        let bytes = changed(alloc, &self.body, from, to, &with)?;
        self.load(alloc, into, &bytes)
    }

    /// Loads the first so many of the bytes that were given, for each number below that of all of them.
    fn cut(&mut self, alloc: Global, into: &mut String) -> Result<()> {
        for size in 0..self.body.len() {
            let bytes = changed(alloc, &self.body, size, self.body.len(), &[])?;
            write!(into, "{size}: ")?;
            self.load(alloc, into, &bytes)?;
        }
        Ok(())
    }

    /// `FIRST..LAST CALL`: says what a call answers on what is left where the store is stopped after so many calls of its disk.
    fn stop(&mut self, alloc: Global, into: &mut String, rest: &str) -> Result<()> {
        let (numbers, line) = rest.split_once(' ').context("no call")?;
        let disk = self.disk.as_ref().context("there is no store")?;
        stop_each(alloc, disk, into, range_of(numbers)?, line)
    }

    /// `FIRST..LAST`: says what all calls on the store answer where the call of the disk with one of these numbers fails.
    fn fail(&mut self, alloc: Global, into: &mut String, rest: &str) -> Result<()> {
        let sizes = self.sizes.as_str();
        fail_each(alloc, sizes, &self.calls, into, range_of(rest)?)
    }

    /// Makes a call.
    pub(crate) fn serve(
        &mut self,
        alloc: Global,
        into: &mut String,
        word: &str,
        rest: &str,
    ) -> Result<()> {
        match word {
            "store" => self.begin(alloc, into, rest),
            "base" => {
                self.body = bytes_of(alloc, rest)?;
                Ok(())
            }
            "change" => self.change(alloc, into, rest),
            "cuts" => self.cut(alloc, into),
            "stops" => self.stop(alloc, into, rest),
            "fails" => self.fail(alloc, into, rest),
            _ => self.call(alloc, into, format!(in alloc; "{word} {rest}")?),
        }
    }
}
