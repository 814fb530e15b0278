//! A block of a case: a run, what it is given, and the lines that say what must come of it.

use crate::asks::{Ask, ask_of};
use crate::run::Given;
use anyhow::{Context, Result, bail};
use case_kit::{push_escaped, push_piece};
use std::alloc::Global;

/// The word that stands for FILE.
pub(crate) const FILE: &str = "store";

/// As many bytes of output as a run has.
const ROOM: usize = 1 << 20;

/// A line that is read when the run is done, and its number.
#[derive(Drop)]
pub(crate) struct Line {
    pub(crate) number: usize,
    pub(crate) text: String,
}

/// The numbers of the calls that fail.
#[derive(Drop)]
pub(crate) struct Fails {
    pub(crate) disk: Vec<u64>,
    pub(crate) source: Vec<u64>,
    pub(crate) sink: Vec<u64>,
}

#[derive(Drop)]
pub(crate) struct Block {
    pub(crate) line: usize,
    words: Vec<String>,
    input: Vec<u8>,
    piece: usize,
    room: usize,
    is_streamed: bool,
    pub(crate) fails: Fails,
    pub(crate) output: Vec<u8>,
    pub(crate) status: u8,
    /// What is looked at after the run.
    pub(crate) looks: Vec<Line>,
    /// The variants of the run that are tried.
    pub(crate) variants: Vec<Line>,
    pub(crate) asks: Vec<Ask>,
}

/// A word as a line writes it.
fn word_of(alloc: Global, text: &str) -> Result<String> {
    let mut bytes = Vec::new(alloc);
    push_escaped(&mut bytes, text)?;
    Ok(String::from_str(alloc, str::from_utf8(&bytes)?)?)
}

/// Adds the words of a text, which are separated by one space each. A text without a byte has none.
pub(crate) fn push_words(alloc: Global, into: &mut Vec<String>, text: &str) -> Result<()> {
    if text.is_empty() {
        return Ok(());
    }
    for word in text.split(' ') {
        into.push(word_of(alloc, word)?)?;
    }
    Ok(())
}

fn push_line(alloc: Global, into: &mut Vec<Line>, number: usize, text: &str) -> Result<()> {
    let text = String::from_str(alloc, text)?;
    into.push(Line { number, text })?;
    Ok(())
}

fn push_numbers(into: &mut Vec<u64>, text: &str) -> Result<()> {
    for word in text.split(' ') {
        into.push(word.parse::<u64>()?)?;
    }
    Ok(())
}

impl Fails {
    fn new(alloc: Global) -> Fails {
        Fails {
            disk: Vec::new(alloc),
            source: Vec::new(alloc),
            sink: Vec::new(alloc),
        }
    }

    /// Reads `disk N..`, `source N..` or `sink N..`.
    fn read(&mut self, text: &str) -> Result<()> {
        match text.split_once(' ').context("no number")? {
            ("disk", numbers) => push_numbers(&mut self.disk, numbers),
            ("source", numbers) => push_numbers(&mut self.source, numbers),
            ("sink", numbers) => push_numbers(&mut self.sink, numbers),
            (other, _) => bail!("no such object: {other}"),
        }
    }
}

impl Block {
    fn at(alloc: Global, line: usize) -> Block {
        Block {
            line,
            words: Vec::new(alloc),
            input: Vec::new(alloc),
            piece: usize::MAX,
            room: ROOM,
            is_streamed: false,
            fails: Fails::new(alloc),
            output: Vec::new(alloc),
            status: 0,
            looks: Vec::new(alloc),
            variants: Vec::new(alloc),
            asks: Vec::new(alloc),
        }
    }

    /// A run of these words behind FILE.
    pub(crate) fn of_command(alloc: Global, line: usize, words: &str) -> Result<Block> {
        let mut block = Block::at(alloc, line);
        block.words.push(String::from_str(alloc, FILE)?)?;
        push_words(alloc, &mut block.words, words)?;
        Ok(block)
    }

    /// A run of exactly these words.
    pub(crate) fn of_words(alloc: Global, line: usize, words: &str) -> Result<Block> {
        let mut block = Block::at(alloc, line);
        push_words(alloc, &mut block.words, words)?;
        Ok(block)
    }

    /// What the run is given.
    pub(crate) fn given(&self) -> Given<'_> {
        Given {
            words: &self.words,
            input: &self.input,
            piece: self.piece,
            room: self.room,
            source_fails: &self.fails.source,
            sink_fails: &self.fails.sink,
            is_streamed: self.is_streamed,
        }
    }

    /// Reads a line that says what the run is given, or what must come of it.
    fn read_word(&mut self, alloc: Global, number: usize, word: &str, rest: &str) -> Result<()> {
        match word {
            "status" => self.status = rest.parse::<u8>()?,
            "fails" => self.fails.read(rest)?,
            "piece" => self.piece = rest.parse::<usize>()?,
            "room" => self.room = rest.parse::<usize>()?,
            "streams" => self.is_streamed = true,
            "every" => push_line(alloc, &mut self.variants, number, rest)?,
            "ask" => self.asks.push(ask_of(alloc, number, rest)?)?,
            _ => bail!("no such line: {word}"),
        }
        Ok(())
    }

    /// Reads a line of the block.
    pub(crate) fn read(&mut self, alloc: Global, number: usize, text: &str) -> Result<()> {
        if let Some(piece) = text.strip_prefix('<') {
            return push_piece(alloc, &mut self.input, piece);
        }
        if let Some(piece) = text.strip_prefix('>') {
            return push_piece(alloc, &mut self.output, piece);
        }
        match text.split_once(' ').unwrap_or((text, "")) {
            ("calls" | "faults" | "size" | "bytes" | "left" | "stop", _) => {
                push_line(alloc, &mut self.looks, number, text)
            }
            (word, rest) => self.read_word(alloc, number, word, rest),
        }
    }
}
