//! Sources and sinks of bytes, in memory and over std's streams.

use anyhow::{Context, Result, bail};
use case_kit::{Words, bytes_of, numbers, push_bytes};
use qsr_io::{MemSink, MemSource, Sink, Source, StdSink, StdSource, put_all};
use qsr_value::Failed;
use std::alloc::{AllocError, Global};
use std::fmt::Write;
use std::io;
use std::io::ErrorKind;

/// A reader and writer of std whose first calls are interrupted. It then reads a byte 7, and takes all that is written.
#[derive(Drop)]
struct Stutter {
    interrupted: u32,
}

impl Stutter {
    /// One call: interrupted, or through.
    fn call(&mut self) -> io::Result<()> {
        if self.interrupted == 0 {
            return Ok(());
        }
        self.interrupted -= 1;
        Err(ErrorKind::Interrupted.into())
    }
}

impl io::Read for Stutter {
    fn read(&mut self, buf: &mut [u8]) -> io::Result<usize> {
        self.call()?;
        match buf.first_mut() {
            Some(byte) => {
                *byte = 7;
                Ok(1)
            }
            None => Ok(0),
        }
    }
}

impl io::Write for Stutter {
    fn write(&mut self, buf: &[u8]) -> io::Result<usize> {
        self.call()?;
        Ok(buf.len())
    }

    fn flush(&mut self) -> io::Result<()> {
        Ok(())
    }
}

/// Reads once, and says what came.
fn say_read<S: Source>(source: &mut S, said: &mut String, buffer: &mut [u8]) -> Result<()> {
    if buffer.is_empty() {
        bail!("no buffer");
    }
    match source.read(buffer) {
        Ok(0) => said.push_str("end")?,
        Ok(count) => push_bytes(said, buffer.get(..count).context("more than the buffer")?)?,
        Err(Failed) => said.push_str("failed")?,
    }
    said.push_str(", ")?;
    Ok(())
}

/// Reads so often into a buffer of so many bytes, as `BUFFER TIMES`, and says what comes.
fn read_all<S: Source>(source: &mut S, said: &mut String, words: &mut Words<'_>) -> Result<()> {
    let size = words.number::<usize>()?;
    let mut page = [0; 64];
    let buffer = page.get_mut(..size).context("too large a buffer")?;
    for _ in 0..words.number::<u32>()? {
        say_read(source, said, buffer)?;
    }
    writeln!(said, "faults {}", source.faults())?;
    Ok(())
}

/// Writes once, as `write:BYTES` or `all:BYTES`, and says how that ended.
fn say_write<K: Sink>(sink: &mut K, said: &mut String, word: &str, bytes: &[u8]) -> Result<()> {
    let end = match word {
        "write" if !bytes.is_empty() => sink.write(bytes),
        "all" => put_all(sink, bytes).map(|()| bytes.len()),
        _ => bail!("no such write: {word}"),
    };
    match end {
        Ok(count) => write!(said, "{count}, ")?,
        Err(Failed) => said.push_str("failed, ")?,
    }
    Ok(())
}

fn write_all<K: Sink>(
    alloc: Global,
    sink: &mut K,
    said: &mut String,
    words: &mut Words<'_>,
) -> Result<()> {
    for word in words.rest().split(' ') {
        let (call, bytes) = word.split_once(':').context("no bytes")?;
        say_write(sink, said, call, &bytes_of(alloc, bytes)?)?;
    }
    writeln!(said, "faults {}", sink.faults())?;
    Ok(())
}

/// Reads from a source in memory, as `BYTES CALLS BUFFER TIMES`.
fn read_memory(alloc: Global, said: &mut String, words: &mut Words<'_>) -> Result<()> {
    let bytes = bytes_of(alloc, words.word()?)?;
    let failing = numbers(alloc, words.word()?)?;
    let mut source = MemSource::new(alloc, &bytes, &failing)?;
    read_all(&mut source, said, words)
}

/// Reads from a reader of std over bytes, as `BYTES BUFFER TIMES`.
fn read_slice(alloc: Global, said: &mut String, words: &mut Words<'_>) -> Result<()> {
    let bytes = bytes_of(alloc, words.word()?)?;
    let mut source = StdSource::new(bytes.as_slice());
    read_all(&mut source, said, words)
}

/// Reads from a reader of std whose first calls are interrupted, as `INTERRUPTED BUFFER TIMES`.
fn read_stutter(said: &mut String, words: &mut Words<'_>) -> Result<()> {
    let interrupted = words.number()?;
    let mut source = StdSource::new(Stutter { interrupted });
    read_all(&mut source, said, words)
}

/// A sink in memory, as `ROOM CALLS`.
fn new_sink(alloc: Global, words: &mut Words<'_>) -> Result<MemSink> {
    let room = words.number()?;
    let failing = numbers(alloc, words.word()?)?;
    Ok(MemSink::new(alloc, room, &failing)?)
}

/// Writes to a sink in memory, as `ROOM CALLS WRITE WRITE`.
fn write_memory(alloc: Global, said: &mut String, words: &mut Words<'_>) -> Result<()> {
    let mut sink = new_sink(alloc, words)?;
    write_all(alloc, &mut sink, said, words)?;
    push_bytes(said, sink.bytes())?;
    said.push('\n')?;
    Ok(())
}

/// Writes to a writer of std that is a list of bytes.
fn write_list(alloc: Global, said: &mut String, words: &mut Words<'_>) -> Result<()> {
    let mut sink = StdSink::new(Vec::new(alloc));
    write_all(alloc, &mut sink, said, words)
}

/// Writes to a writer of std whose first calls are interrupted, as `INTERRUPTED WRITE WRITE`.
fn write_stutter(alloc: Global, said: &mut String, words: &mut Words<'_>) -> Result<()> {
    let interrupted = words.number()?;
    let mut sink = StdSink::new(Stutter { interrupted });
    write_all(alloc, &mut sink, said, words)
}

/// Reads from a source or writes to a sink, and tells whether the word names one.
pub(crate) fn make(
    alloc: Global,
    said: &mut String,
    word: &str,
    words: &mut Words<'_>,
) -> Result<bool> {
    match word {
        "source" => read_memory(alloc, said, words)?,
        "reader" => read_slice(alloc, said, words)?,
        "interrupted_reader" => read_stutter(said, words)?,
        "sink" => write_memory(alloc, said, words)?,
        "writer" => write_list(alloc, said, words)?,
        "interrupted_writer" => write_stutter(alloc, said, words)?,
        _ => return Ok(false),
    }
    Ok(true)
}
