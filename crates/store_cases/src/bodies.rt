//! The bodies of twins: committed, read, and told by the number that all their bytes come from.

ghost use Rattle.std.specs.Prelude.{◌≡◌, ◌≤◌, length, IsTrue};
ghost use Rattle.page_store.specs.Store.{IsTwin, body_most};

use anyhow::{Context, Result, ensure};
use case_kit::{Words, bytes_of, number, push_bytes};
use disk_kit::{Ended, say_end, twin_of};
use disk_model::MemDisk;
use page_store::{Store, Twin};
use std::alloc::{AllocError, Global};
use std::fmt::Write;

/// A buffer for the body of a twin.
const BUFFER: usize = 8192;

/// The byte at a place of a body of a seed: 0 makes them all zeros, and no two other seeds have a byte in common at one place.
fn byte_at(seed: u8, place: usize) -> u8 {
    if seed == 0 {
        0
    } else {
        (place % 251) as u8 ^ seed
    }
}

/// A body of so many bytes of a seed.
fn seeded(alloc: Global, seed: u8, len: usize) -> Result<Vec<u8>, AllocError> {
    let mut bytes = vec![in alloc; 0; len]?;
    for (place, byte) in bytes.iter_mut().enumerate() {
        *byte = byte_at(seed, place);
    }
    Ok(bytes)
}

/// A body, as `SEED:LENGTH`, or its bytes.
fn body_of(alloc: Global, word: &str) -> Result<Vec<u8>> {
    let Some((seed, len)) = word.split_once(':') else {
        return bytes_of(alloc, word);
    };
    let len = number::<u16>(len)?;
    Ok(seeded(alloc, u8::from_str_radix(seed, 16)?, len as usize)?)
}

/// Says a body: its seed and its length, and in front of its end what bytes don't come from the seed.
fn push_body(said: &mut String, bytes: &[u8]) -> Result<(), AllocError> {
    let seed = bytes.first().copied().unwrap_or(0);
    let mut places = bytes.iter().enumerate();
    let first = places.position(|(place, byte)| *byte != byte_at(seed, place));
    let (body, rest) = bytes.split_at(first.unwrap_or(bytes.len()));
    write!(said, "{seed:02x}:{}", body.len())?;
    if !rest.is_empty() {
        said.push('+')?;
        push_bytes(said, rest)?;
    }
    Ok(())
}

/// How many bytes a body of a twin has at most.
fn most_of(twin: Twin) -> usize
    ensures { result ≡ body_most twin }
{
    match twin {
        Twin::Catalogue => 8184,
        Twin::Job(_) => 4088,
    }
}

/// Commits a body to a twin, and says how that ended.
fn commit_to(
    store: &mut Store<'_, MemDisk>,
    said: &mut String,
    twin: Twin,
    body: &[u8],
) -> Result<Ended>
    requires { IsTwin twin }
{
    ensure!(body.len() <= most_of(twin), "too long a body");
    let end = store.commit(twin, body);
    Ok(say_end(said, end)?)
}

/// Commits a body to a twin, as `TWIN BODY`.
fn commit(
    alloc: Global,
    store: &mut Store<'_, MemDisk>,
    said: &mut String,
    words: &mut Words<'_>,
) -> Result<Ended> {
    let twin = twin_of(words.word()?)?;
    let body = body_of(alloc, words.word()?)?;
    commit_to(store, said, twin, &body)
}

/// Says the body of a twin.
fn say_body(store: &mut Store<'_, MemDisk>, said: &mut String, twin: Twin) -> Result<Ended>
    requires { IsTwin twin }
{
    let mut buffer = [0x5A; BUFFER];
    match store.current(twin, &mut buffer) {
        Ok(len) => push_body(said, buffer.get(..len).context("too long a body")?)?,
        Err(fault) => {
            write!(said, "{fault:?}")?;
            return Ok(Ended::Badly);
        }
    }
    Ok(Ended::Well)
}

/// Says the body of a twin in a line.
fn body(store: &mut Store<'_, MemDisk>, said: &mut String, words: &mut Words<'_>) -> Result<Ended> {
    let ended = say_body(store, said, twin_of(words.word()?)?)?;
    said.push('\n')?;
    Ok(ended)
}

/// Says the bodies of the catalogue and of the jobs in order.
fn bodies(store: &mut Store<'_, MemDisk>, said: &mut String) -> Result<Ended> {
    say_body(store, said, Twin::Catalogue)?;
    for job in 0..8 {
        said.push(' ')?;
        say_body(store, said, Twin::Job(job))?;
    }
    said.push('\n')?;
    Ok(Ended::Well)
}

/// Does a step on bodies, if the word names one.
pub(crate) fn serve(
    alloc: Global,
    store: &mut Store<'_, MemDisk>,
    said: &mut String,
    word: &str,
    words: &mut Words<'_>,
) -> Result<Option<Ended>> {
    let ended = match word {
        "commit" => commit(alloc, store, said, words)?,
        "body" => body(store, said, words)?,
        "bodies" => bodies(store, said)?,
        _ => return Ok(None),
    };
    Ok(Some(ended))
}
