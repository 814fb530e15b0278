//! What a crash leaves of the disk, by each of the five fills.

use crate::disks::{Disks, OnStores, do_plain_steps};
use crate::loops::one_line;
use anyhow::{Context, Result};
use case_kit::{ALL_CALLS, FILLS, number};
use disk_model::{MemDisk, Pick};
use std::alloc::{AllocError, Global};
use std::fmt::Write;
use std::mem;

/// After how many calls a crash comes: a number of them, or `all`.
fn calls(word: &str) -> Result<u64> {
    match word {
        "all" => Ok(ALL_CALLS),
        _ => number(word),
    }
}

/// What a crash leaves of the disk.
fn image(alloc: Global, disks: &Disks, calls: u64, fill: Pick) -> Result<MemDisk> {
    let disk = disks.current.as_ref().context("no disk")?;
    Ok(disk.image(alloc, calls, fill)?)
}

/// Does steps on what a crash leaves by a fill, and gives what they say.
fn answer<S: OnStores>(
    alloc: Global,
    disks: &mut Disks,
    calls: u64,
    fill: Pick,
    steps: &str,
) -> Result<String> {
    let image = image(alloc, disks, calls, fill)?;
    let disk = mem::replace(&mut disks.current, Some(image));
    let mut said = String::new(alloc);
    do_plain_steps::<S>(alloc, disks, &mut said, steps)?;
    disks.current = disk;
    Ok(one_line(alloc, said.as_str())?)
}

fn push_fill(said: &mut String, fill: Pick) -> Result<(), AllocError> {
    match fill {
        Pick::Old => said.push_str(" old"),
        Pick::New => said.push_str(" new"),
        Pick::Fill(byte) => write!(said, " {byte:02x}"),
    }
}

/// Says an answer, and which fills lead to it.
fn say_one(said: &mut String, answers: &[String], answer: &str) -> Result<(), AllocError> {
    if !said.is_empty() && !said.as_str().ends_with('\n') {
        said.push_str(" | ")?;
    }
    said.push_str("by")?;
    for (other, fill) in answers.iter().zip(&FILLS) {
        if other.as_str() == answer {
            push_fill(said, *fill)?;
        }
    }
    write!(said, ": {answer}")
}

/// Whether an answer stands among those before it.
fn came_before(answers: &[String], place: usize) -> bool {
    let Some(answer) = answers.get(place) else {
        return true;
    };
    answers.iter().take(place).any(|other| other == answer)
}

/// Says each of the answers once.
fn say_all(said: &mut String, answers: &[String]) -> Result<(), AllocError> {
    for (place, answer) in answers.iter().enumerate() {
        if !came_before(answers, place) {
            say_one(said, answers, answer.as_str())?;
        }
    }
    said.push('\n')
}

/// Says the answers: where all are the same it is said once.
fn say(said: &mut String, answers: &[String]) -> Result<(), AllocError> {
    match answers.first() {
        Some(first) if answers.iter().all(|other| other == first) => {
            writeln!(said, "{}", first.as_str())
        }
        _ => say_all(said, answers),
    }
}

/// Does the steps of `CALLS; STEPS` on what a crash after so many calls leaves, by each fill.
pub(crate) fn crash<S: OnStores>(
    alloc: Global,
    disks: &mut Disks,
    said: &mut String,
    text: &str,
) -> Result<()> {
    let (word, steps) = text.split_once("; ").context("a crash without steps")?;
    let calls = calls(word)?;
    let mut answers = Vec::new(alloc);
    for fill in FILLS {
        answers.push(answer::<S>(alloc, disks, calls, fill, steps)?)?;
    }
    say(said, &answers)?;
    Ok(())
}
