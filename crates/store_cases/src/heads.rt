//! The heads of jobs as words: `free`, or `PHASE:SIDE:ROWS:END:IMAGE:SPILL`.

ghost use Rattle.std.specs.Prelude.{◌<◌, IsTrue};
ghost use Rattle.job_store.specs.JobHead.{IsHead};

use anyhow::{Context, Result, bail, ensure};
use case_kit::{Words, number};
use disk_kit::{Ended, job_of, say_end};
use disk_model::{Failed, MemDisk};
use job_store::{ImageSide, JobHead, Phase, commit_head, head_of};
use page_store::{Sizes, Store, StoreFault};
use std::alloc::AllocError;
use std::fmt::Write;

fn phase(word: &str) -> Result<Phase> {
    match word {
        "free" => Ok(Phase::Free),
        "open" => Ok(Phase::Open),
        "done" => Ok(Phase::Done),
        _ => bail!("no such phase: {word}"),
    }
}

fn side(word: &str) -> Result<ImageSide> {
    match word {
        "neither" => Ok(ImageSide::Neither),
        "first" => Ok(ImageSide::First),
        "second" => Ok(ImageSide::Second),
        _ => bail!("no such side: {word}"),
    }
}

/// The phase and the side in front of the numbers of a head.
fn choices(word: &str) -> Result<(Phase, ImageSide, &str)> {
    let (first, rest) = word.split_once(':').context("a head without its side")?;
    let (second, numbers) = rest.split_once(':').context("a head without its numbers")?;
    Ok((phase(first)?, side(second)?, numbers))
}

/// The four numbers of a head.
fn numbers(text: &str) -> Result<[u64; 4]> {
    let mut numbers = [0; 4];
    let mut words = text.split(':');
    for place in &mut numbers {
        *place = number(words.next().context("a number is missing")?)?;
    }
    Ok(numbers)
}

/// The head that a word means.
fn head_in(word: &str) -> Result<JobHead> {
    if word == "free" {
        return Ok(JobHead::FREE);
    }
    let (phase, side, text) = choices(word)?;
    let [rows, end, image, spill] = numbers(text)?;
    Ok(JobHead {
        phase,
        rows,
        end: u32::try_from(end)?,
        side,
        image_pages: u32::try_from(image)?,
        spill_used: u32::try_from(spill)?,
    })
}

fn phase_word(phase: Phase) -> &'static str {
    match phase {
        Phase::Free => "free",
        Phase::Open => "open",
        Phase::Done => "done",
    }
}

fn side_word(side: ImageSide) -> &'static str {
    match side {
        ImageSide::Neither => "neither",
        ImageSide::First => "first",
        ImageSide::Second => "second",
    }
}

fn push_head(said: &mut String, head: &JobHead) -> Result<(), AllocError> {
    if *head == JobHead::FREE {
        return said.push_str("free");
    }
    let (phase, side) = (phase_word(head.phase), side_word(head.side));
    let (rows, end) = (head.rows, head.end);
    let (image, spill) = (head.image_pages, head.spill_used);
    write!(said, "{phase}:{side}:{rows}:{end}:{image}:{spill}")
}

/// Whether what a head tells of is within the areas of a store.
pub(crate) fn is_within(head: &JobHead, sizes: &Sizes) -> bool
    ensures { IsTrue result → IsHead sizes.now head.now }
{
    head.end as u64 <= 4096 * sizes.out as u64
        && head.image_pages <= sizes.image
        && head.spill_used <= sizes.spill
}

/// Commits a head to a job.
fn commit(store: &mut Store<'_, MemDisk>, job: u8, head: &JobHead) -> Result<Result<(), Failed>>
    requires { job < 8 }
{
    let sizes = store.sizes();
    ensure!(is_within(head, &sizes), "no head of this store");
    Ok(commit_head(store, job, head))
}

/// Commits a head to a job, as `JOB HEAD`.
fn set(store: &mut Store<'_, MemDisk>, said: &mut String, words: &mut Words<'_>) -> Result<Ended> {
    let job = job_of(words.word()?)?;
    let head = head_in(words.word()?)?;
    let end = commit(store, job, &head)?;
    Ok(say_end(said, end)?)
}

/// Says the head of a job.
fn push_found(said: &mut String, found: &Result<JobHead, StoreFault>) -> Result<Ended, AllocError> {
    match found {
        Ok(head) => {
            push_head(said, head)?;
            Ok(Ended::Well)
        }
        Err(fault) => {
            write!(said, "{fault:?}")?;
            Ok(Ended::Badly)
        }
    }
}

/// Says the head of a job.
fn head(store: &mut Store<'_, MemDisk>, said: &mut String, words: &mut Words<'_>) -> Result<Ended> {
    let found = head_of(store, job_of(words.word()?)?);
    let ended = push_found(said, &found)?;
    said.push('\n')?;
    Ok(ended)
}

/// Says whether a job has a head, as `JOB HEAD`, and else which it has.
fn is(store: &mut Store<'_, MemDisk>, said: &mut String, words: &mut Words<'_>) -> Result<Ended> {
    let found = head_of(store, job_of(words.word()?)?);
    let wanted = head_in(words.word()?)?;
    if found == Ok(wanted) {
        said.push_str("it is\n")?;
        return Ok(Ended::Well);
    }
    push_found(said, &found)?;
    said.push('\n')?;
    Ok(Ended::Badly)
}

/// Says the heads of all jobs but one.
fn others(
    store: &mut Store<'_, MemDisk>,
    said: &mut String,
    words: &mut Words<'_>,
) -> Result<Ended> {
    let but = job_of(words.word()?)?;
    said.push_str("others")?;
    for job in 0..8 {
        if job != but {
            said.push(' ')?;
            push_found(said, &head_of(store, job))?;
        }
    }
    said.push('\n')?;
    Ok(Ended::Well)
}

/// Does a step on heads, if the word names one.
pub(crate) fn serve(
    store: &mut Store<'_, MemDisk>,
    said: &mut String,
    word: &str,
    words: &mut Words<'_>,
) -> Result<Option<Ended>> {
    let ended = match word {
        "head" => head(store, said, words)?,
        "set" => set(store, said, words)?,
        "is" => is(store, said, words)?,
        "others" => others(store, said, words)?,
        _ => return Ok(None),
    };
    Ok(Some(ended))
}
