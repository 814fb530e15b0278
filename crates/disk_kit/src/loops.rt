//! Steps that are done once, or in rounds, one for each choice of words from some lists.

use crate::disks::{Disks, OnStores, do_steps};
use anyhow::{Context, Result, ensure};
use case_kit::number;
use std::alloc::{AllocError, Global};
use std::fmt::Write;

/// A loop has so many rounds at most.
const MOST_ROUNDS: usize = 10_000;

/// The numbers from the first up to the last but one, as words.
fn numbers(alloc: Global, first: &str, end: &str) -> Result<Vec<String>> {
    let mut words = Vec::new(alloc);
    for number in number::<u32>(first)?..number::<u32>(end)? {
        words.push(format!(in alloc; "{number}")?)?;
    }
    Ok(words)
}

fn parts(alloc: Global, text: &str) -> Result<Vec<String>> {
    let mut words = Vec::new(alloc);
    for word in text.split(',') {
        words.push(String::from_str(alloc, word)?)?;
    }
    Ok(words)
}

/// A list, as `FIRST..END` or `WORD,WORD`.
fn list(alloc: Global, text: &str) -> Result<Vec<String>> {
    match text.split_once("..") {
        Some((first, end)) => numbers(alloc, first, end),
        None => parts(alloc, text),
    }
}

fn lists(alloc: Global, text: &str) -> Result<Vec<Vec<String>>> {
    let mut lists = Vec::new(alloc);
    for part in text.split(' ') {
        lists.push(list(alloc, part)?)?;
    }
    Ok(lists)
}

/// How many choices of a word from each list there are.
fn rounds(lists: &[Vec<String>]) -> Result<usize> {
    let mut rounds = 1usize;
    for list in lists {
        rounds = rounds.saturating_mul(list.len());
    }
    ensure!(rounds <= MOST_ROUNDS, "too many rounds: {rounds}");
    Ok(rounds)
}

/// The words of a round, of which the first list's change last.
fn choice(alloc: Global, lists: &[Vec<String>], rounds: usize, round: usize) -> Result<String> {
    let mut words = String::new(alloc);
    let mut stride = rounds;
    for list in lists {
        stride = stride.checked_div(list.len()).context("an empty list")?;
        let place = round
            .checked_div(stride)
            .and_then(|n| n.checked_rem(list.len()));
        let word = list.get(place.unwrap_or(0)).context("an empty list")?;
        if !words.is_empty() {
            words.push(' ')?;
        }
        words.push_str(word.as_str())?;
    }
    Ok(words)
}

/// Adds what stands behind a `{`, with a word of a round in the place of its number.
fn push_filled(text: &mut String, part: &str, words: &str) -> Result<()> {
    let (place, rest) = part.split_once('}').context("a `{` without its `}`")?;
    let place = number::<usize>(place)?;
    let word = words.split(' ').nth(place.saturating_sub(1));
    text.push_str(word.context(format_args!("no list {place}"))?)?;
    text.push_str(rest)?;
    Ok(())
}

/// Steps with the words of a round in the places of `{1}`, `{2}` and so on.
fn filled(alloc: Global, steps: &str, words: &str) -> Result<String> {
    let mut parts = steps.split('{');
    let mut text = String::from_str(alloc, parts.next().unwrap_or(""))?;
    for part in parts {
        push_filled(&mut text, part, words)?;
    }
    Ok(text)
}

/// What was said, in one line.
pub(crate) fn one_line(alloc: Global, said: &str) -> Result<String, AllocError> {
    let lines = said.strip_suffix('\n').unwrap_or(said);
    lines.replace(alloc, "\n", "; ")
}

/// Rounds one after another in which the same was said.
#[derive(Drop)]
struct Run {
    first: String,
    last: String,
    answer: String,
}

impl Run {
    fn none(alloc: Global) -> Run {
        Run {
            first: String::new(alloc),
            last: String::new(alloc),
            answer: String::new(alloc),
        }
    }

    /// Says what was said in these rounds, if there are any.
    fn end(&self, said: &mut String) -> Result<(), AllocError> {
        let (first, last) = (self.first.as_str(), self.last.as_str());
        let answer = self.answer.as_str();
        if first.is_empty() {
            Ok(())
        } else if last.is_empty() {
            writeln!(said, "{first}: {answer}")
        } else {
            writeln!(said, "{first} to {last}: {answer}")
        }
    }

    /// Adds a round, and says what was said in those before it where that was something else.
    fn add(&mut self, said: &mut String, words: String, answer: String) -> Result<(), AllocError> {
        if !self.first.is_empty() && self.answer.as_str() == answer.as_str() {
            self.last = words;
            return Ok(());
        }
        self.end(said)?;
        self.first = words;
        self.last.clear();
        self.answer = answer;
        Ok(())
    }
}

/// What is said in a round of these words.
fn answer<S: OnStores>(
    alloc: Global,
    disks: &mut Disks,
    steps: &str,
    words: &str,
) -> Result<String> {
    let text = filled(alloc, steps, words)?;
    let mut said = String::new(alloc);
    do_steps::<S>(alloc, disks, &mut said, text.as_str())?;
    Ok(one_line(alloc, said.as_str())?)
}

/// Does steps in rounds, as `LIST LIST ..; STEPS`: one for each choice of a word from each list. Equal answers one after the other are
/// told in one line.
pub fn each<S: OnStores>(
    alloc: Global,
    disks: &mut Disks,
    said: &mut String,
    text: &str,
) -> Result<()> {
    let (front, steps) = text.split_once("; ").context("a loop without steps")?;
    let lists = lists(alloc, front)?;
    let rounds = rounds(&lists)?;
    let mut run = Run::none(alloc);
    for round in 0..rounds {
        let words = choice(alloc, &lists, rounds, round)?;
        let answer = answer::<S>(alloc, disks, steps, words.as_str())?;
        run.add(said, words, answer)?;
    }
    run.end(said)?;
    Ok(())
}
