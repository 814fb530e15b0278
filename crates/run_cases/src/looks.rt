//! What is looked at after a run: what it said, the calls of its disk, what reads give and what a crash leaves.

use crate::asks;
use crate::block::{Block, Line};
use crate::device::Device;
use crate::run::Outcome;
use anyhow::{Context, Result, bail, ensure};
use case_kit::{
    ALL_CALLS, BytesAt, FILLS, Place, Report, Variant, expect_bytes, expect_number, read_bytes_at,
};
use disk_model::{Disk, Pick};
use std::alloc::Global;

/// A word that stands for any number.
const ANY: &str = "-";

fn plain(line: usize) -> Place {
    Place {
        line,
        variant: Variant::Plain,
    }
}

/// Notes where a count differs from what a word wants.
fn expect_count(
    alloc: Global,
    report: &mut Report,
    line: usize,
    name: &str,
    word: &str,
    given: u64,
) -> Result<()> {
    if word == ANY {
        return Ok(());
    }
    expect_number(
        alloc,
        report,
        plain(line),
        name,
        word.parse::<u64>()?,
        given,
    )
}

/// Reads `READS WRITES FAULTS`, or with the number of all calls behind them.
fn expect_calls(
    alloc: Global,
    report: &mut Report,
    line: usize,
    text: &str,
    device: &Device,
) -> Result<()> {
    ensure!(
        matches!(text.split(' ').count(), 3 | 4),
        "three or four counts"
    );
    let counts = [
        ("reads", device.reads()),
        ("writes", device.writes()),
        ("faults", device.faults()),
        ("calls", device.calls()),
    ];
    for (word, (name, given)) in text.split(' ').zip(counts) {
        expect_count(alloc, report, line, name, word, given)?;
    }
    Ok(())
}

/// Reads `source N` or `sink N`.
fn expect_faults(
    alloc: Global,
    report: &mut Report,
    line: usize,
    text: &str,
    outcome: &Outcome,
) -> Result<()> {
    match text.split_once(' ').context("no number")? {
        ("source", word) => {
            expect_count(alloc, report, line, "faults", word, outcome.source_faults)
        }
        ("sink", word) => expect_count(alloc, report, line, "faults", word, outcome.sink_faults),
        (other, _) => bail!("no such object: {other}"),
    }
}

/// Notes where reads give other bytes.
fn expect_bytes_at(
    alloc: Global,
    report: &mut Report,
    place: Place,
    wanted: &BytesAt,
    device: &mut Device,
) -> Result<()> {
    let given = device.bytes(alloc, wanted.at, wanted.bytes.len())?;
    expect_bytes(alloc, report, place, &wanted.bytes, &given)
}

fn expect_fill(
    alloc: Global,
    report: &mut Report,
    line: usize,
    wanted: &BytesAt,
    calls: u64,
    pick: Pick,
    device: &Device,
) -> Result<()> {
    let mut left = device.left(alloc, calls, pick)?;
    let variant = Variant::Stop(calls, pick);
    expect_bytes_at(alloc, report, Place { line, variant }, wanted, &mut left)
}

/// Notes where a crash after so many calls leaves other bytes.
fn expect_left(
    alloc: Global,
    report: &mut Report,
    line: usize,
    text: &str,
    calls: u64,
    device: &Device,
) -> Result<()> {
    let wanted = read_bytes_at(alloc, text)?;
    for pick in FILLS {
        expect_fill(alloc, report, line, &wanted, calls, pick, device)?;
    }
    Ok(())
}

/// Notes where reads give other bytes after the run.
fn expect_read(
    alloc: Global,
    report: &mut Report,
    line: usize,
    text: &str,
    device: &mut Device,
) -> Result<()> {
    let wanted = read_bytes_at(alloc, text)?;
    expect_bytes_at(alloc, report, plain(line), &wanted, device)
}

/// Reads `CALLS AT HEX`.
fn expect_stop(
    alloc: Global,
    report: &mut Report,
    line: usize,
    text: &str,
    device: &Device,
) -> Result<()> {
    let (calls, rest) = text.split_once(' ').context("no place")?;
    expect_left(alloc, report, line, rest, calls.parse::<u64>()?, device)
}

/// Looks at what a line says.
fn look(
    alloc: Global,
    report: &mut Report,
    line: &Line,
    outcome: &Outcome,
    device: &mut Device,
) -> Result<()> {
    let number = line.number;
    match line.text.as_str().split_once(' ').context("no number")? {
        ("calls", rest) => expect_calls(alloc, report, number, rest, device),
        ("faults", rest) => expect_faults(alloc, report, number, rest, outcome),
        ("left", rest) => expect_left(alloc, report, number, rest, ALL_CALLS, device),
        ("stop", rest) => expect_stop(alloc, report, number, rest, device),
        ("size", rest) => expect_count(alloc, report, number, "size", rest, device.size()),
        ("bytes", rest) => expect_read(alloc, report, number, rest, device),
        (word, _) => bail!("no such line: {word}"),
    }
}

/// Notes where a run says something else, or ends by another status.
pub(crate) fn expect_said(
    alloc: Global,
    report: &mut Report,
    place: Place,
    output: &[u8],
    status: u8,
    outcome: &Outcome,
) -> Result<()> {
    expect_bytes(alloc, report, place, output, &outcome.output)?;
    let given = u64::from(outcome.status);
    expect_number(alloc, report, place, "status", u64::from(status), given)
}

/// Notes where what a run leaves is asked and answered otherwise than as after it.
pub(crate) fn expect_asks(
    alloc: Global,
    report: &mut Report,
    variant: Variant,
    block: &Block,
    device: &Device,
) -> Result<()> {
    if block.asks.is_empty() {
        return Ok(());
    }
    let mut left = device.left(alloc, ALL_CALLS, Pick::New)?;
    asks::expect_after(alloc, report, variant, &block.asks, &mut left)
}

/// Looks at all that a block says of its run.
pub(crate) fn look_at(
    alloc: Global,
    report: &mut Report,
    block: &Block,
    outcome: &Outcome,
    device: &mut Device,
) -> Result<()> {
    let place = plain(block.line);
    expect_said(alloc, report, place, &block.output, block.status, outcome)?;
    for line in &block.looks {
        look(alloc, report, line, outcome, device)?;
    }
    expect_asks(alloc, report, Variant::Plain, block, device)
}
