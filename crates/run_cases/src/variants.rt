//! A block's run, and its variants: sinks that are full, sources that give little, crashes after each call of the disk, and calls of
//! the disk that fail.

use crate::asks::asked;
use crate::block::{Block, Line};
use crate::device::Device;
use crate::looks::{expect_asks, expect_said, look_at};
use crate::run::{Given, run};
use anyhow::{Context, Result, bail, ensure};
use case_kit::{ALL_CALLS, FILLS, Place, Report, Variant, expect_number, note};
use disk_model::{Disk, Pick};
use std::alloc::Global;

/// What is said, and the status, where a call of the disk fails.
const DISK_FAULT: &[u8] = b"disk fault\n";

const DISK_STATUS: u8 = 3;

/// The status where the sink fails.
const SINK_STATUS: u8 = 5;

/// A run that is tried in variants.
#[derive(Clone, Copy)]
struct Trial<'a> {
    block: &'a Block,
    /// The disk before the run.
    start: &'a Device,
    /// The disk after it.
    end: &'a Device,
    /// The line that asks for the variants.
    line: usize,
}

/// What may stand on a disk after a crash.
#[derive(Clone, Copy)]
struct May {
    before: bool,
    after: bool,
}

impl Trial<'_> {
    /// A disk as it was before the run, whose calls with these numbers fail.
    fn again(&self, alloc: Global, failing: &[u64]) -> Result<Device> {
        let mut device = self.start.left(alloc, ALL_CALLS, Pick::New)?;
        device.begin(alloc, failing)?;
        Ok(device)
    }

    fn place(&self, variant: Variant) -> Place {
        Place {
            line: self.line,
            variant,
        }
    }
}

/// Runs over a disk, and looks at what is said.
fn expect_run(
    alloc: Global,
    report: &mut Report,
    place: Place,
    given: &Given,
    output: &[u8],
    status: u8,
    device: &mut Device,
) -> Result<()> {
    let outcome = run(alloc, given, device)?;
    expect_said(alloc, report, place, output, status, &outcome)
}

/// A sink of this room: the output is its front, or all of it where there is room for it.
fn try_room(alloc: Global, report: &mut Report, trial: Trial, room: usize) -> Result<()> {
    let block = trial.block;
    let variant = Variant::Room(room);
    let place = trial.place(variant);
    let given = Given {
        room,
        ..block.given()
    };
    let output = block.output.as_slice();
    let (front, status) = match output.get(..room) {
        Some(front) if room < output.len() => (front, SINK_STATUS),
        _ => (output, block.status),
    };
    let mut device = trial.again(alloc, &block.fails.disk)?;
    expect_run(alloc, report, place, &given, front, status, &mut device)?;
    expect_asks(alloc, report, variant, block, &device)
}

fn try_rooms(alloc: Global, report: &mut Report, trial: Trial) -> Result<()> {
    for room in 0..=trial.block.output.len() {
        try_room(alloc, report, trial, room)?;
    }
    Ok(())
}

/// A source of pieces of this length.
fn try_piece(alloc: Global, report: &mut Report, trial: Trial, piece: usize) -> Result<()> {
    let block = trial.block;
    let place = trial.place(Variant::Piece(piece));
    let given = Given {
        piece,
        ..block.given()
    };
    let mut device = trial.again(alloc, &block.fails.disk)?;
    expect_run(
        alloc,
        report,
        place,
        &given,
        &block.output,
        block.status,
        &mut device,
    )
}

fn try_pieces(alloc: Global, report: &mut Report, trial: Trial, most: usize) -> Result<()> {
    for piece in 1..=most {
        try_piece(alloc, report, trial, piece)?;
    }
    Ok(())
}

/// Asks what a crash leaves.
fn expect_found(
    alloc: Global,
    report: &mut Report,
    place: Place,
    block: &Block,
    may: May,
    left: &mut Device,
) -> Result<()> {
    let found = asked(alloc, &block.asks, left)?;
    if (may.before && found.before) || (may.after && found.after) {
        return Ok(());
    }
    let what = match (may.before, may.after) {
        (true, true) => "the asks are answered neither as before nor as after",
        (true, false) => "the asks aren't answered as before",
        _ => "the asks aren't answered as after",
    };
    note(alloc, report, place, what)
}

/// What may stand there after a stop: before the last call the old bytes may not have what the run did, since that call is the one by
/// which it is done.
fn may_stand(calls: u64, all: u64, pick: Pick) -> May {
    let is_undone = pick == Pick::Old && calls.saturating_add(1) == all;
    May {
        before: calls < all,
        after: 0 < calls && !is_undone,
    }
}

/// A stop after so many calls.
fn try_stop(
    alloc: Global,
    report: &mut Report,
    trial: Trial,
    calls: u64,
    pick: Pick,
) -> Result<()> {
    let place = trial.place(Variant::Stop(calls, pick));
    let may = may_stand(calls, trial.end.calls(), pick);
    let mut left = trial.end.left(alloc, calls, pick)?;
    expect_found(alloc, report, place, trial.block, may, &mut left)
}

fn try_fills(alloc: Global, report: &mut Report, trial: Trial, calls: u64) -> Result<()> {
    for pick in FILLS {
        try_stop(alloc, report, trial, calls, pick)?;
    }
    Ok(())
}

fn try_stops(alloc: Global, report: &mut Report, trial: Trial) -> Result<()> {
    ensure!(!trial.block.asks.is_empty(), "nothing is asked");
    for calls in 0..=trial.end.calls() {
        try_fills(alloc, report, trial, calls)?;
    }
    Ok(())
}

/// A crash after a run in which this call failed.
fn try_fault_and_stop(
    alloc: Global,
    report: &mut Report,
    trial: Trial,
    call: u64,
    pick: Pick,
    device: &Device,
) -> Result<()> {
    let place = trial.place(Variant::FaultAndStop(call, pick));
    let may = May {
        before: true,
        after: true,
    };
    let mut left = device.left(alloc, ALL_CALLS, pick)?;
    expect_found(alloc, report, place, trial.block, may, &mut left)
}

/// The counts of a disk of which a call failed: it is the only one, and no more writes were made.
fn expect_one_fault(
    alloc: Global,
    report: &mut Report,
    trial: Trial,
    place: Place,
    device: &Device,
) -> Result<()> {
    expect_number(alloc, report, place, "faults", 1, device.faults())?;
    if device.writes() > trial.end.writes() {
        note(alloc, report, place, "more writes were made")?;
    }
    Ok(())
}

/// A run in which this call fails.
fn try_fault(alloc: Global, report: &mut Report, trial: Trial, call: u64) -> Result<()> {
    let place = trial.place(Variant::Fault(call));
    let given = trial.block.given();
    let mut device = trial.again(alloc, &[call])?;
    expect_run(
        alloc,
        report,
        place,
        &given,
        DISK_FAULT,
        DISK_STATUS,
        &mut device,
    )?;
    expect_one_fault(alloc, report, trial, place, &device)?;
    for pick in FILLS {
        try_fault_and_stop(alloc, report, trial, call, pick, &device)?;
    }
    Ok(())
}

fn try_faults(alloc: Global, report: &mut Report, trial: Trial) -> Result<()> {
    for call in 0..trial.end.calls() {
        try_fault(alloc, report, trial, call)?;
    }
    Ok(())
}

/// Tries the variants that a line asks for.
fn try_variants(alloc: Global, report: &mut Report, trial: Trial, text: &str) -> Result<()> {
    match text.split_once(' ').unwrap_or((text, "")) {
        ("room", "") => try_rooms(alloc, report, trial),
        ("piece", most) => try_pieces(alloc, report, trial, most.parse::<usize>()?),
        ("stop", "") => try_stops(alloc, report, trial),
        ("fault", "") => try_faults(alloc, report, trial),
        _ => bail!("no such variants: {text}"),
    }
}

fn try_line(
    alloc: Global,
    report: &mut Report,
    block: &Block,
    line: &Line,
    start: &Device,
    end: &Device,
) -> Result<()> {
    let number = line.number;
    let trial = Trial {
        block,
        start,
        end,
        line: number,
    };
    try_variants(alloc, report, trial, line.text.as_str()).context(format_args!(
        "the variants of line {number}"
    ))
}

/// Runs once, and looks at what came of it.
fn run_plain(alloc: Global, report: &mut Report, block: &Block, device: &mut Device) -> Result<()> {
    let outcome = run(alloc, &block.given(), device)?;
    look_at(alloc, report, block, &outcome, device)
}

/// Runs once, and then in variants.
fn run_variants(
    alloc: Global,
    report: &mut Report,
    block: &Block,
    device: &mut Device,
) -> Result<()> {
    let start = device.left(alloc, ALL_CALLS, Pick::New)?;
    run_plain(alloc, report, block, device)?;
    for line in &block.variants {
        try_line(alloc, report, block, line, &start, device)?;
    }
    Ok(())
}

/// Carries a block out.
pub(crate) fn carry_out(
    alloc: Global,
    report: &mut Report,
    block: &Block,
    device: &mut Device,
) -> Result<()> {
    device.begin(alloc, &block.fails.disk)?;
    if block.variants.is_empty() {
        return run_plain(alloc, report, block, device);
    }
    run_variants(alloc, report, block, device)
}
