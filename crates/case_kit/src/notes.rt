//! What is noted where something differs from what a line of a case wants, and in which variant of its run.

use crate::compare::difference;
use crate::report::Report;
use anyhow::Result;
use disk_model::Pick;
use std::alloc::Global;
use std::fmt;

/// Which variant of a block's run is looked at.
#[derive(Clone, Copy)]
pub enum Variant {
    Plain,
    Room(usize),
    Piece(usize),
    Stop(u64, Pick),
    Fault(u64),
    FaultAndStop(u64, Pick),
}

impl fmt::Display for Variant {
    fn fmt<W: fmt::Write>(&self, f: &mut fmt::Formatter<W>) -> fmt::Result {
        match self {
            Variant::Plain => Ok(()),
            Variant::Room(room) => write!(f, ", room {room}"),
            Variant::Piece(piece) => write!(f, ", pieces of {piece}"),
            Variant::Stop(calls, pick) => write!(f, ", stop {calls} {pick:?}"),
            Variant::Fault(call) => write!(f, ", fault {call}"),
            Variant::FaultAndStop(call, pick) => write!(f, ", fault {call} {pick:?}"),
        }
    }
}

/// The line that something is wanted by, and the variant of the run.
#[derive(Clone, Copy)]
pub struct Place {
    pub line: usize,
    pub variant: Variant,
}

/// Notes that something differs at a place.
pub fn note(alloc: Global, report: &mut Report, place: Place, what: &str) -> Result<()> {
    let line = place.line;
    let variant = place.variant;
    report.differ(format!(in alloc; "line {line}{variant}: {what}")?.as_str())?;
    Ok(())
}

/// Notes where bytes differ.
pub fn expect_bytes(
    alloc: Global,
    report: &mut Report,
    place: Place,
    wanted: &[u8],
    given: &[u8],
) -> Result<()> {
    match difference(alloc, wanted, given)? {
        Some(what) => note(alloc, report, place, what.as_str()),
        None => Ok(()),
    }
}

/// Notes where a number differs.
pub fn expect_number(
    alloc: Global,
    report: &mut Report,
    place: Place,
    name: &str,
    wanted: u64,
    given: u64,
) -> Result<()> {
    if wanted == given {
        return Ok(());
    }
    let what = format!(in alloc; "{name}: wanted {wanted}, came {given}")?;
    note(alloc, report, place, what.as_str())
}
