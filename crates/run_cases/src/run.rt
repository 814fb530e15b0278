//! One run of the program's top call.

use crate::device::Device;
use crate::source::PieceSource;
use qsr_io::{MemSink, Sink, Source, StdSink, StdSource};
use qsr_top::qsr_run;
use qsr_value::Memory;
use std::alloc::Global;

/// What a run is given beside its disk.
#[derive(Clone, Copy)]
pub(crate) struct Given<'a> {
    pub(crate) words: &'a [String],
    pub(crate) input: &'a [u8],
    /// How many bytes the source gives a call at most.
    pub(crate) piece: usize,
    /// How many bytes the sink takes.
    pub(crate) room: usize,
    pub(crate) source_fails: &'a [u64],
    pub(crate) sink_fails: &'a [u64],
    /// Whether the source and the sink are those over std's streams, which know none of these limits.
    pub(crate) is_streamed: bool,
}

/// What came of a run beside its disk.
#[derive(Drop)]
pub(crate) struct Outcome {
    pub(crate) status: u8,
    pub(crate) output: Vec<u8>,
    pub(crate) source_faults: u64,
    pub(crate) sink_faults: u64,
}

fn run_into(
    alloc: Global,
    given: &Given,
    device: &mut Device,
    sink: &mut MemSink,
) -> Result<Outcome, Memory> {
    let mut source = PieceSource::new(given.input, given.piece, given.source_fails);
    let status = qsr_run(alloc, given.words, device, &mut source, sink);
    Ok(Outcome {
        status,
        output: Vec::from_slice(alloc, sink.bytes())?,
        source_faults: source.faults(),
        sink_faults: sink.faults(),
    })
}

/// Runs over std's streams, and answers the status and how many faults the source and the sink have.
fn run_streams(
    alloc: Global,
    given: &Given,
    device: &mut Device,
    output: &mut Vec<u8>,
) -> (u8, u64, u64) {
    let mut source = StdSource::new(given.input);
    let mut sink = StdSink::new(output);
    let status = qsr_run(alloc, given.words, device, &mut source, &mut sink);
    (status, source.faults(), sink.faults())
}

fn run_streamed(alloc: Global, given: &Given, device: &mut Device) -> Outcome {
    let mut output = Vec::new(alloc);
    let (status, source_faults, sink_faults) = run_streams(alloc, given, device, &mut output);
    Outcome {
        status,
        output,
        source_faults,
        sink_faults,
    }
}

/// Runs the program over a disk.
pub(crate) fn run(alloc: Global, given: &Given, device: &mut Device) -> Result<Outcome, Memory> {
    if given.is_streamed {
        return Ok(run_streamed(alloc, given, device));
    }
    let mut sink = MemSink::new(alloc, given.room, given.sink_fails)?;
    run_into(alloc, given, device, &mut sink)
}
