//! Where a program's bytes come from and go to: the traits of a source and a sink, which count their faults, with
//! one of each in memory and one of each over std's streams.
#![tactic(auto)]

mod memory;
mod sink;
mod source;
mod std_streams;

pub use memory::{MemSink, MemSource};
pub use qsr_value::Failed;
pub use sink::{Sink, put_all};
pub use source::Source;
pub use std_streams::{StdSink, StdSource};
