ghost use Rattle.std.specs.Prelude.{◌≡◌, ◌≢◌, ◌<◌, IfOk, IfErr, OnOk};
ghost use Rattle.std.specs.IoError.{error_kind};
ghost use Rattle.std.specs.declared.io.ErrorKind.TheVariants.{Interrupted};

use crate::{Sink, Source};
use qsr_value::Failed;
use std::io;
use std::io::{ErrorKind, Read, Write};

/// How often a call that a signal interrupted is made again, before it counts as failed.
const MAX_RETRIES: u32 = 1 << 20;

/// What becomes of one call of a stream.
enum Outcome {
    /// It moved so many bytes.
    Done(usize),
    /// A signal interrupted it, so it is made again.
    Again,
    Failed,
}

fn outcome_of_error(error: io::Error) -> Outcome
    ensures again { error_kind error ≡ Interrupted → result ≡ Outcome.Again }
    ensures failed { error_kind error ≢ Interrupted → result ≡ Outcome.Failed }
{
    if error.kind() == ErrorKind::Interrupted {
        Outcome::Again
    } else {
        Outcome::Failed
    }
}

fn outcome_of_read(answer: io::Result<usize>) -> Outcome
    ensures done { IfOk answer (λ count. result ≡ Outcome.Done count) }
    ensures again { IfErr answer (λ error. error_kind error ≡ Interrupted → result ≡ Outcome.Again) }
    ensures failed { IfErr answer (λ error. error_kind error ≢ Interrupted → result ≡ Outcome.Failed) }
{
    match answer {
        Ok(count) => Outcome::Done(count),
        Err(error) => outcome_of_error(error),
    }
}

/// A write that takes nothing has failed, since it would come to no end.
fn outcome_of_write(answer: io::Result<usize>) -> Outcome
    ensures done { IfOk answer (λ count. 0 < count → result ≡ Outcome.Done count) }
    ensures nothing { IfOk answer (λ count. count ≡ 0 → result ≡ Outcome.Failed) }
    ensures again { IfErr answer (λ error. error_kind error ≡ Interrupted → result ≡ Outcome.Again) }
    ensures failed { IfErr answer (λ error. error_kind error ≢ Interrupted → result ≡ Outcome.Failed) }
{
    match answer {
        Ok(0) => Outcome::Failed,
        Ok(count) => Outcome::Done(count),
        Err(error) => outcome_of_error(error),
    }
}

/// A source over a reader of std, as standard input. It tells what is left where the reader does.
#[derive(Drop)]
pub struct StdSource<R: Read + Drop> {
    input: R,
    faults: u64,
}

impl<R: Read + Drop> StdSource<R> {
    pub fn new(input: R) -> StdSource<R>
        ensures left { ⟦<StdSource<R> as Source>⟧.left result ≡ R.remaining input }
        ensures faults { ⟦<StdSource<R> as Source>⟧.faults_of result ≡ 0 }
    {
        StdSource { input, faults: 0 }
    }
}

impl<R: Read + Drop> Source for StdSource<R> {
    ghost left = { λ s. R.remaining s.input };

    ghost faults_of = { λ s. s.faults };

    fn faults(&self) -> u64 {
        self.faults
    }

    fn read(&mut self, out: &mut [u8]) -> Result<usize, Failed> {
        for _ in 0..MAX_RETRIES {
            match outcome_of_read(self.input.read(out)) {
                Outcome::Done(count) => return Ok(count),
                Outcome::Again => {}
                Outcome::Failed => break,
            }
        }
        self.faults = self.faults.saturating_add(1);
        Err(Failed)
    }
}

/// A sink over a writer of std, as standard output. It tells what was given where the writer does.
#[derive(Drop)]
pub struct StdSink<W: Write + Drop> {
    output: W,
    faults: u64,
}

impl<W: Write + Drop> StdSink<W> {
    pub fn new(output: W) -> StdSink<W>
        ensures given { ⟦<StdSink<W> as Sink>⟧.given result ≡ W.contents output }
        ensures faults { ⟦<StdSink<W> as Sink>⟧.faults_of result ≡ 0 }
    {
        StdSink { output, faults: 0 }
    }
}

impl<W: Write + Drop> Sink for StdSink<W> {
    ghost given = { λ s. W.contents s.output };

    ghost faults_of = { λ s. s.faults };

    fn faults(&self) -> u64 {
        self.faults
    }

    fn write(&mut self, bytes: &[u8]) -> Result<usize, Failed> {
        for _ in 0..MAX_RETRIES {
            match outcome_of_write(self.output.write(bytes)) {
                Outcome::Done(count) => return Ok(count),
                Outcome::Again => {}
                Outcome::Failed => break,
            }
        }
        self.faults = self.faults.saturating_add(1);
        Err(Failed)
    }
}
