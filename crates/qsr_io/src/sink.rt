ghost use Rattle.std.specs.Prelude.{◌≡◌, ℕ, ◌<◌, ◌≤◌, List, length, Option, IfOk, OnOk, OnErr};
ghost use Rattle.std.specs.Io.KnownBytes.{Appends, WriteAppends};
ghost use Rattle.qsr_value.specs.Causes.{CountsFault};
ghost use Rattle.qsr_io.specs.Given.{GivesFront};

use qsr_value::Failed;

/// Where bytes go to.
pub trait Sink {
    /// The bytes that were given, where the sink tells them. What is told stays told.
    ghost given: { Self → Option (List ℕ) };

    ghost faults_of: { Self → ℕ };

    /// How many writes have failed so far, up to the last value of u64.
    fn faults(&self) -> u64
        ensures { result ≡ faults_of self.now };

    /// Takes one or more of the first bytes and answers how many. A write that fails takes none.
    fn write(&mut self, bytes: &[u8]) -> Result<usize, Failed>
        requires { 0 < length bytes.now }
        ensures some { IfOk result (λ taken. 0 < taken) }
        ensures bound { IfOk result (λ taken. taken ≤ length bytes.now) }
        ensures bytes { WriteAppends (given self.old) (given self.new) result bytes.now }
        ensures cause { CountsFault result (faults_of self.old) (faults_of self.new) };
}

/// Writes all of the bytes. One that fails has given the first of them, and not all.
pub fn put_all<K: Sink>(sink: &mut K, bytes: &[u8]) -> Result<(), Failed>
    ensures ok { OnOk result (Appends (K.given sink.old) (K.given sink.new) bytes.now) }
    ensures failed { OnErr result (GivesFront (K.given sink.old) (K.given sink.new) bytes.now) }
    ensures cause { CountsFault result (K.faults_of sink.old) (K.faults_of sink.new) }
{
    let mut at = 0;
    while at < bytes.len() {
        at += sink.write(&bytes[at..])?;
    }
    Ok(())
}
