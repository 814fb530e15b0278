ghost use Rattle.std.specs.Prelude.{◌≡◌, ℕ, ◌<◌, List, length, Option};
ghost use Rattle.std.specs.Io.{ReadsAtMost};
ghost use Rattle.std.specs.Io.KnownBytes.{ReadConsumes};
ghost use Rattle.qsr_value.specs.Causes.{CountsFault};

use qsr_value::Failed;

/// Where bytes come from.
pub trait Source {
    /// The bytes that are left, where the source tells them. What is told stays told.
    ghost left: { Self → Option (List ℕ) };

    ghost faults_of: { Self → ℕ };

    /// How many reads have failed so far, up to the last value of u64.
    fn faults(&self) -> u64
        ensures { result ≡ faults_of self.now };

    /// Moves the next bytes to the front of `out` and answers how many. 0 is the end of the input. A read that
    /// fails takes nothing. What stands in `out` behind the bytes that were moved is free, and where the read fails
    /// all of `out` is.
    fn read(&mut self, out: &mut [u8]) -> Result<usize, Failed>
        requires { 0 < length out.old }
        ensures bound { ReadsAtMost result out.new }
        ensures bytes { ReadConsumes (left self.old) (left self.new) result out.new }
        ensures cause { CountsFault result (faults_of self.old) (faults_of self.new) };
}
