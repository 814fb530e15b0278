ghost use Rattle.std.specs.Prelude.{◌≡◌, ℕ, ◌+◌, ◌<◌, ◌≤◌, length, OnOk};
ghost use Rattle.disk_model.specs.Image.{Image, Holds, SameOutside};
ghost use Rattle.disk_model.specs.View.{View, Stays, Steps, IsSynced};
ghost use Rattle.qsr_value.specs.Causes.{CountsFault, next_count};

use qsr_value::Failed;

/// A disk: a number of bytes, and counts of what was asked of it, each up to the last value of u64.
pub trait Disk {
    ghost size_of: { Self → ℕ };

    ghost faults_of: { Self → ℕ };

    ghost reads_of: { Self → ℕ };

    ghost writes_of: { Self → ℕ };

    /// How many syncs have been made so far, with those that failed.
    ghost syncs_of: { Self → ℕ };

    /// What reads give, and what a crash may leave, now and since an earlier moment.
    ghost view: { Self → View Image };

    /// How many bytes it has.
    fn size(&self) -> u64
        ensures { result ≡ size_of self.now };

    /// How many calls have failed so far.
    fn faults(&self) -> u64
        ensures { result ≡ faults_of self.now };

    /// How many reads have been made so far, with those that failed.
    fn reads(&self) -> u64
        ensures { result ≡ reads_of self.now };

    /// How many writes have been made so far, with those that failed.
    fn writes(&self) -> u64
        ensures { result ≡ writes_of self.now };

    /// Fills `out` with the bytes that stand at `at`. What a read that fails leaves in `out` is free.
    fn read(&mut self, at: u64, out: &mut [u8]) -> Result<(), Failed>
        requires some { 0 < length out.old }
        requires page { length out.old ≤ 4096 }
        requires within { at + length out.old ≤ size_of self.old }

        ensures bytes { OnOk result ((view self.old).honest → Holds (view self.old).seen at out.new) }
        ensures stays { Stays (view self.old) (view self.new) }

        ensures size { size_of self.new ≡ size_of self.old }
        ensures faults { CountsFault result (faults_of self.old) (faults_of self.new) }
        ensures reads { reads_of self.new ≡ next_count (reads_of self.old) }
        ensures writes { writes_of self.new ≡ writes_of self.old }
        ensures syncs { syncs_of self.new ≡ syncs_of self.old };

    /// Puts bytes at `at`. Until a sync a crash may leave any bytes in their range. A write that fails counts as
    /// written.
    fn write(&mut self, at: u64, bytes: &[u8]) -> Result<(), Failed>
        requires some { 0 < length bytes.now }
        requires page { length bytes.now ≤ 4096 }
        requires within { at + length bytes.now ≤ size_of self.old }

        ensures bytes { OnOk result ((view self.old).honest → Holds (view self.new).seen at bytes.now) }
        ensures steps { Steps (SameOutside at (length bytes.now)) (view self.old) (view self.new) }

        ensures size { size_of self.new ≡ size_of self.old }
        ensures faults { CountsFault result (faults_of self.old) (faults_of self.new) }
        ensures reads { reads_of self.new ≡ reads_of self.old }
        ensures writes { writes_of self.new ≡ next_count (writes_of self.old) }
        ensures syncs { syncs_of self.new ≡ syncs_of self.old };

    /// After it a crash leaves what a read gives.
    fn sync(&mut self) -> Result<(), Failed>
        ensures synced { OnOk result (IsSynced (view self.new)) }
        ensures stays { Stays (view self.old) (view self.new) }

        ensures size { size_of self.new ≡ size_of self.old }
        ensures faults { CountsFault result (faults_of self.old) (faults_of self.new) }
        ensures reads { reads_of self.new ≡ reads_of self.old }
        ensures writes { writes_of self.new ≡ writes_of self.old }
        ensures syncs { syncs_of self.new ≡ next_count (syncs_of self.old) };
}
