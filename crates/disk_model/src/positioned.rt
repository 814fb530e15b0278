ghost use Rattle.std.specs.Prelude.{◌≡◌, ℕ, ◌+◌, ◌^◌, ◌<◌, ◌≤◌, ◌↔◌, length, take, IfOk, IfErr, OnOk};
ghost use Rattle.std.specs.Io.{ReadsAtMost};
ghost use Rattle.disk_model.specs.Image.{Image, Holds, SameOutside};
ghost use Rattle.disk_model.specs.Positioned.{IsZeroFrom};
ghost use Rattle.qsr_value.specs.Causes.{next_count};

use std::fs::File;
use std::io;
use std::io::ErrorKind;
use std::os::unix::fs::FileExt;

/// How often a call that a signal interrupted, or that moved a part, is gone on with before it counts as failed.
const MAX_CALLS: u32 = 1 << 20;

/// A file that is read and written by offsets. Its clauses on bytes and syncs hold where it tells them.
pub(crate) trait Positioned {
    /// Whether it tells its bytes and its syncs.
    ghost is_told: { Self → Type 0 };

    /// Its bytes by their offsets, with zeros behind its end.
    ghost contents: { Self → Image };

    /// How many syncs were asked of it, up to the last value of u64.
    ghost syncs_asked: { Self → ℕ };

    /// Moves the first of the bytes at this offset to the front of `out`. None come only behind the end.
    fn read_at(&self, at: u64, out: &mut [u8]) -> io::Result<usize>
        ensures bound { ReadsAtMost result out.new }
        ensures bytes { IfOk result (λ count. is_told self.now → Holds (contents self.now) at (take count out.new)) }
        ensures end { IfOk result (λ count. is_told self.now → count ≡ 0 → 0 < length out.new → IsZeroFrom (contents self.now) at) };

    /// Puts the first of the bytes at this offset. One that fails may have changed the places of all of them.
    fn write_at(&mut self, at: u64, bytes: &[u8]) -> io::Result<usize>
        ensures bound { IfOk result (λ count. count ≤ length bytes.now) }
        ensures bytes { IfOk result (λ count. is_told self.old → Holds (contents self.new) at (take count bytes.now)) }
        ensures others { IfOk result (λ count. is_told self.old → SameOutside at count (contents self.old) (contents self.new)) }
        ensures failed { IfErr result (λ _. is_told self.old → SameOutside at (length bytes.now) (contents self.old) (contents self.new)) }
        ensures told { is_told self.new ↔ is_told self.old }
        ensures syncs { is_told self.old → syncs_asked self.new ≡ syncs_asked self.old };

    fn sync_data(&mut self) -> io::Result<()>
        ensures bytes { is_told self.old → contents self.new ≡ contents self.old }
        ensures told { is_told self.new ↔ is_told self.old }
        ensures syncs { is_told self.old → syncs_asked self.new ≡ next_count (syncs_asked self.old) };
}

/// A file of std tells nothing.
impl Positioned for File {
    ghost is_told = { λ _. ⊥ };

    ghost contents = { λ _ _. 0 };

    ghost syncs_asked = { λ _. 0 };

    fn read_at(&self, at: u64, out: &mut [u8]) -> io::Result<usize> {
        FileExt::read_at(self, out, at)
    }

    fn write_at(&mut self, at: u64, bytes: &[u8]) -> io::Result<usize> {
        FileExt::write_at(self, bytes, at)
    }

    fn sync_data(&mut self) -> io::Result<()> {
        File::sync_data(self)
    }
}

/// Fills `out` with the bytes that stand at `at`: zeros where the file has ended.
pub(crate) fn fill_from<F: Positioned>(file: &F, at: u64, out: &mut [u8]) -> io::Result<()>
    requires { at + length out.old < 2 ^ 64 }
    ensures { OnOk result (F.is_told file.now → Holds (F.contents file.now) at out.new) }
{
    let mut done = 0;
    for _ in 0..MAX_CALLS {
        if done == out.len() {
            return Ok(());
        }
        match file.read_at(at + done as u64, &mut out[done..]) {
            Ok(0) => {
                out[done..].fill(0);
                return Ok(());
            }
            Ok(count) => done += count,
            Err(error) if error.kind() == ErrorKind::Interrupted => {}
            Err(error) => return Err(error),
        }
    }
    Err(ErrorKind::Interrupted.into())
}

/// Puts all of the bytes at `at`. Where it fails their places may hold anything.
pub(crate) fn put_all_at<F: Positioned>(file: &mut F, at: u64, bytes: &[u8]) -> io::Result<()>
    requires { at + length bytes.now < 2 ^ 64 }
    ensures bytes { OnOk result (F.is_told file.old → Holds (F.contents file.new) at bytes.now) }
    ensures others { F.is_told file.old → SameOutside at (length bytes.now) (F.contents file.old) (F.contents file.new) }
    ensures told { F.is_told file.new ↔ F.is_told file.old }
    ensures syncs { F.is_told file.old → F.syncs_asked file.new ≡ F.syncs_asked file.old }
{
    let mut done = 0;
    for _ in 0..MAX_CALLS {
        if done == bytes.len() {
            return Ok(());
        }
        match file.write_at(at + done as u64, &bytes[done..]) {
            Ok(0) => return Err(ErrorKind::WriteZero.into()),
            Ok(count) => done += count,
            Err(error) if error.kind() == ErrorKind::Interrupted => {}
            Err(error) => return Err(error),
        }
    }
    Err(ErrorKind::Interrupted.into())
}
