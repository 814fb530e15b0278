// Gates: the byte at the front of what a crash must not leave in part.

ghost use Rattle.std.specs.Prelude.{◌≡◌, ◌≢◌, ◌⊎◌, ◌+◌, ◌≤◌, ◌==◌, if◌then◌else◌, OnOk};
ghost use Rattle.disk_model.specs.Image.{Holds, SameOutside};
ghost use Rattle.disk_model.specs.View.{After, EachImage, IsSynced, LeavesOnly, Stays, Steps};
ghost use Rattle.qsr_value.specs.Causes.{CountsFault, next_count};
ghost use Rattle.page_store.specs.Twin.{KeepsOutside};

use crate::records::{CLOSED, OPEN};
use disk_model::Disk;
use qsr_value::Failed;

/// Closes the gate at this offset, where this byte stands. It writes only where the gate is open: so where the write is
/// torn and the gate is open once more, all is as it was.
pub(crate) fn shut<D: Disk>(disk: &mut D, at: u64, gate: u8) -> Result<(), Failed>
    requires { at + 1 ≤ D.size_of disk.old }
    ensures any_moment { EachImage (D.view disk.old) (λ c. c at ≡ gate)
        → LeavesOnly (D.view disk.old) (D.view disk.new) (λ c. (D.view disk.old).now c ⊎ (c at ≢ OPEN)) }
    ensures closed { OnOk result (EachImage (D.view disk.old) (λ c. c at ≡ gate) → EachImage (D.view disk.new) (λ c. c at ≢ OPEN)) }
    ensures keeps { KeepsOutside at 1 (D.view disk.old) (D.view disk.new) }
    ensures faults { CountsFault result (D.faults_of disk.old) (D.faults_of disk.new) }
    ensures reads { D.reads_of disk.new ≡ D.reads_of disk.old }
    ensures writes { D.writes_of disk.new ≡ if gate == OPEN then next_count (D.writes_of disk.old) else D.writes_of disk.old }
    ensures syncs { OnOk result (D.syncs_of disk.new ≡ next_count (D.syncs_of disk.old)) }
    ensures size { D.size_of disk.new ≡ D.size_of disk.old }
{
    if gate != OPEN {
        return disk.sync();
    }
    disk.write(at, &[CLOSED])?;
    disk.sync()
}

/// Opens the gate at this offset.
pub(crate) fn unlock<D: Disk>(disk: &mut D, at: u64) -> Result<(), Failed>
    requires { at + 1 ≤ D.size_of disk.old }
    ensures keeps { KeepsOutside at 1 (D.view disk.old) (D.view disk.new) }
    ensures opened { OnOk result (EachImage (D.view disk.new) (λ c. c at ≡ OPEN)) }
    ensures synced { OnOk result (IsSynced (D.view disk.new)) }
    ensures faults { CountsFault result (D.faults_of disk.old) (D.faults_of disk.new) }
    ensures reads { D.reads_of disk.new ≡ D.reads_of disk.old }
    ensures writes { D.writes_of disk.new ≡ next_count (D.writes_of disk.old) }
    ensures syncs { OnOk result (D.syncs_of disk.new ≡ next_count (D.syncs_of disk.old)) }
    ensures size { D.size_of disk.new ≡ D.size_of disk.old }
{
    disk.write(at, &[OPEN])?;
    disk.sync() // no crash takes away what stands behind it
}
