ghost use Rattle.std.specs.Prelude.{◌≡◌, ◌<◌, IfOk, OnErr};
ghost use Rattle.std.specs.String.{string_bytes};
ghost use Rattle.disk_model.specs.View.{LeavesOnly};
ghost use Rattle.page_store.specs.Format.{IsOldNoneOrNew};
ghost use Rattle.page_store.specs.PageOrder.{AreSizes};
ghost use Rattle.row_script.specs.Ends.{end_text};
ghost use Rattle.qsr_top.specs.Format.{Formatted, bytes_needed, formatted_text, too_small_text};

use crate::told::{say, tell};
use disk_model::Disk;
use page_store::{Sizes, StoreFault, format};
use qsr_io::Sink;
use row_script::End;
use std::alloc::{AllocError, Global};

/// Formats the disk, and says what came of it.
pub fn run<D: Disk, K: Sink>(alloc: Global, sizes: Sizes, disk: &mut D, sink: &mut K) -> End
    requires { AreSizes sizes }
    ensures ran { Formatted sizes (D.size_of disk.old) (K.given sink.old) (K.given sink.new) (D.view disk.new)
        (D.faults_of disk.old) (D.faults_of disk.new) (K.faults_of sink.old) (K.faults_of sink.new) result }
    ensures any_moment { LeavesOnly (D.view disk.old) (D.view disk.new) (IsOldNoneOrNew (D.view disk.old) sizes) }
    ensures untouched { D.size_of disk.old < bytes_needed sizes → disk.new ≡ disk.old }
{
    match format(disk, sizes) {
        Ok(pages) => say(formatted(alloc, pages), End::Finished, sink),
        Err(StoreFault::TooSmall { need, have }) => {
            say(too_small(alloc, need, have), End::Refused, sink)
        }
        Err(StoreFault::Failed | StoreFault::NotStore { .. }) => {
            tell(End::DiskFault.text(), End::DiskFault, sink)
        }
    }
}

fn formatted(alloc: Global, pages: u32) -> Result<String, AllocError>
    ensures { IfOk result (λ text. string_bytes text ≡ formatted_text pages) }
{
    format!(in alloc; "formatted {pages} pages\n")
}

fn too_small(alloc: Global, need: u64, have: u64) -> Result<String, AllocError>
    ensures { IfOk result (λ text. string_bytes text ≡ too_small_text need have) }
{
    format!(in alloc; "too small need {need} have {have}\n")
}
