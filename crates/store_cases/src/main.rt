//! Calls on disks, stores, the heads of jobs and output files, as cases: each makes calls and says what came of them, which is compared with
//! what the case wants. The head of the stored input tells the form.
#![tactic(auto)]

mod areas;
mod bodies;
mod files;
mod heads;
mod listings;
mod rows;
mod sessions;

use anyhow::Result;
use case_kit::{Calls, try_all};
use disk_kit::{Disks, OnStores, do_steps, each};
use disk_model::MemDisk;
use std::alloc::Global;

/// The disks of a case.
#[derive(Drop)]
struct Stores {
    disks: Disks,
}

/// Steps in the store on a disk.
struct InStores;

impl OnStores for InStores {
    fn open(alloc: Global, disk: &mut MemDisk, said: &mut String, steps: &str) -> Result<()> {
        sessions::open(alloc, disk, said, steps)
    }
}

impl Calls for Stores {
    fn begin(&mut self, alloc: Global) {
        self.disks = Disks::new(alloc);
    }

    fn make(&mut self, alloc: Global, said: &mut String, word: &str, rest: &str) -> Result<bool> {
        match word {
            "run" => do_steps::<InStores>(alloc, &mut self.disks, said, rest)?,
            "each" => each::<InStores>(alloc, &mut self.disks, said, rest)?,
            _ => return Ok(false),
        }
        Ok(true)
    }
}

fn main(rt: HostRuntime) -> Result<()> {
    let mut stores = Stores {
        disks: Disks::new(rt.alloc()),
    };
    try_all(&rt, &mut stores)
}
