//! Steps on disks in memory, for programs of cases: disks that are made, kept and compared, calls of the device, crashes after a call by
//! each fill, and rounds of steps.
#![tactic(auto)]

mod crashes;
mod device;
mod disks;
mod ended;
mod layout;
mod loops;

pub use device::say_bytes;
pub use disks::{Disks, OnStores, do_steps};
pub use ended::{Ended, say_end};
pub use layout::{area_of, job_of, pages_of, twin_of};
pub use loops::each;
