//! The heads of the jobs of a store: what it keeps of each job beside the pages of its areas. A crash at any moment leaves
//! a job's old or new head.
#![tactic(auto)]

mod bytes;
mod head;
mod heads;

pub use head::{ImageSide, JobHead, Phase, heads_differ};
pub use heads::{commit_head, head_of};
