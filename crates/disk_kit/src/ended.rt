//! How a step ended.

use disk_model::Failed;
use std::alloc::AllocError;

/// How a step in a store ended, which decides whether those that hang on it are done.
#[derive(Clone, Copy, PartialEq, Eq)]
pub enum Ended {
    /// As it was asked.
    Well,
    /// By a fault, which was said.
    Badly,
}

/// Says how a call ended.
pub fn say_end(said: &mut String, end: Result<(), Failed>) -> Result<Ended, AllocError> {
    match end {
        Ok(()) => {
            said.push_str("done\n")?;
            Ok(Ended::Well)
        }
        Err(Failed) => {
            said.push_str("failed\n")?;
            Ok(Ended::Badly)
        }
    }
}
