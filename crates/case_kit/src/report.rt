//! What is printed of each case.

use anyhow::Result;
use std::alloc::{AllocError, Global};

/// The case that is being tried: its name, and the first thing in it that differs from what is wanted.
#[derive(Drop)]
pub struct Report {
    name: String,
    differs: String,
}

impl Report {
    /// No case yet.
    pub fn new(alloc: Global) -> Report {
        Report {
            name: String::new(alloc),
            differs: String::new(alloc),
        }
    }

    /// Prints `ok NAME`, or `differs NAME: ` and what differs, of the case that was tried last.
    pub fn end(&mut self, rt: &impl Print) -> Result<()> {
        if self.name.is_empty() {
            return Ok(());
        }
        let name = self.name.as_str();
        if self.differs.is_empty() {
            println!(rt; "ok {name}")?;
        } else {
            let differs = self.differs.as_str();
            println!(rt; "differs {name}: {differs}")?;
        }
        Ok(())
    }

    /// Prints what became of the case before, and begins another.
    pub fn begin(&mut self, rt: &impl Print, alloc: Global, name: &str) -> Result<()> {
        self.end(rt)?;
        self.differs = String::new(alloc);
        self.name = String::from_str(alloc, name)?;
        Ok(())
    }

    /// Notes that something differs; of a case the first counts.
    pub fn differ(&mut self, what: &str) -> Result<(), AllocError> {
        if self.differs.is_empty() {
            self.differs.push_str(what)?;
        }
        Ok(())
    }

    /// Whether something of this case differs.
    pub fn differs(&self) -> bool {
        !self.differs.is_empty()
    }
}
