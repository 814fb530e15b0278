ghost use Rattle.std.specs.Prelude.{◌≡◌};

use crate::Disk;
use crate::counted::CountedFile;
use qsr_value::Failed;
use std::fs::File;

/// How many bytes a file serves as a disk. Those past its end are zeros.
pub const FILE_DISK_SIZE: u64 = 1_099_511_627_776;

/// A disk over a file that was opened for reading and writing. It tells nothing of what the file holds.
#[derive(Drop)]
pub struct FileDisk {
    calls: CountedFile<File>,
}

impl FileDisk {
    pub fn at(file: File) -> FileDisk
        ensures size { ⟦<FileDisk as Disk>⟧.size_of result ≡ 1099511627776 }
        ensures faults { ⟦<FileDisk as Disk>⟧.faults_of result ≡ 0 }
        ensures calls { (⟦<FileDisk as Disk>⟧.reads_of result ≡ 0) × (⟦<FileDisk as Disk>⟧.writes_of result ≡ 0) }
        ensures syncs { ⟦<FileDisk as Disk>⟧.syncs_of result ≡ 0 }
    {
        FileDisk {
            calls: CountedFile::new(file),
        }
    }
}

impl Disk for FileDisk {
    ghost use Rattle.disk_model.specs.View.{untold};
    ghost use Rattle.disk_model.specs.declared.file.TheConstants.{FILE_DISK_SIZE};

    ghost size_of = { λ _. FILE_DISK_SIZE };

    ghost faults_of = { λ disk. disk.calls.faults };

    ghost reads_of = { λ disk. disk.calls.reads };

    ghost writes_of = { λ disk. disk.calls.writes };

    ghost syncs_of = { λ disk. disk.calls.syncs };

    ghost view = { λ _. untold (λ _. 0) };

    fn size(&self) -> u64 {
        FILE_DISK_SIZE
    }

    fn faults(&self) -> u64 {
        self.calls.faults
    }

    fn reads(&self) -> u64 {
        self.calls.reads
    }

    fn writes(&self) -> u64 {
        self.calls.writes
    }

    fn read(&mut self, at: u64, out: &mut [u8]) -> Result<(), Failed> {
        self.calls.read(at, out)
    }

    fn write(&mut self, at: u64, bytes: &[u8]) -> Result<(), Failed> {
        self.calls.write(at, bytes)
    }

    fn sync(&mut self) -> Result<(), Failed> {
        self.calls.sync()
    }
}
