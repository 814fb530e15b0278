//! The disk over a file that moves parts of what it is asked for. No program of cases can have such a file: only this crate sees
//! what `FileDisk` stands on, and a file of a host moves all that it is asked for.

use crate::Disk;
use crate::counted::CountedFile;
use crate::history::overwrite;
use crate::positioned::Positioned;
use std::io;
use std::io::ErrorKind;
use std::test::Fail;

/// A file of five bytes in memory, which tells them. It moves two bytes a call at most, and its third write is interrupted.
#[derive(Drop)]
struct ShortFile {
    bytes: [u8; 5],
    writes: u64,
    syncs: u64,
}

impl Positioned for ShortFile {
    ghost use Rattle.std.specs.Prelude.{slice_index, ⊤};

    ghost is_told = { λ _. ⊤ };

    ghost contents = { λ file. slice_index file.bytes };

    ghost syncs_asked = { λ file. file.syncs };

    fn read_at(&self, at: u64, out: &mut [u8]) -> io::Result<usize> {
        let start = (at as usize).min(5);
        let count = out.len().min(2).min(5 - start);
        out[..count].copy_from_slice(&self.bytes[start..start + count]);
        Ok(count)
    }

    fn write_at(&mut self, at: u64, bytes: &[u8]) -> io::Result<usize> {
        self.writes = self.writes.saturating_add(1);
        if self.writes == 3 {
            return Err(ErrorKind::Interrupted.into());
        }
        if at > 5 {
            return Err(ErrorKind::WriteZero.into());
        }
        let start = at as usize;
        let count = bytes.len().min(2).min(5 - start);
        overwrite(&mut self.bytes, start, &bytes[..count]);
        Ok(count)
    }

    fn sync_data(&mut self) -> io::Result<()> {
        self.syncs = self.syncs.saturating_add(1);
        Ok(())
    }
}

#[test]
fn a_file_that_moves_parts_serves(rt: HostRuntime) -> Result<(), Fail> {
    let mut disk = CountedFile::new(ShortFile {
        bytes: [1, 2, 3, 4, 5],
        writes: 0,
        syncs: 0,
    });
    assert_eq!(rt; disk.write(1, &[6, 7, 8, 9]), Ok(()));
    assert_eq!(rt; disk.write(0, &[1, 2, 3]), Ok(()));
    let mut out = [0xA5; 8];
    assert_eq!(rt; disk.read(1, &mut out), Ok(()));
    assert_eq!(rt; out, [2, 3, 8, 9, 0, 0, 0, 0]);
    assert_eq!(rt; disk.sync(), Ok(()));
    assert_eq!(rt; disk.write(3, &[1, 2, 3]).is_err(), true);
    assert_eq!(rt;
        (disk.faults, disk.reads, disk.writes, disk.syncs),
        (1, 1, 3, 1)
    );
    assert_eq!(rt; disk.file.bytes, [1, 2, 3, 1, 2]);
    assert_eq!(rt; disk.file.syncs, 1);
    Ok(())
}
