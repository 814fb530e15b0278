//! The input of a run.
ghost use Rattle.std.specs.Prelude.{◌<◌, Some};

use qsr_io::{Failed, Source};

/// A source over bytes that gives a few of them a call, and fails at the calls with given numbers, counted from 0.
#[derive(Drop)]
pub(crate) struct PieceSource<'a> {
    left: &'a [u8],
    piece: usize,
    failing: &'a [u64],
    calls: u64,
    faults: u64,
    ghost some: { 0 < piece },
}

impl<'a> PieceSource<'a> {
    /// A source that gives at most so many bytes a call, and one where that is none.
    pub(crate) fn new(bytes: &'a [u8], piece: usize, failing: &'a [u64]) -> PieceSource<'a> {
        PieceSource {
            left: bytes,
            piece: piece.max(1),
            failing,
            calls: 0,
            faults: 0,
        }
    }
}

impl Source for PieceSource<'_> {
    ghost left = { λ source. Some source.left.now };

    ghost faults_of = { λ source. source.faults };

    fn faults(&self) -> u64 {
        self.faults
    }

    fn read(&mut self, out: &mut [u8]) -> Result<usize, Failed> {
        let number = self.calls;
        self.calls = self.calls.saturating_add(1);
        if self.failing.contains(&number) {
            self.faults = self.faults.saturating_add(1);
            return Err(Failed);
        }
        let count = self.piece.min(self.left.len()).min(out.len());
        out[..count].copy_from_slice(&self.left[..count]);
        self.left = &self.left[count..];
        Ok(count)
    }
}
