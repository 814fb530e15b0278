use thiserror::Error;

/// Why a row isn't kept, or not given out again.
#[derive(Clone, Copy, Debug, PartialEq, Eq, Error)]
pub enum OutFault {
    /// Fewer bytes are free than a row may need.
    #[error("output full, {free} bytes free")]
    OutFull { free: u32 },
    /// At this byte of the output area begins what is no row.
    #[error("bad row at byte {at} of the output")]
    BadRow { at: u32 },
    /// The disk, or the sink of the rows, failed.
    #[error("fault of the disk or the sink of rows")]
    Failed,
    /// An allocation was refused.
    #[error("no memory")]
    Memory,
}
