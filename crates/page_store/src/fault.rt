/// Why a store isn't made or opened.
#[derive(Clone, Copy, Debug, PartialEq, Eq)]
pub enum StoreFault {
    /// The store needs more bytes than the disk has.
    TooSmall { need: u64, have: u64 },
    /// This page is not that of a store.
    NotStore { page: u32 },
    /// A read, a write or a sync of the disk failed.
    Failed,
}
