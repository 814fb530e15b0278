/// What a line of a script is answered.
#[derive(Clone, Copy)]
pub enum Reply {
    /// The row is behind the others.
    Added,
    /// The disk has no room for a further row.
    TableFull,
    /// So many rows are acknowledged, and there are more.
    Paused { rows: u64 },
    /// So many rows are acknowledged, and these are all.
    Done { rows: u64 },
    /// So many rows were listed.
    Listed { rows: u64 },
    /// The line of this number, counted from 1, is none of a script's. It ends the script.
    BadLine { number: u64 },
}
