/// How many bytes a number has, and the length before a text.
pub(crate) const INT_BYTES: usize = 8;

pub(crate) const WIDE_BYTES: usize = 16;

pub(crate) const LENGTH_BYTES: usize = 2;

/// What the values of a column are.
#[derive(Clone, Copy, Debug, PartialEq, Eq)]
pub enum ColKind {
    /// Whole numbers within 64 bits with a sign.
    Int,
    /// Whole numbers within 128 bits with a sign.
    Wide,
    /// Texts of at most `max` bytes.
    Text { max: u16 },
}
