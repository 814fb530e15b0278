/// What comes next in an input of lines.
#[derive(Clone, Copy)]
pub enum NextLine {
    /// A line of so many bytes, and the LF that ends it.
    Whole { len: usize },
    /// More than `MAX_LINE` bytes with no LF.
    TooLong,
    /// One byte or more with no LF, and then the input's end.
    Unended,
    /// The input's end.
    End,
}
