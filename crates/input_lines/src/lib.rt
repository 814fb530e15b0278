//! An input as lines: the bytes that were read and not yet taken, the next line in them.
#![tactic(auto)]

mod line_buffer;
mod line_fault;
mod line_text;
mod next_line;
mod one_line;

pub use line_buffer::LineBuffer;
pub use line_fault::LineFault;
pub use line_text::without_cr;
pub use next_line::NextLine;
pub use one_line::read_one_line;
