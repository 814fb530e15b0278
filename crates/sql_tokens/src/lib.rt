//! The tokens of an SQL text, with their places.
#![tactic(auto)]

mod laws;
mod lexer;
mod scan;
mod texts;
mod token;
mod words;

pub use laws::{texts_stand_there, tokens_are_in_order};
pub use lexer::Lexer;
pub use texts::text_value;
pub use token::{Keyword, Name, Token, What};
