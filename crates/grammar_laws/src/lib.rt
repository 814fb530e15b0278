//! What texts, their beginnings and their refusals are, for any grammar: definitions, and the laws that follow from a machine
//! with one step a token. There is no code to run.
#![tactic(auto)]

mod laws;

pub use laws::{
    first_of_both, fits_in_text, goes_or_refused, one_refusal, one_text, parser_contract,
    reads_exactly, stops_exactly,
};
