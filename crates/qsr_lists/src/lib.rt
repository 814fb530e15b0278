//! Laws of lists: products, first appearances, groups and order. There is no code to run.
#![tactic(auto)]

mod laws;

pub use laws::{
    firsts_of_firsts, groups_hold_all, product_size, sorted_holds_all, sorted_rises, ties_stay,
};
