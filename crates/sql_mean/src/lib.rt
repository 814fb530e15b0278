//! What a query means: definitions, laws that hold of them as they hold in SQL, and a plain program that answers a query by them.
#![tactic(auto)]

mod aggregates;
mod answer;
mod conditions;
mod distinct;
mod fault;
mod groups;
mod items;
mod joins;
mod laws;
mod order;
mod places;
mod rows;

pub use answer::answer_slowly;
pub use fault::AnswerFault;
pub use laws::{
    a_stable_answer_is_an_answer, a_true_condition_changes_nothing, conjuncts_in_any_order,
    distinct_twice_is_once, from_is_the_product, groups_hold_all_rows, nots_turn_conditions_round,
    on_of_the_last_table_may_stand_in_where, order_by_is_an_order, same_rows_are_equal,
    semi_and_anti_divide_the_rows, ties_stay_in_order, union_all_puts_bags_together,
};
pub use rows::{Lists, Rows};
