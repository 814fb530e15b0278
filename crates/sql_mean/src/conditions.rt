ghost use Rattle.std.specs.Prelude.{◌≡◌};
ghost use Rattle.qsr_value.specs.Ordered.{compare_values};
ghost use Rattle.sql_bind.specs.View.{condition_of, conditions_of};
ghost use Rattle.sql_mean.specs.Meaning.{all_hold, holds, says, value_of};
ghost use Rattle.sql_mean.specs.Sides.{number_in_value, text_in};

use crate::places::value_there;
use qsr_value::{Row, Value};
use sql_bind::{Condition, Operand};
use sql_front::Comparison;
use std::cmp::Ordering;

/// The number that a value is, if it is one.
fn number_in(value: &Value) -> Option<i128>
    ensures { result ≡ number_in_value value.now }
{
    match value {
        Value::Int(number) => Some(*number),
        Value::Text(_) => None,
    }
}

/// The bytes of the text that a value is; none where it is a number.
fn text_in(value: &Value) -> &[u8]
    ensures { result.now ≡ text_in value.now }
{
    match value {
        Value::Int(_) => &[],
        Value::Text(text) => text.as_str().as_bytes(),
    }
}

/// The number that a side of a comparison is, if it is one.
fn number(env: &[Row], side: &Operand) -> Option<i128>
    ensures { result ≡ number_in_value (value_of env.now side.now) }
{
    match side {
        Operand::Column(column) => match value_there(env, *column) {
            Some(value) => number_in(value),
            None => Some(0),
        },
        Operand::Number(number) => Some(*number),
        Operand::Text(_) => None,
    }
}

/// The bytes of the text that a side of a comparison is, if it is one.
fn text<'v>(env: &'v [Row], side: &'v Operand) -> &'v [u8]
    ensures { result.now ≡ text_in (value_of env.now side.now) }
{
    match side {
        Operand::Column(column) => match value_there(env, *column) {
            Some(value) => text_in(value),
            None => &[],
        },
        Operand::Number(_) => &[],
        Operand::Text(text) => text.as_slice(),
    }
}

/// Compares two sides: numbers by value, texts by their bytes, and a number before a text.
fn compare_sides(env: &[Row], left: &Operand, right: &Operand) -> Ordering
    ensures { result ≡ compare_values (value_of env.now left.now) (value_of env.now right.now) }
{
    match number(env, left) {
        Some(number) => match self::number(env, right) {
            Some(other) => number.cmp(&other),
            None => Ordering::Less,
        },
        None => match self::number(env, right) {
            Some(_) => Ordering::Greater,
            None => text(env, left).cmp(text(env, right)),
        },
    }
}

/// Whether a comparison holds of sides that compare so.
fn says(how: Comparison, sides: Ordering) -> bool
    ensures { result ≡ says how sides }
{
    match how {
        Comparison::Equal => sides.is_eq(),
        Comparison::Unequal => sides.is_ne(),
        Comparison::Less => sides.is_lt(),
        Comparison::AtMost => sides.is_le(),
        Comparison::More => sides.is_gt(),
        Comparison::AtLeast => sides.is_ge(),
    }
}

/// Whether a condition holds of some rows.
#[cycle(walk)]
#[tactic(auto, using(crate::proofs::ConditionViews::reading))]
pub(crate) fn holds(env: &[Row], condition: &Condition) -> bool
    ensures { result ≡ holds env.now (condition_of condition.now) }
{
    match condition {
        Condition::Compare(left, how, right) => says(*how, compare_sides(env, left, right)),
        Condition::Not(inner) => !holds(env, inner.get()),
        Condition::All(all) => {
            for next in all.as_slice() {
                if !holds(env, next) {
                    return false;
                }
            }
            true
        }
        Condition::Any(any) => {
            for next in any.as_slice() {
                if holds(env, next) {
                    return true;
                }
            }
            false
        }
    }
}

/// Whether all of these conditions hold of some rows.
#[tactic(auto, using(crate::proofs::ConditionViews::reading))]
pub(crate) fn all_hold(env: &[Row], conditions: &[Condition]) -> bool
    ensures { result ≡ all_hold env.now (conditions_of conditions.now) }
{
    for condition in conditions {
        if !holds(env, condition) {
            return false;
        }
    }
    true
}
