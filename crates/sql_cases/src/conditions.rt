//! Conditions as text.

use crate::line::Line;
use sql_front::{Comparison, Cond, Joined, Predicate, Side};
use std::alloc::AllocError;

fn put_side(line: &mut Line, side: &Side) -> Result<(), AllocError> {
    match side {
        Side::Column(column) => line.put_column(column),
        Side::Number(number) => line.put_number(number),
        Side::Negative(at, number) => {
            line.put_at("-", *at)?;
            line.put_number(number)
        }
        Side::Text(bytes) => line.put_text(bytes.as_slice()),
    }
}

fn sign(how: Comparison) -> &'static str {
    match how {
        Comparison::Equal => " =",
        Comparison::Unequal => " <>",
        Comparison::Less => " <",
        Comparison::AtMost => " <=",
        Comparison::More => " >",
        Comparison::AtLeast => " >=",
    }
}

fn put_nots(line: &mut Line, nots: u8) -> Result<(), AllocError> {
    for _ in 0..nots {
        line.put("not ")?;
    }
    Ok(())
}

/// A comparison whose sign stands at a place.
fn put_comparison(
    line: &mut Line,
    left: &Side,
    how: Comparison,
    at: u32,
    right: &Side,
) -> Result<(), AllocError> {
    put_side(line, left)?;
    line.put_at(sign(how), at)?;
    line.put(" ")?;
    put_side(line, right)
}

#[cycle(walk)]
fn put_unit(line: &mut Line, unit: &Predicate) -> Result<(), AllocError> {
    match unit {
        Predicate::Compare(nots, left, how, at, right) => {
            put_nots(line, *nots)?;
            put_comparison(line, left, *how, *at, right)
        }
        Predicate::Group(nots, inner) => {
            put_nots(line, *nots)?;
            line.put("(")?;
            put_condition(line, inner.get())?;
            line.put(")")
        }
    }
}

#[cycle(walk)]
fn put_joined(line: &mut Line, joined: &Joined) -> Result<(), AllocError> {
    match joined {
        Joined::And(unit) => {
            line.put(" and ")?;
            put_unit(line, unit)
        }
        Joined::Or(unit) => {
            line.put(" or ")?;
            put_unit(line, unit)
        }
    }
}

/// Adds a condition: its units in the order of the text, each behind the word that joins it to those before it.
#[cycle(walk)]
pub(crate) fn put_condition(line: &mut Line, condition: &Cond) -> Result<(), AllocError> {
    match condition {
        Cond::Units(first, more) => {
            put_unit(line, first)?;
            for joined in more.as_slice() {
                put_joined(line, joined)?;
            }
            Ok(())
        }
    }
}
