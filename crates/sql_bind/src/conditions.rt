ghost use Rattle.std.specs.Prelude.{◌≡◌, ℕ, IfOk};
ghost use Rattle.sql_bind.specs.Bound.{bound_cond, bound_unit, operand_of, signed_number};
ghost use Rattle.sql_bind.specs.Checks.{cond_checks, is_text, is_text_operand, side_checks, bind_tells, unit_checks};
ghost use Rattle.sql_bind.specs.Gathered.{condition_view, next_read};
ghost use Rattle.sql_bind.specs.View.{condition_of, joined_unit};
ghost use Rattle.sql_front.specs.Tree.{compare};
ghost use Rattle.sql_front.specs.View.{cond_tree, predicate_tree, side_tree};
ghost use Rattle.grammar_laws.specs.Checks.{Checks};

use crate::bound::{Condition, Operand};
use crate::make::OpenCondition;
use crate::scope::{Scoped, meant};
use crate::{BindFault, make};
use qsr_value::{Bytes, ColKind};
use sql_front::{Comparison, Cond, Joined, Predicate, Side};
use std::alloc::Global;

/// Whether the values of a column are texts.
pub(crate) fn is_text(kind: ColKind) -> bool
    ensures { result ≡ is_text kind }
{
    match kind {
        ColKind::Text { .. } => true,
        ColKind::Int | ColKind::Wide => false,
    }
}

fn is_text_operand(operand: &Operand) -> bool
    ensures { result ≡ is_text_operand operand.now }
{
    match operand {
        Operand::Column(column) => is_text(column.kind),
        Operand::Number(_) => false,
        Operand::Text(_) => true,
    }
}

/// The number that a literal is, in 128 signed bits.
#[tactic(auto, using(crate::proofs::ComparisonLemmas::numbers))]
fn signed_number(negative: bool, value: u128) -> i128
    ensures { result ≡ signed_number negative value }
{
    let number = value.cast_signed();
    if negative {
        number.wrapping_neg()
    } else {
        number
    }
}

/// A side of a comparison.
fn operand(alloc: Global, scope: &[Scoped], side: &Side) -> Result<Operand, BindFault>
    ensures checks { Checks bind_tells (side_checks scope.now (side_tree side.now)) result }
    ensures bound { IfOk result (λ o. o ≡ operand_of scope.now (side_tree side.now)) }
{
    match side {
        Side::Column(column) => Ok(Operand::Column(meant(scope, column)?)),
        Side::Number(number) => Ok(Operand::Number(signed_number(false, number.value))),
        Side::Negative(_, number) => Ok(Operand::Number(signed_number(true, number.value))),
        Side::Text(bytes) => Ok(Operand::Text(Bytes::from_slice(alloc, bytes.as_slice())?)),
    }
}

/// A comparison, whose operator stands at this place.
#[tactic(auto, using(crate::proofs::ComparisonLemmas::comparing))]
fn comparison(
    alloc: Global,
    scope: &[Scoped],
    left: &Side,
    how: Comparison,
    at: u32,
    right: &Side,
) -> Result<Condition, BindFault>
    ensures checks { Checks bind_tells (unit_checks scope.now (compare (side_tree left.now) how at (side_tree right.now))) result }
    ensures bound { IfOk result (λ c. condition_of c ≡ bound_unit scope.now (compare (side_tree left.now) how at (side_tree right.now))) }
{
    let left = operand(alloc, scope, left)?;
    let right = operand(alloc, scope, right)?;
    if is_text_operand(&left) != is_text_operand(&right) {
        return Err(BindFault::TypeClash { at });
    }
    Ok(make::compared(left, how, right))
}

/// What AND and OR join: a comparison, or a condition in parentheses, behind so many NOTs.
#[cycle(walk)]
#[tactic(auto, using(crate::proofs::ConditionLemmas::walking))]
pub(crate) fn unit(
    alloc: Global,
    scope: &[Scoped],
    unit: &Predicate,
) -> Result<Condition, BindFault>
    ensures checks { Checks bind_tells (unit_checks scope.now (predicate_tree unit.now)) result }
    ensures bound { IfOk result (λ c. condition_of c ≡ bound_unit scope.now (predicate_tree unit.now)) }
{
    match unit {
        Predicate::Group(count, inner) => {
            let inner = cond(alloc, scope, inner.get())?;
            Ok(make::opposites(alloc, *count, inner)?)
        }
        Predicate::Compare(count, left, how, at, right) => {
            let inner = comparison(alloc, scope, left, *how, *at, right)?;
            Ok(make::opposites(alloc, *count, inner)?)
        }
    }
}

/// A further unit, behind what is read before it.
#[cycle(walk)]
#[tactic(auto, using(crate::proofs::ConditionLemmas::walking))]
fn joined(
    alloc: Global,
    scope: &[Scoped],
    before: OpenCondition,
    next: &Joined,
) -> Result<OpenCondition, BindFault>
    ensures checks { Checks bind_tells (unit_checks scope.now (joined_unit next.now)) result }
    ensures bound { IfOk result (λ r. condition_view r ≡ next_read scope.now (condition_view before) next.now) }
{
    match next {
        Joined::And(next) => {
            let next = unit(alloc, scope, next)?;
            Ok(make::behind_and(alloc, before, next)?)
        }
        Joined::Or(next) => {
            let next = unit(alloc, scope, next)?;
            Ok(make::behind_or(before, next)?)
        }
    }
}

/// A condition, with its names bound.
#[cycle(walk)]
#[tactic(auto, using(crate::proofs::ConditionLemmas::walking))]
pub(crate) fn cond(alloc: Global, scope: &[Scoped], cond: &Cond) -> Result<Condition, BindFault>
    ensures checks { Checks bind_tells (cond_checks scope.now (cond_tree cond.now)) result }
    ensures bound { IfOk result (λ c. condition_of c ≡ bound_cond scope.now (cond_tree cond.now)) }
{
    match cond {
        Cond::Units(first, more) => {
            let more = more.as_slice();
            let first = unit(alloc, scope, first)?;
            let mut read = make::first_read(alloc, first);
            for next in more {
                read = joined(alloc, scope, read, next)?;
            }
            Ok(make::finished(read)?)
        }
    }
}
