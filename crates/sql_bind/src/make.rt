ghost use Rattle.std.specs.Prelude.{◌≡◌, IfOk};
ghost use Rattle.sql_bind.specs.Bound as bound;
ghost use Rattle.sql_bind.specs.Gathered as gathered;
ghost use Rattle.sql_bind.specs.Gathered.{condition_view, conjunction_view};
ghost use Rattle.sql_bind.specs.View.{condition_of, conditions_of};

use crate::bound::{Condition, Operand};
use sql_front::Comparison;
use sqlite_items::{Boxed, Items};
use std::alloc::{AllocError, Global};

#[tactic(auto, using(crate::proofs::Making::comparison_is))]
pub(crate) fn compared(left: Operand, how: Comparison, right: Operand) -> Condition
    ensures { condition_of result ≡ bound.compared left how right }
{
    Condition::Compare(left, how, right)
}

#[tactic(auto, using(crate::proofs::Making::opposite_is))]
fn opposite(alloc: Global, inner: Condition) -> Result<Condition, AllocError>
    ensures { IfOk result (λ c. condition_of c ≡ bound.opposite (condition_of inner)) }
{
    Ok(Condition::Not(Boxed::new(alloc, inner)?))
}

/// So many NOTs before a condition.
#[tactic(auto, using(crate::proofs::Making::one_more_opposite))]
pub(crate) fn opposites(alloc: Global, count: u8, inner: Condition) -> Result<Condition, AllocError>
    ensures { IfOk result (λ c. condition_of c ≡ bound.opposites count (condition_of inner)) }
{
    let mut made = inner;
    for _ in 0..count {
        made = opposite(alloc, made)?;
    }
    Ok(made)
}

#[tactic(auto, using(crate::proofs::Making::all_are))]
pub(crate) fn all_of(all: Items<Condition>) -> Condition
    ensures { condition_of result ≡ bound.all_of (conditions_of all) }
{
    Condition::All(all)
}

#[tactic(auto, using(crate::proofs::Making::any_are))]
fn any_of(any: Items<Condition>) -> Condition
    ensures { condition_of result ≡ bound.any_of (conditions_of any) }
{
    Condition::Any(any)
}

/// The units of a conjunction so far.
#[derive(Drop)]
pub(crate) enum OpenConjunction {
    Alone(Condition),
    Several(Items<Condition>),
}

/// A condition so far: the conjunctions that OR has closed, and the last one, which AND may make longer.
#[derive(Drop)]
pub(crate) struct OpenCondition {
    closed: Items<Condition>,
    last: OpenConjunction,
}

pub(crate) fn first_read(alloc: Global, unit: Condition) -> OpenCondition
    ensures { condition_view result ≡ gathered.first_read (condition_of unit) }
{
    let last = OpenConjunction::Alone(unit);
    let closed = Items::from_vec(Vec::new(alloc));
    OpenCondition { closed, last }
}

fn single(alloc: Global, condition: Condition) -> Result<Items<Condition>, AllocError>
    ensures { IfOk result (λ cs. conditions_of cs ≡ bound.and_then bound.none (condition_of condition)) }
{
    let mut conditions = Items::from_vec(Vec::new(alloc));
    conditions.push(condition)?;
    Ok(conditions)
}

fn units_of(alloc: Global, conjunction: OpenConjunction) -> Result<Items<Condition>, AllocError>
    ensures { IfOk result (λ cs. conditions_of cs ≡ gathered.units_of (conjunction_view conjunction)) }
{
    match conjunction {
        OpenConjunction::Alone(unit) => single(alloc, unit),
        OpenConjunction::Several(units) => Ok(units),
    }
}

#[tactic(auto, using(crate::proofs::Making::conditions_push))]
fn with_unit(
    alloc: Global,
    before: OpenConjunction,
    unit: Condition,
) -> Result<OpenConjunction, AllocError>
    ensures { IfOk result (λ c. conjunction_view c ≡ gathered.with_unit (conjunction_view before) (condition_of unit)) }
{
    let mut units = units_of(alloc, before)?;
    units.push(unit)?;
    Ok(OpenConjunction::Several(units))
}

/// One unit alone stands for itself.
fn conjunction(units: OpenConjunction) -> Condition
    ensures { condition_of result ≡ gathered.conjunction (conjunction_view units) }
{
    match units {
        OpenConjunction::Alone(unit) => unit,
        OpenConjunction::Several(units) => all_of(units),
    }
}

/// A conjunction behind those that OR has closed. Without one it stands for itself.
fn disjunction(closed: Items<Condition>, last: Condition) -> Result<Condition, AllocError>
    ensures { IfOk result (λ c. condition_of c ≡ gathered.disjunction (conditions_of closed) (condition_of last)) }
{
    if closed.is_empty() {
        return Ok(last);
    }
    let mut any = closed;
    any.push(last)?;
    Ok(any_of(any))
}

/// One unit more, that AND joins to the last conjunction.
pub(crate) fn behind_and(
    alloc: Global,
    before: OpenCondition,
    unit: Condition,
) -> Result<OpenCondition, AllocError>
    ensures { IfOk result (λ r. condition_view r ≡ gathered.behind_and (condition_view before) (condition_of unit)) }
{
    let last = with_unit(alloc, before.last, unit)?;
    Ok(OpenCondition {
        closed: before.closed,
        last,
    })
}

/// One unit more, with which OR begins a conjunction.
#[tactic(auto, using(crate::proofs::Making::conditions_push))]
pub(crate) fn behind_or(before: OpenCondition, unit: Condition) -> Result<OpenCondition, AllocError>
    ensures { IfOk result (λ r. condition_view r ≡ gathered.behind_or (condition_view before) (condition_of unit)) }
{
    let mut closed = before.closed;
    closed.push(conjunction(before.last))?;
    Ok(OpenCondition {
        closed,
        last: OpenConjunction::Alone(unit),
    })
}

pub(crate) fn finished(read: OpenCondition) -> Result<Condition, AllocError>
    ensures { IfOk result (λ c. condition_of c ≡ gathered.finished (condition_view read)) }
{
    disjunction(read.closed, conjunction(read.last))
}
