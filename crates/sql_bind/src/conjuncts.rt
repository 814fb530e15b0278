ghost use Rattle.std.specs.Prelude.{◌≡◌, OnOk};
ghost use Rattle.sql_bind.specs.Bound.{and_conjuncts, and_parts};
ghost use Rattle.sql_bind.specs.Checks.{cond_checks, bind_tells, unit_checks};
ghost use Rattle.sql_bind.specs.View.{conditions_of, has_or, joined_unit};
ghost use Rattle.sql_front.specs.View.{cond_tree, predicate_tree};
ghost use Rattle.grammar_laws.specs.Checks.{Checks};

use crate::BindFault;
use crate::bound::Condition;
use crate::conditions::{cond as bound_cond, unit as bound_unit};
use crate::scope::Scoped;
use sql_front::{Cond, Joined, Predicate};
use sqlite_items::Items;
use std::alloc::Global;

/// Whether OR joins some of these units to those before them.
fn has_or(more: &[Joined]) -> bool
    ensures { result ≡ has_or more.now }
{
    for next in more {
        if matches!(next, Joined::Or(_)) {
            return true;
        }
    }
    false
}

/// Adds the conjuncts of a condition: it is split at its outermost ANDs, and parentheses around them don't count.
#[cycle(split)]
#[tactic(auto, using(crate::proofs::ConjunctLemmas::splitting))]
pub(crate) fn push_conjuncts(
    alloc: Global,
    scope: &[Scoped],
    cond: &Cond,
    conjuncts: &mut Items<Condition>,
) -> Result<(), BindFault>
    ensures checks { Checks bind_tells (cond_checks scope.now (cond_tree cond.now)) result }
    ensures pushed { OnOk result (conditions_of conjuncts.new ≡ and_conjuncts scope.now (conditions_of conjuncts.old) (cond_tree cond.now)) }
{
    match cond {
        Cond::Units(first, more) => {
            let more = more.as_slice();
            if has_or(more) {
                conjuncts.push(bound_cond(alloc, scope, cond)?)?;
                return Ok(());
            }
            push_unit(alloc, scope, first, conjuncts)?;
            for next in more {
                push_joined(alloc, scope, next, conjuncts)?;
            }
            Ok(())
        }
    }
}

#[cycle(split)]
#[tactic(auto, using(crate::proofs::ConjunctLemmas::splitting))]
fn push_joined(
    alloc: Global,
    scope: &[Scoped],
    next: &Joined,
    conjuncts: &mut Items<Condition>,
) -> Result<(), BindFault>
    ensures checks { Checks bind_tells (unit_checks scope.now (joined_unit next.now)) result }
    ensures pushed { OnOk result (conditions_of conjuncts.new ≡ and_parts scope.now (conditions_of conjuncts.old) (joined_unit next.now)) }
{
    match next {
        Joined::And(unit) | Joined::Or(unit) => push_unit(alloc, scope, unit, conjuncts),
    }
}

#[cycle(split)]
#[tactic(auto, using(crate::proofs::ConjunctLemmas::splitting))]
fn push_unit(
    alloc: Global,
    scope: &[Scoped],
    unit: &Predicate,
    conjuncts: &mut Items<Condition>,
) -> Result<(), BindFault>
    ensures checks { Checks bind_tells (unit_checks scope.now (predicate_tree unit.now)) result }
    ensures pushed { OnOk result (conditions_of conjuncts.new ≡ and_parts scope.now (conditions_of conjuncts.old) (predicate_tree unit.now)) }
{
    match unit {
        Predicate::Group(count, inner) if *count == 0 => {
            push_conjuncts(alloc, scope, inner.get(), conjuncts)
        }
        Predicate::Group(_, _) | Predicate::Compare(_, _, _, _, _) => {
            conjuncts.push(bound_unit(alloc, scope, unit)?)?;
            Ok(())
        }
    }
}
