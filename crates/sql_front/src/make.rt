ghost use Rattle.std.specs.Prelude.{◌≡◌, IfOk};
ghost use Rattle.sql_front.specs.Tree.{group, compare};
ghost use Rattle.sql_front.specs.View.{negations, one_cond, and_last, or_last, next_unit, side_tree, predicate_tree, cond_tree, more_joined};

use crate::tree::{Cond, Joined, Predicate, Side};
use crate::words::Comparison;
use sqlite_items::{Boxed, Items};
use std::alloc::{AllocError, Global};

/// A condition in parentheses, behind so many NOTs.
#[tactic(auto, using(crate::proofs::Making::group_tree))]
pub(crate) fn group(alloc: Global, nots: u8, inner: Cond) -> Result<Predicate, AllocError>
    ensures { IfOk result (λ p. predicate_tree p ≡ negations nots (group (cond_tree inner))) }
{
    Ok(Predicate::Group(nots, Boxed::new(alloc, inner)?))
}

/// A comparison behind so many NOTs.
#[tactic(auto, using(crate::proofs::Making::comparison_tree))]
pub(crate) fn comparison(nots: u8, left: Side, how: Comparison, at: u32, right: Side) -> Predicate
    ensures { predicate_tree result ≡ negations nots (compare (side_tree left) how at (side_tree right)) }
{
    Predicate::Compare(nots, left, how, at, right)
}

#[tactic(auto, using(crate::proofs::Making::and_tree))]
pub(crate) fn and(unit: Predicate) -> Joined
    ensures { (before : _) → next_unit before result ≡ and_last before (predicate_tree unit) }
{
    Joined::And(unit)
}

#[tactic(auto, using(crate::proofs::Making::or_tree))]
pub(crate) fn or(unit: Predicate) -> Joined
    ensures { (before : _) → next_unit before result ≡ or_last before (predicate_tree unit) }
{
    Joined::Or(unit)
}

/// A unit and those that AND and OR join to it.
#[tactic(auto, using(crate::proofs::Making::units_are))]
pub(crate) fn cond(first: Predicate, more: Items<Joined>) -> Cond
    ensures { cond_tree result ≡ more_joined (one_cond (predicate_tree first)) more }
{
    Cond::Units(first, more)
}
