ghost use Rattle.std.specs.Prelude.{◌≡◌, ◌<◌, ◌≤◌, ◌+◌, [], false, length, IfOk, OnOk};
ghost use Rattle.sql_tokens.specs.Tokens.{is_last};
ghost use Rattle.sql_tokens.specs.declared.token.Keyword.TheVariants as keyword;
ghost use Rattle.sql_tokens.specs.declared.token.What.TheVariants as what;
ghost use Rattle.sql_front.specs.Machine.{SideK, left_k, right_k, UnitK, CondK, paren_k, not_k, negated, want, want_cond, begin_side, follow_left, follow_side, follow_cond, open_unit, open_cond};
ghost use Rattle.sql_front.specs.Reads.{Leads, runs, runs_on, follow_unit, nots_k, joint_of, joined_last, comparison_of};
ghost use Rattle.sql_front.specs.Tree as grammar;
ghost use Rattle.sql_front.specs.Tree.{CondTree, negative, group};
ghost use Rattle.sql_front.specs.View.{number_tree, side_tree, predicate_tree, next_unit, cond_tree};

use crate::columns::column;
use crate::input::{Input, is_wide};
use crate::lists::{Gathered, with_room};
use crate::tree::{Cond, Joined, NameAt, NumberAt, Predicate, Side};
use crate::words::Comparison;
use crate::{ParseFault, make};
use sql_tokens::{Keyword, Token, What};
use std::alloc::{AllocError, Global};

/// How many parentheses and NOTs may be open at once.
const MOST_OPEN: u8 = 64;

/// The fewest bytes that a further unit takes with the word that joins it, as `OR 1=1 `.
const LEAST_UNIT: usize = 7;

/// How many places a list of units keeps, used or not. They are fewer than those of other lists, since a unit is large; a text of
/// 200 bytes takes no more.
const MOST_UNITS_KEPT: usize = 32;

/// A word that joins a further unit.
#[derive(Clone, Copy)]
enum Joint {
    And,
    Or,
}

/// A side of a comparison.
fn side(alloc: Global, input: &mut Input) -> Result<Side, ParseFault>
    ensures led { (k : SideK) → Leads (runs_on (begin_side k)) input.old result (λ s. runs_on (follow_side (side_tree s) k)) input.new }
    ensures shorter { OnOk result (length input.new.rest < length input.old.rest) }
{
    let Token { what, at } = input.peek();
    match what {
        What::Name(name) => {
            input.advance();
            Ok(Side::Column(column(input, NameAt { name, at })?))
        }
        What::Number(value) if !is_wide(false, value) => {
            input.advance();
            Ok(Side::Number(NumberAt { value, at }))
        }
        What::Minus => {
            input.advance();
            let number = negated(input, at)?;
            Ok(Side::Negative(at, number))
        }
        What::Text(length) => {
            let bytes = input.text_value(alloc, at, length)?;
            input.advance();
            Ok(Side::Text(bytes))
        }
        _ => Err(input.refuse(None)),
    }
}

/// The number behind a `-` at this place.
fn negated(input: &mut Input, minus: u32) -> Result<NumberAt, ParseFault>
    ensures led { (k : SideK) → Leads (runs (negated minus k)) input.old result (λ n. runs_on (follow_side (negative minus (number_tree n)) k)) input.new }
    ensures shorter { OnOk result (length input.new.rest < length input.old.rest) }
{
    let Token { what, at } = input.peek();
    match what {
        What::Number(value) if !is_wide(true, value) => {
            input.advance();
            Ok(NumberAt { value, at })
        }
        _ => Err(input.refuse(Some(minus))),
    }
}

/// The operator that this is.
fn comparison_of(what: What) -> Option<Comparison>
    ensures { result ≡ comparison_of what }
{
    match what {
        What::Equal => Some(Comparison::Equal),
        What::Unequal => Some(Comparison::Unequal),
        What::Less => Some(Comparison::Less),
        What::AtMost => Some(Comparison::AtMost),
        What::More => Some(Comparison::More),
        What::AtLeast => Some(Comparison::AtLeast),
        _ => None,
    }
}

/// The operator behind a left side, and its place.
fn operator(input: &mut Input) -> Result<(Comparison, u32), ParseFault>
    ensures led { (l : grammar.Side) (k : UnitK) → Leads (runs_on (follow_left l k)) input.old result (λ o. runs_on (begin_side (right_k l o.0 o.1 k))) input.new }
    ensures shorter { OnOk result (length input.new.rest < length input.old.rest) }
{
    let Token { what, at } = input.peek();
    let Some(how) = comparison_of(what) else {
        return Err(input.refuse(None));
    };
    input.advance();
    Ok((how, at))
}

/// A comparison of two sides, behind so many NOTs.
#[tactic(auto, using(crate::proofs::ConditionTokens::unit_negated))]
fn compare(alloc: Global, input: &mut Input, nots: u8) -> Result<Predicate, ParseFault>
    ensures led { (k : UnitK) → Leads (runs_on (begin_side (left_k (nots_k nots k)))) input.old result (λ p. runs_on (follow_unit k (predicate_tree p))) input.new }
    ensures shorter { OnOk result (length input.new.rest < length input.old.rest) }
{
    let left = side(alloc, input)?;
    let (how, at) = operator(input)?;
    let right = side(alloc, input)?;
    Ok(make::comparison(nots, left, how, at, right))
}

/// Passes the NOT or `(` here, inside so many of both.
fn open(input: &mut Input, depth: u8) -> Result<(), ParseFault>
    requires most { depth ≤ 64 }
    requires passes { is_last input.old.first.what ≡ false }
    ensures not { (k : UnitK) → open_unit k ≡ depth → input.old.first.what ≡ what.Word keyword.Not
        → Leads (runs (want k)) input.old result (λ _. runs (want (not_k k))) input.new }
    ensures paren { (k : UnitK) → open_unit k ≡ depth → input.old.first.what ≡ what.Open
        → Leads (runs (want k)) input.old result (λ _. runs (want_cond (paren_k k))) input.new }
    ensures within { OnOk result (depth < 64) }
    ensures shorter { OnOk result (length input.new.rest < length input.old.rest) }
{
    if depth == MOST_OPEN {
        return Err(input.refuse(None));
    }
    input.advance();
    Ok(())
}

/// Passes the NOTs here, inside so many parentheses and NOTs, and says how many they are.
fn nots(input: &mut Input, depth: u8) -> Result<u8, ParseFault>
    requires { depth ≤ 64 }
    ensures led { (k : UnitK) → open_unit k ≡ depth → Leads (runs (want k)) input.old result (λ n. runs (want (nots_k n k))) input.new }
    ensures within { IfOk result (λ n. depth + n ≤ 64) }
    ensures all { OnOk result (input.new.first.what ≡ what.Word keyword.Not → ⊥) }
    ensures shorter { OnOk result (length input.new.rest ≤ length input.old.rest) }
{
    let mut count: u8 = 0;
    'nots: while input.peek().what == What::Word(Keyword::Not) {
        open(input, depth + count)?;
        count += 1;
    }
    Ok(count)
}

/// What stands in parentheses behind so many NOTs, once its condition was read.
#[tactic(auto, using(crate::proofs::ConditionTokens::unit_negated))]
fn closed(alloc: Global, input: &mut Input, nots: u8, inner: Cond) -> Result<Predicate, ParseFault>
    ensures led { (k : UnitK) → Leads (runs_on (follow_cond (paren_k (nots_k nots k)) (cond_tree inner))) input.old result (λ p. runs_on (follow_unit k (predicate_tree p))) input.new }
    ensures shorter { OnOk result (length input.new.rest < length input.old.rest) }
{
    close(input)?;
    Ok(make::group(alloc, nots, inner)?)
}

/// The `)` behind a condition.
fn close(input: &mut Input) -> Result<(), ParseFault>
    ensures led { (k : UnitK) (c : CondTree) → Leads (runs_on (follow_cond (paren_k k) c)) input.old result (λ _. runs_on (follow_unit k (group c))) input.new }
    ensures shorter { OnOk result (length input.new.rest < length input.old.rest) }
{
    match input.peek().what {
        What::Close => {
            input.advance();
            Ok(())
        }
        _ => Err(input.refuse(None)),
    }
}

/// The word that this is, if it joins a further unit.
fn joint_of(what: What) -> Option<Joint>
    ensures { result ≡ joint_of what }
{
    match what {
        What::Word(Keyword::And) => Some(Joint::And),
        What::Word(Keyword::Or) => Some(Joint::Or),
        _ => None,
    }
}

/// A unit behind such a word.
fn joined_by(joint: Joint, unit: Predicate) -> Joined
    ensures { (before : CondTree) → next_unit before result ≡ joined_last joint before (predicate_tree unit) }
{
    match joint {
        Joint::And => make::and(unit),
        Joint::Or => make::or(unit),
    }
}

/// An empty list for the units behind a first one. Where none stands there, nothing is allocated.
fn units_behind(alloc: Global, input: &Input) -> Result<Gathered<Joined>, AllocError>
    ensures { IfOk result (λ units. units ≡ []) }
{
    let room = match joint_of(input.peek().what) {
        // The last unit may stand at the end of the text, with no blank behind it.
        Some(_) => input.bytes_left().saturating_add(1) / LEAST_UNIT,
        None => 0,
    };
    with_room(alloc, room)
}

/// A comparison or a condition in parentheses, behind its NOTs, inside so many parentheses and NOTs.
#[cycle(parser)]
fn predicate(alloc: Global, input: &mut Input, depth: u8) -> Result<Predicate, ParseFault>
    requires { depth ≤ 64 }
    ensures led { (k : UnitK) → open_unit k ≡ depth → Leads (runs (want k)) input.old result (λ p. runs_on (follow_unit k (predicate_tree p))) input.new }
    ensures shorter { OnOk result (length input.new.rest < length input.old.rest) }
{
    let many = nots(input, depth)?;
    match input.peek().what {
        What::Open => {
            open(input, depth + many)?;
            let inner = cond(alloc, input, depth + many + 1)?;
            closed(alloc, input, many, inner)
        }
        _ => compare(alloc, input, many),
    }
}

/// A condition inside so many parentheses and NOTs: its first unit, and those that AND and OR join to it.
#[cycle(parser)]
pub(crate) fn cond(alloc: Global, input: &mut Input, depth: u8) -> Result<Cond, ParseFault>
    requires { depth ≤ 64 }
    ensures led { (k : CondK) → open_cond k ≡ depth → Leads (runs (want_cond k)) input.old result (λ c. runs_on (follow_cond k (cond_tree c))) input.new }
    ensures shorter { OnOk result (length input.new.rest < length input.old.rest) }
{
    let first = predicate(alloc, input, depth)?;
    let mut more = units_behind(alloc, &*input)?;
    'units: while let Some(joint) = joint_of(input.peek().what) {
        input.advance();
        let next = predicate(alloc, input, depth)?;
        more.push(joined_by(joint, next))?;
    }
    Ok(make::cond(first, more.into_items(MOST_UNITS_KEPT)))
}
