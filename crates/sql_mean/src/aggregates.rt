ghost use Rattle.std.specs.Prelude.{◌≡◌, ◌+ℤ◌, map, FitsSigned, IfOk, IfErr, IsOk, pos, length};
ghost use Rattle.std.specs.Int.{w128};
ghost use Rattle.qsr_value.specs.declared.row.Value.TheVariants as value;
ghost use Rattle.sql_front.specs.declared.words.Aggregate.TheVariants as aggregate;
ghost use Rattle.sql_mean.specs.Fits.{FoldFits, SumsFit};
ghost use Rattle.qsr_value.specs.Ordered.{compare_values};
ghost use Rattle.sql_mean.specs.Meaning.{folded, greater, lesser, no_value, value_number, sum_of, value_at};
ghost use Rattle.sql_mean.specs.declared.fault.AnswerFault.TheVariants as fault;

use crate::AnswerFault;
use crate::places::value_at;
use crate::rows::Joined;
use qsr_value::{Memory, TryCopy, Value, cmp_values};
use sql_bind::BoundColumn;
use sql_front::Aggregate;
use std::alloc::Global;
use std::cmp::Ordering;

/// The number that a value is; 0 where it is a text.
fn value_number(value: &Value) -> i128
    ensures { result ≡ value_number value.now }
{
    match value {
        Value::Int(number) => *number,
        Value::Text(_) => 0,
    }
}

/// A sum with the number of one value more.
fn added(sum: i128, value: &Value) -> Result<i128, AnswerFault>
    ensures sum { IfOk result (λ more. more ≡ sum +ℤ value_number value.now) }
    ensures in_range { IfOk result (λ more. FitsSigned w128 more) }
    ensures fits { FitsSigned w128 (sum +ℤ value_number value.now) → IsOk result }
{
    match sum.checked_add(value_number(value)) {
        Some(more) => Ok(more),
        None => Err(AnswerFault::SumTooWide),
    }
}

/// The sum of a column, from the first row on. A value that isn't there is this one, which is to be 0.
fn sum_there(envs: &[Joined], column: BoundColumn, zero: &Value) -> Result<i128, AnswerFault>
    ensures sum { zero.now ≡ no_value → IfOk result (λ sum. sum ≡ sum_of (map (λ env. value_at env column) envs.now)) }
    ensures fits { zero.now ≡ no_value → SumsFit (map (λ env. value_at env column) envs.now) → IsOk result }
{
    let mut sum = 0i128;
    for env in envs {
        sum = added(sum, value_at(env.as_slice(), column, zero))?;
    }
    Ok(sum)
}

/// The sum of a column, from the first row on.
fn sum(envs: &[Joined], column: BoundColumn) -> Result<i128, AnswerFault>
    ensures sum { IfOk result (λ sum. sum ≡ sum_of (map (λ env. value_at env column) envs.now)) }
    ensures fits { SumsFit (map (λ env. value_at env column) envs.now) → IsOk result }
{
    let zero = Value::Int(0);
    sum_there(envs, column, &zero)
}

/// The first of two values, unless the second is less.
fn lesser<'v>(a: &'v Value, b: &'v Value) -> &'v Value
    ensures { result.now ≡ lesser a.now b.now (compare_values a.now b.now) }
{
    match cmp_values(a, b) {
        Ordering::Greater => b,
        Ordering::Less | Ordering::Equal => a,
    }
}

/// The first of two values, unless the second is greater.
fn greater<'v>(a: &'v Value, b: &'v Value) -> &'v Value
    ensures { result.now ≡ greater a.now b.now (compare_values a.now b.now) }
{
    match cmp_values(a, b) {
        Ordering::Less => b,
        Ordering::Greater | Ordering::Equal => a,
    }
}

/// The first of the least values of a column; this one, which is to be 0, where there is none.
fn least_there<'v>(envs: &'v [Joined], column: BoundColumn, zero: &'v Value) -> &'v Value
    ensures { zero.now ≡ no_value → result.now ≡ folded aggregate.Min (map (λ env. value_at env column) envs.now) }
{
    let Some((first, others)) = envs.split_first() else {
        return zero;
    };
    let mut least = value_at(first.as_slice(), column, zero);
    for env in others {
        least = lesser(least, value_at(env.as_slice(), column, zero));
    }
    least
}

/// The first of the greatest values of a column; this one, which is to be 0, where there is none.
fn greatest_there<'v>(envs: &'v [Joined], column: BoundColumn, zero: &'v Value) -> &'v Value
    ensures { zero.now ≡ no_value → result.now ≡ folded aggregate.Max (map (λ env. value_at env column) envs.now) }
{
    let Some((first, others)) = envs.split_first() else {
        return zero;
    };
    let mut greatest = value_at(first.as_slice(), column, zero);
    for env in others {
        greatest = greater(greatest, value_at(env.as_slice(), column, zero));
    }
    greatest
}

/// The first of the least values of a column.
fn least(alloc: Global, envs: &[Joined], column: BoundColumn) -> Result<Value, Memory>
    ensures { IfOk result (λ least. least ≡ folded aggregate.Min (map (λ env. value_at env column) envs.now)) }
{
    let zero = Value::Int(0);
    least_there(envs, column, &zero).copy(alloc)
}

/// The first of the greatest values of a column.
fn greatest(alloc: Global, envs: &[Joined], column: BoundColumn) -> Result<Value, Memory>
    ensures { IfOk result (λ greatest. greatest ≡ folded aggregate.Max (map (λ env. value_at env column) envs.now)) }
{
    let zero = Value::Int(0);
    greatest_there(envs, column, &zero).copy(alloc)
}

/// An aggregate of a column.
pub(crate) fn folded(
    alloc: Global,
    how: Aggregate,
    envs: &[Joined],
    column: BoundColumn,
) -> Result<Value, AnswerFault>
    ensures value { IfOk result (λ value. value ≡ folded how (map (λ env. value_at env column) envs.now)) }
    ensures fits { FoldFits how (map (λ env. value_at env column) envs.now) → IfErr result (λ e. e ≡ fault.Memory) }
{
    match how {
        Aggregate::Sum => Ok(Value::Int(sum(envs, column)?)),
        Aggregate::Min => Ok(least(alloc, envs, column)?),
        Aggregate::Max => Ok(greatest(alloc, envs, column)?),
    }
}
