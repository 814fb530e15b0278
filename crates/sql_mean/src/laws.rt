// Laws of the meaning, in the words of SQL.

ghost use Rattle.std.specs.Prelude.{◌≡◌, ◌∷◌, ◌++◌, [], ℕ, true, filter, length, List, map};
ghost use Rattle.std.specs.Cmp.{IsStrictWeakOrder, IsTotalOrder};
ghost use Rattle.std.specs.List.{sum_by};
ghost use Rattle.std.specs.List.Sorted.{IsPermutation, IsStableBy};
ghost use Rattle.qsr_lists.specs.Lists.{IsEquality, groups, product, sorted};
ghost use Rattle.sql_bind.specs.Bound.{Bound, BoundSelect, Condition, Conditions, all_of, and_then, any_of, compared, none, opposite};
ghost use Rattle.sql_bind.specs.declared.bound.BoundColumn.{BoundColumn};
ghost use Rattle.sql_bind.specs.declared.bound.BoundKey.{BoundKey};
ghost use Rattle.sql_bind.specs.declared.bound.JoinedBy.TheVariants as by;
ghost use Rattle.sql_bind.specs.declared.bound.Operand.{Operand};
ghost use Rattle.sql_front.specs.declared.words.Comparison.TheVariants as op;
ghost use Rattle.sql_mean.specs.Laws.{both, conjuncts, opposites_of_each, plain_tables, union_all, with_join, with_where};
ghost use Rattle.sql_mean.specs.Meaning.{IsAnswer, Joined, Lists, all_hold, bag, compare_rows, distinct_rows, holds, is_before, joined_all, joined_with, key_of, rows_at, select_bag, stable_answer};
ghost use Rattle.sql_mean.specs.Rows.{Row, same_row};

/// A condition that is always true changes nothing, as `x = x`, `1 = 1` and an AND of nothing.
pub fn a_true_condition_changes_nothing()
    ensures conjunct { (cs : Conditions) (c : Condition) (env : Joined) → holds env c ≡ true → all_hold env (and_then cs c) ≡ all_hold env cs }
    ensures equal { (side : Operand) (env : Joined) → holds env (compared side op.Equal side) ≡ true }
    ensures nothing { (env : Joined) → holds env (all_of none) ≡ true }
{}

/// Conjuncts in another order keep the same rows, so that the conjuncts of WHERE may stand in any order.
pub fn conjuncts_in_any_order()
    ensures rows { (cs ds : List Condition) (envs : List Joined) → IsPermutation cs ds
        → filter (λ env. all_hold env (conjuncts none cs)) envs ≡ filter (λ env. all_hold env (conjuncts none ds)) envs }
    ensures bag { (tables : Lists) (s : BoundSelect) (cs ds : List Condition) → IsPermutation cs ds
        → select_bag tables (with_where s (conjuncts none cs)) ≡ select_bag tables (with_where s (conjuncts none ds)) }
{}

/// NOT of an OR is an AND of NOTs, and NOT twice is nothing.
pub fn nots_turn_conditions_round()
    ensures twice { (c : Condition) (env : Joined) → holds env (opposite (opposite c)) ≡ holds env c }
    ensures or { (cs : Conditions) (env : Joined) → holds env (opposite (any_of cs)) ≡ holds env (all_of (opposites_of_each cs)) }
{}

/// FROM without conditions is the product of its tables.
pub fn from_is_the_product()
    ensures { (tables : Lists) (numbers : List ℕ) → joined_all tables (plain_tables numbers) ([] ∷ []) ≡ product (map (rows_at tables) numbers) }
{}

/// What stands in ON of a plain JOIN that ends FROM may stand in WHERE.
pub fn on_of_the_last_table_may_stand_in_where()
    ensures { (tables : Lists) (s : BoundSelect) (number : ℕ) (on wheres : Conditions)
        → select_bag tables (with_where (with_join s number on) wheres) ≡ select_bag tables (with_where (with_join s number none) (both on wheres)) }
{}

/// Each row is kept by a semi join or by the anti join of the same table and conditions, and by one of them alone.
pub fn semi_and_anti_divide_the_rows()
    ensures { (rows : List Row) (on : Conditions) (envs : List Joined)
        → IsPermutation (map (λ env. env ++ [] ∷ []) envs) (joined_with by.Semi rows on envs ++ joined_with by.Anti rows on envs) }
{}

/// UNION ALL puts the rows of one select more behind those of a query.
pub fn union_all_puts_bags_together()
    ensures { (tables : Lists) (q : Bound) (s : BoundSelect) → bag tables (union_all q s) ≡ bag tables q ++ select_bag tables s }
{}

/// DISTINCT twice is once.
pub fn distinct_twice_is_once()
    ensures { (rows : List Row) → distinct_rows true (distinct_rows true rows) ≡ distinct_rows true rows }
{}

/// The rows of all groups are those that were grouped: their counts add up to how many there are.
pub fn groups_hold_all_rows()
    ensures { (columns : List BoundColumn) (envs : List Joined) → sum_by (λ g. length g.1) (groups same_row (key_of columns) envs) ≡ length envs }
{}

/// Two rows are the same exactly where they are equal.
pub fn same_rows_are_equal()
    ensures { IsEquality same_row }
{}

/// ORDER BY is an order: any two rows compare by its keys, in one way.
pub fn order_by_is_an_order()
    ensures keys { (keys : List BoundKey) → IsTotalOrder (compare_rows keys) }
    ensures test { (keys : List BoundKey) → IsStrictWeakOrder (is_before keys) }
{}

/// Rows that no key tells apart stay in the order in which they stood.
pub fn ties_stay_in_order()
    ensures { (keys : List BoundKey) (rows : List Row) → IsStableBy (is_before keys) rows (sorted (is_before keys) rows) }
{}

/// The answer in which rows that tie stay as they stood is an answer.
pub fn a_stable_answer_is_an_answer()
    ensures { (tables : Lists) (q : Bound) → IsAnswer tables q (stable_answer tables q) }
{}
