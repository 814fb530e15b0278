// Laws of the definitions, over all grammars and machines. A grammar whose types are no types of code has the same by the lemmas
// that prove them.

ghost use Rattle.std.specs.Prelude.{◌≡◌, ◌↔◌, ◌⊎◌, ◌++◌, List, Option, None, Result};
ghost use Rattle.grammar_laws.specs.Checks.{Check, first_refusal, or_later};
ghost use Rattle.grammar_laws.specs.Machine.{Machine, Parses, Read, Stopped, run, run_of};
ghost use Rattle.grammar_laws.specs.Reading.{CanGoOn, Found, IsText, LiteralsFit, Only, OnlyRefused, Refusal, Refused, Refuses, whats};

/// The machine comes to a tree's state exactly over the tree's text.
pub fn reads_exactly<What, Token, Tree, State>()
    ensures { (m : Machine What Token Tree State) (tree : Tree) (ts : List Token)
        → (run_of m ts ≡ Read (m.ended tree)) ↔ IsText m.spell (whats m.words ts) tree }
{}

/// It stops with a refusal exactly where the tokens are refused so.
pub fn stops_exactly<What, Token, Tree, State>()
    ensures { (m : Machine What Token Tree State) (told : Refusal) (ts : List Token)
        → (run_of m ts ≡ Stopped told) ↔ Refuses m.words m.spell ts told }
{}

/// No two trees have one text.
pub fn one_text<What, Token, Tree, State>()
    ensures { (m : Machine What Token Tree State) (tree other : Tree) (ts : List Token)
        → IsText m.spell (whats m.words ts) tree → IsText m.spell (whats m.words ts) other → tree ≡ other }
{}

/// Tokens are refused in one way.
pub fn one_refusal<What, Token, Tree, State>()
    ensures { (m : Machine What Token Tree State) (told other : Refusal) (ts : List Token)
        → Refuses m.words m.spell ts told → Refuses m.words m.spell ts other → told ≡ other }
{}

/// Tokens can go on, or they are refused.
pub fn goes_or_refused<What, Token, Tree, State>()
    ensures one { (m : Machine What Token Tree State) (ts : List Token)
        → CanGoOn m.spell (whats m.words ts) ⊎ ((told : Refusal) × Refuses m.words m.spell ts told) }
    ensures not_both { (m : Machine What Token Tree State) (told : Refusal) (ts : List Token)
        → CanGoOn m.spell (whats m.words ts) → Refuses m.words m.spell ts told → ⊥ }
{}

/// Tokens that can go on have no literal outside 128 signed bits.
pub fn fits_in_text<What, Token, Tree, State>()
    ensures { (m : Machine What Token Tree State) (ts : List Token) → CanGoOn m.spell (whats m.words ts) → LiteralsFit m.words None (whats m.words ts) }
{}

/// A parser that goes as the machine does keeps its contract.
pub fn parser_contract<What, Token, Tree, State, Value, Fault>()
    ensures { (m : Machine What Token Tree State) (tree_of : Value → Tree) (tells : Fault → Option Refusal) (ts : List Token) (result : Result Value Fault)
        → Parses tells (run m.words.what m.step m.limits m.answer) m.start m.ended tree_of ts result
        → Found m.words m.spell tree_of tells ts result × Only m.words m.spell tree_of tells ts result
        × Refused m.words m.spell tree_of tells ts result × OnlyRefused m.words m.spell tree_of tells ts result }
{}

/// The first refusal of two lists of checks is that of the first list, if it has one.
pub fn first_of_both<Told>()
    ensures { (first later : List (Check Told)) → first_refusal (first ++ later) ≡ or_later (first_refusal first) (first_refusal later) }
{}
