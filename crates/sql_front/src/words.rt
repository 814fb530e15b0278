ghost use Rattle.std.specs.Prelude.{◌≡◌, OnSome, false};
ghost use Rattle.sql_tokens.specs.Tokens.{is_last};
ghost use Rattle.sql_front.specs.Reads.{word_seen};
ghost use Rattle.sql_front.specs.Seen.{letters_of, seen};
ghost use Rattle.sql_front.specs.Words.{spelled, same_letters, first_spelled, unreserved};

use crate::input::Input;
use sql_tokens::{Name, What};

/// How two sides are compared.
#[derive(Clone, Copy)]
pub enum Comparison {
    Equal,
    Unequal,
    Less,
    AtMost,
    More,
    AtLeast,
}

/// What is computed of a column over the rows of a group.
#[derive(Clone, Copy)]
pub enum Aggregate {
    Sum,
    Min,
    Max,
}

/// A size that an option sets.
#[derive(Clone, Copy)]
pub enum Setting {
    Block,
    Parts,
    Sort,
}

/// A way of joining that an option asks for.
#[derive(Clone, Copy)]
pub enum Method {
    Block,
    Index,
    Merge,
    Hash,
}

/// A word that is a name elsewhere.
#[derive(Clone, Copy)]
pub(crate) enum Unreserved {
    Left,
    Semi,
    Anti,
    Union,
    All,
    Block,
    Parts,
    Sort,
    Use,
    Index,
    Merge,
    Hash,
}

const EVERY_UNRESERVED: [Unreserved; 12] = [
    Unreserved::Left,
    Unreserved::Semi,
    Unreserved::Anti,
    Unreserved::Union,
    Unreserved::All,
    Unreserved::Block,
    Unreserved::Parts,
    Unreserved::Sort,
    Unreserved::Use,
    Unreserved::Index,
    Unreserved::Merge,
    Unreserved::Hash,
];

fn spelled(word: Unreserved) -> &'static [u8]
    ensures { result.now ≡ spelled word }
{
    match word {
        Unreserved::Left => b"left",
        Unreserved::Semi => b"semi",
        Unreserved::Anti => b"anti",
        Unreserved::Union => b"union",
        Unreserved::All => b"all",
        Unreserved::Block => b"block",
        Unreserved::Parts => b"parts",
        Unreserved::Sort => b"sort",
        Unreserved::Use => b"use",
        Unreserved::Index => b"index",
        Unreserved::Merge => b"merge",
        Unreserved::Hash => b"hash",
    }
}

fn same_letters(word: &[u8], letters: &[u8]) -> bool
    ensures { result ≡ same_letters word.now letters.now }
{
    word == letters
}

/// The first of these words that has these letters.
fn first_spelled(words: &[Unreserved], letters: &[u8]) -> Option<Unreserved>
    ensures { result ≡ first_spelled words.now letters.now }
{
    for word in words {
        if same_letters(spelled(*word), letters) {
            return Some(*word);
        }
    }
    None
}

/// The word that a name is where such a word may stand.
#[tactic(auto, unfolding(crate::specs::Words::unreserved))]
pub(crate) fn word_of(name: &Name) -> Option<Unreserved>
    ensures { result ≡ unreserved (letters_of name.now) }
{
    first_spelled(&EVERY_UNRESERVED, name.letters())
}

/// The word that the first token is where such a word may stand.
pub(crate) fn word_ahead(input: &Input) -> Option<Unreserved>
    ensures word { result ≡ word_seen (seen input.now.text input.now.first) }
    ensures name { OnSome result (is_last input.now.first.what ≡ false) }
{
    match input.peek().what {
        What::Name(name) => word_of(&name),
        _ => None,
    }
}
