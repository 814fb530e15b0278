ghost use Rattle.std.specs.Prelude.{◌≡◌, ◌≤◌, length, map};
ghost use Rattle.std.specs.Str.{str_eq_ignore_ascii_case};
ghost use Rattle.sql_tokens.specs.Words as spec;

use crate::{Keyword, Name, What};
use qsr_value::MAX_NAME;

// The reserved words by their length, in small letters: a word is looked for among those of its own length alone.

const OF_TWO: [(&[u8], Keyword); 4] = [
    (b"on", Keyword::On),
    (b"or", Keyword::Or),
    (b"by", Keyword::By),
    (b"as", Keyword::As),
];

const OF_THREE: [(&[u8], Keyword); 6] = [
    (b"and", Keyword::And),
    (b"not", Keyword::Not),
    (b"asc", Keyword::Asc),
    (b"sum", Keyword::Sum),
    (b"min", Keyword::Min),
    (b"max", Keyword::Max),
];

const OF_FOUR: [(&[u8], Keyword); 3] = [
    (b"from", Keyword::From),
    (b"join", Keyword::Join),
    (b"desc", Keyword::Desc),
];

const OF_FIVE: [(&[u8], Keyword); 5] = [
    (b"where", Keyword::Where),
    (b"group", Keyword::Group),
    (b"order", Keyword::Order),
    (b"limit", Keyword::Limit),
    (b"count", Keyword::Count),
];

const OF_SIX: [(&[u8], Keyword); 2] = [(b"select", Keyword::Select), (b"option", Keyword::Option)];

const OF_EIGHT: [(&[u8], Keyword); 1] = [(b"distinct", Keyword::Distinct)];

/// A name of at most 16 letters.
fn name_of(letters: &[u8]) -> Name
    requires { length letters.now ≤ 16 }
    ensures { result ≡ spec.name_of letters.now }
{
    let mut bytes = [0; MAX_NAME];
    for at in 0..letters.len() {
        bytes[at] = letters[at].to_ascii_lowercase();
    }
    Name {
        len: letters.len() as u8,
        bytes,
    }
}

fn same_word(word: &[u8], letters: &[u8]) -> bool
    ensures { result ≡ str_eq_ignore_ascii_case word.now letters.now }
{
    word.eq_ignore_ascii_case(letters)
}

/// The first of these words that has these letters, in any case.
fn keyword_in(words: &[(&[u8], Keyword)], letters: &[u8]) -> Option<Keyword>
    ensures { result ≡ spec.keyword_in (map (λ word. (word.0.now, word.1)) words.now) letters.now }
{
    for word in words {
        if same_word(word.0, letters) {
            return Some(word.1);
        }
    }
    None
}

/// The reserved word that has these letters, in any case.
fn keyword_of(letters: &[u8]) -> Option<Keyword>
    ensures { result ≡ spec.keyword_of letters.now }
{
    match letters.len() {
        2 => keyword_in(&OF_TWO, letters),
        3 => keyword_in(&OF_THREE, letters),
        4 => keyword_in(&OF_FOUR, letters),
        5 => keyword_in(&OF_FIVE, letters),
        6 => keyword_in(&OF_SIX, letters),
        8 => keyword_in(&OF_EIGHT, letters),
        _ => None,
    }
}

/// What these letters are: a reserved word, a name, or too long for a name.
pub(crate) fn word_of(letters: &[u8]) -> What
    ensures { result ≡ spec.word_of letters.now }
{
    match keyword_of(letters) {
        Some(keyword) => What::Word(keyword),
        None if letters.len() <= MAX_NAME => What::Name(name_of(letters)),
        None => What::Bad,
    }
}
