// Whole numbers as texts.

ghost use Rattle.std.specs.Prelude.{◌≡◌};
ghost use Rattle.std.specs.Char.{is_ascii_digit};
ghost use Rattle.std.specs.List.{list_all};
ghost use Rattle.qsr_value.specs.Number.{count_of, is_digits, number_of, without_minus};

use std::str;

/// How many digits a number with a sign has at most.
pub const MAX_SIGNED_DIGITS: usize = 19;

/// How many digits a number without a sign has at most.
pub const MAX_DIGITS: usize = 20;

/// The text without the minus that may stand before its digits.
fn without_minus(text: &[u8]) -> &[u8]
    ensures { result.now ≡ without_minus text.now }
{
    match text {
        [b'-', digits @ ..] => digits,
        _ => text,
    }
}

fn all_digits(text: &[u8]) -> bool
    ensures { result ≡ list_all is_ascii_digit text.now }
{
    text.iter().all(u8::is_ascii_digit)
}

/// Whether these are decimal digits, one or more and at most so many.
fn is_digits(most: usize, text: &[u8]) -> bool
    ensures { result ≡ is_digits most text.now }
{
    !text.is_empty() && text.len() <= most && all_digits(text)
}

/// A number of 64 bits, as an optional `-` and 1 to 19 digits.
pub fn number_of(text: &[u8]) -> Option<i64>
    ensures { result ≡ number_of text.now }
{
    if !is_digits(MAX_SIGNED_DIGITS, without_minus(text)) {
        return None;
    }
    match str::from_utf8(text) {
        Ok(text) => text.parse().ok(),
        Err(_) => None,
    }
}

/// A number of 64 bits without a sign, as 1 to 20 digits.
pub fn count_of(text: &[u8]) -> Option<u64>
    ensures { result ≡ count_of text.now }
{
    if !is_digits(MAX_DIGITS, text) {
        return None;
    }
    match str::from_utf8(text) {
        Ok(text) => text.parse().ok(),
        Err(_) => None,
    }
}
