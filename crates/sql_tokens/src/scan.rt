ghost use Rattle.std.specs.Prelude.{◌≡◌, ◌+◌, ◌<◌, ◌≤◌, ◌^◌, length, drop, slice_index, IfSome, false, not, ◌&&◌, ◌==◌};
ghost use Rattle.std.specs.Char.{is_ascii_digit};
ghost use Rattle.std.specs.List.{prefix_len};
ghost use Rattle.sql_tokens.specs.Words as spec;
ghost use Rattle.sql_tokens.specs.Text.{text_length};
ghost use Rattle.sql_tokens.specs.Tokens.{word_at, number_token_at, text_of, less_at, more_at, sign_of, sign_at, token_at};

use crate::What;
use crate::words::word_of;

/// What a token is, and how many bytes it has.
type Scanned = (What, usize);

fn is_blank(b: u8) -> bool
    ensures { result ≡ spec.is_blank b }
{
    b == b' ' || b == b'\t'
}

pub(crate) fn begins_name(b: u8) -> bool
    ensures { result ≡ spec.begins_name b }
{
    b.is_ascii_alphabetic() || b == b'_'
}

fn in_name(b: u8) -> bool
    ensures { result ≡ spec.in_name b }
{
    begins_name(b) || b.is_ascii_digit()
}

/// How many blanks stand at the front.
pub(crate) fn count_blanks(bytes: &[u8]) -> usize
    ensures value { result ≡ prefix_len spec.is_blank bytes.now }
    ensures within { result ≤ length bytes.now }
{
    bytes.iter().take_while(|b| is_blank(**b)).count()
}

fn count_letters(bytes: &[u8]) -> usize
    ensures value { result ≡ prefix_len spec.in_name bytes.now }
    ensures within { result ≤ length bytes.now }
{
    bytes.iter().take_while(|b| in_name(**b)).count()
}

fn count_digits(bytes: &[u8]) -> usize
    ensures value { result ≡ prefix_len is_ascii_digit bytes.now }
    ensures within { result ≤ length bytes.now }
{
    bytes.iter().take_while(|b| b.is_ascii_digit()).count()
}

/// The value of digits, and 2^128 - 1 for a greater one.
fn number_token(digits: &[u8]) -> What
    ensures { result ≡ spec.number_token digits.now }
{
    let mut value: u128 = 0;
    for b in digits {
        value = value
            .saturating_mul(10)
            .saturating_add(b.saturating_sub(b'0') as u128);
    }
    What::Number(value)
}

fn word_at(bytes: &[u8]) -> Scanned
    ensures value { result ≡ word_at bytes.now }
    ensures within { result.1 ≤ length bytes.now }
{
    let (letters, _) = bytes.split_at(count_letters(bytes));
    (word_of(letters), letters.len())
}

fn number_at(bytes: &[u8]) -> Scanned
    ensures value { result ≡ number_token_at bytes.now }
    ensures within { result.1 ≤ length bytes.now }
{
    let (digits, _) = bytes.split_at(count_digits(bytes));
    (number_token(digits), digits.len())
}

/// Whether a text has ended right before this byte.
fn is_behind(marked: bool, b: u8) -> bool
    ensures { result ≡ (marked && not (b == 39)) }
{
    marked && b != b'\''
}

/// Whether this byte is a mark that may be a text's last.
pub(crate) fn is_open_mark(marked: bool, b: u8) -> bool
    ensures { result ≡ (b == 39 && not marked) }
{
    b == b'\'' && !marked
}

/// How many bytes of a text stand behind its first mark.
fn text_length(rest: &[u8]) -> Option<usize>
    ensures value { result ≡ text_length false rest.now }
    ensures within { IfSome result (λ n. n ≤ length rest.now) }
{
    let mut marked = false;
    let mut at = 0;
    while at < rest.len() {
        if is_behind(marked, rest[at]) {
            return Some(at);
        }
        marked = is_open_mark(marked, rest[at]);
        at += 1;
    }
    if marked { Some(at) } else { None }
}

fn text_at(rest: &[u8]) -> Scanned
    requires { 1 + length rest.now < 2 ^ 32 }
    ensures value { result ≡ text_of (text_length false rest.now) }
    ensures moves { 0 < result.1 }
    ensures within { result.1 ≤ 1 + length rest.now }
{
    match text_length(rest) {
        Some(behind) => (What::Text((1 + behind) as u32), 1 + behind),
        None => (What::Bad, 1),
    }
}

fn less_at(next: u8) -> Scanned
    ensures { result ≡ less_at next }
{
    match next {
        b'>' => (What::Unequal, 2),
        b'=' => (What::AtMost, 2),
        _ => (What::Less, 1),
    }
}

fn more_at(next: u8) -> Scanned
    ensures { result ≡ more_at next }
{
    match next {
        b'=' => (What::AtLeast, 2),
        _ => (What::More, 1),
    }
}

fn sign_of(b: u8) -> What
    ensures { result ≡ sign_of b }
{
    match b {
        b',' => What::Comma,
        b'.' => What::Dot,
        b'(' => What::Open,
        b')' => What::Close,
        b'*' => What::Star,
        b'=' => What::Equal,
        b'-' => What::Minus,
        b';' => What::Semicolon,
        _ => What::Bad,
    }
}

fn front(bytes: &[u8]) -> u8
    ensures { result ≡ slice_index bytes.now 0 }
{
    if bytes.is_empty() { 0 } else { bytes[0] }
}

fn sign_at(b: u8, rest: &[u8]) -> Scanned
    ensures value { result ≡ sign_at b rest.now }
    ensures moves { 0 < result.1 }
    ensures within { result.1 ≤ 1 + length rest.now }
{
    match b {
        b'<' => less_at(front(rest)),
        b'>' => more_at(front(rest)),
        _ => (sign_of(b), 1),
    }
}

/// The token at the front, where no blank stands.
// Inlined, so that a sign, which is one byte, costs no call.
#[inline(always)]
pub(crate) fn token_at(bytes: &[u8]) -> Scanned
    requires some { 0 < length bytes.now }
    requires fits { length bytes.now < 2 ^ 32 }
    ensures value { result ≡ token_at (slice_index bytes.now 0) (drop 1 bytes.now) }
    ensures moves { 0 < result.1 }
    ensures within { result.1 ≤ length bytes.now }
{
    let first = bytes[0];
    if begins_name(first) {
        return word_at(bytes);
    }
    if first.is_ascii_digit() {
        return number_at(bytes);
    }
    let (_, rest) = bytes.split_at(1);
    if first == b'\'' {
        return text_at(rest);
    }
    sign_at(first, rest)
}
