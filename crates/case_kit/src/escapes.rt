//! Bytes as a line writes them.

use anyhow::{Context, Result, bail};

/// What stands behind a `\`, but for `x`, and the bytes that it means.
const ESCAPES: [(char, &[u8]); 5] = [
    ('n', b"\n"),
    ('r', b"\r"),
    ('t', b"\t"),
    ('0', b"\0"),
    ('e', b""),
];

/// Adds the byte that the two hexadecimal digits at the front mean, and gives what stands behind them.
fn push_digits<'a>(into: &mut Vec<u8>, text: &'a str) -> Result<&'a str> {
    let (digits, rest) = text.split_at_checked(2).context("two digits are missing")?;
    into.push(u8::from_str_radix(digits, 16)?)?;
    Ok(rest)
}

/// Adds what stands behind a `\` and isn't one itself.
fn push_escape(into: &mut Vec<u8>, text: &str) -> Result<()> {
    for (letter, bytes) in &ESCAPES {
        if let Some(rest) = text.strip_prefix(*letter) {
            into.extend_from_slice(bytes)?;
            into.extend_from_slice(rest.as_bytes())?;
            return Ok(());
        }
    }
    let Some(digits) = text.strip_prefix('x') else {
        bail!("no such escape: \\{text}");
    };
    let rest = push_digits(into, digits)?;
    into.extend_from_slice(rest.as_bytes())?;
    Ok(())
}

/// Adds the bytes of a text. `\n`, `\r`, `\t`, `\0`, `\\` and `\xHH` are one byte each, and `\e` is none.
pub fn push_escaped(into: &mut Vec<u8>, text: &str) -> Result<()> {
    let mut is_plain = true;
    for part in text.split('\\') {
        if is_plain {
            into.extend_from_slice(part.as_bytes())?;
            is_plain = false;
        } else if part.is_empty() {
            into.push(b'\\')?;
            is_plain = true;
        } else {
            push_escape(into, part)?;
        }
    }
    Ok(())
}

/// Adds the bytes that pairs of hexadecimal digits mean, with any blanks between pairs.
pub fn push_hex(into: &mut Vec<u8>, text: &str) -> Result<()> {
    for word in text.split(' ') {
        for at in (0..word.len()).step_by(2) {
            let pair = word.get(at..).context("no digits")?;
            push_digits(into, pair)?;
        }
    }
    Ok(())
}
