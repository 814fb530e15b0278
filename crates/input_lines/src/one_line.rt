ghost use Rattle.std.specs.Prelude.{◌≡◌, ℕ, ◌<◌, ◌≤◌, Err, IfErr, IfOk, MatchResult, Ok, length};
ghost use Rattle.std.specs.Io.KnownBytes.{IsAtEnd, prepend_known};
ghost use Rattle.std.specs.Str.{is_utf8};
ghost use Rattle.input_lines.specs.OneLine.{IsLineFault, IsOnlyLine, LineCause, text_or_one};
ghost use Rattle.input_lines.specs.NextLine.{BeginsWholeTold};
ghost use Rattle.qsr_value.specs.declared.limits.TheConstants.{MAX_LINE};

use crate::line_buffer::LineBuffer;
use crate::line_fault::LineFault;
use crate::line_text::without_cr;
use crate::next_line::NextLine;
use qsr_io::{Failed, Source};
use qsr_value::Txt;
use std::alloc::Global;
use std::str;

/// Reads the whole input, and gives the text of its one line. An empty input is an empty line.
pub fn read_one_line<S: Source>(alloc: Global, source: &mut S) -> Result<Txt, LineFault>
    ensures line { IfOk result (λ text. IsOnlyLine (S.left source.old) (Ok text) × IsAtEnd (S.left source.new)) }
    ensures short { IfOk result (λ text. length text ≤ MAX_LINE) }
    ensures none { IfErr result (IsLineFault (IsOnlyLine (S.left source.old))) }
    ensures cause { MatchResult result (λ _. S.faults_of source.new ≡ S.faults_of source.old)
        (λ fault. LineCause fault (S.faults_of source.old) (S.faults_of source.new)) }
{
    let mut lines = LineBuffer::new(alloc)?;
    match lines.next_line(source) {
        Ok(NextLine::Whole { len }) => whole_line(alloc, &mut lines, len, source),
        Ok(NextLine::TooLong) => Err(LineFault::BadLine { number: 1 }),
        Ok(NextLine::Unended) => first_text(alloc, lines.as_slice()),
        Ok(NextLine::End) => first_text(alloc, b""),
        Err(Failed) => Err(LineFault::Failed),
    }
}

/// The text of the line of `len` bytes that the held input begins with, where nothing stands behind its LF.
fn whole_line<S: Source>(
    alloc: Global,
    lines: &mut LineBuffer,
    len: usize,
    source: &mut S,
) -> Result<Txt, LineFault>
    requires within { len < length lines.old }
    requires short { len ≤ MAX_LINE }
    ensures line { IfOk result (λ text. BeginsWholeTold len lines.old (S.left source.old)
        → IsOnlyLine (prepend_known lines.old (S.left source.old)) (Ok text) × IsAtEnd (S.left source.new)) }
    ensures short { IfOk result (λ text. length text ≤ MAX_LINE) }
    ensures none { IfErr result (λ fault. BeginsWholeTold len lines.old (S.left source.old)
        → IsLineFault (IsOnlyLine (prepend_known lines.old (S.left source.old))) fault) }
    ensures cause { MatchResult result (λ _. S.faults_of source.new ≡ S.faults_of source.old)
        (λ fault. LineCause fault (S.faults_of source.old) (S.faults_of source.new)) }
{
    let text = first_text(alloc, without_cr(&lines.as_slice()[..len]))?;
    lines.consume(len + 1);
    match lines.next_line(source) {
        Ok(next) => alone(text, next),
        Err(Failed) => Err(LineFault::Failed),
    }
}

/// The text of the first line, where this comes next.
fn alone(text: Txt, next: NextLine) -> Result<Txt, LineFault>
    ensures alone { IfOk result (λ same. (same ≡ text) × (next ≡ NextLine.End)) }
    ensures none { IfErr result (λ fault. (fault ≡ LineFault.BadLine 2) × (next ≡ NextLine.End → ⊥)) }
{
    match next {
        NextLine::End => Ok(text),
        NextLine::Whole { .. } => Err(LineFault::BadLine { number: 2 }),
        NextLine::TooLong => Err(LineFault::BadLine { number: 2 }),
        NextLine::Unended => Err(LineFault::BadLine { number: 2 }),
    }
}

/// The text of the first line, which is to be UTF-8.
fn first_text(alloc: Global, bytes: &[u8]) -> Result<Txt, LineFault>
    ensures text { IfOk result (λ text. text ≡ bytes.now) }
    ensures read { IfOk result (λ text. text_or_one (is_utf8 bytes.now) bytes.now ≡ Ok text) }
    ensures none { IfErr result (IsLineFault (λ read. text_or_one (is_utf8 bytes.now) bytes.now ≡ read)) }
    ensures cause { IfErr result (λ fault. (source : ℕ) → LineCause fault source source) }
{
    match str::from_utf8(bytes) {
        Ok(text) => owned(alloc, text),
        Err(_) => Err(LineFault::BadLine { number: 1 }),
    }
}

/// A text of its own.
fn owned(alloc: Global, text: &str) -> Result<Txt, LineFault>
    ensures text { IfOk result (λ same. same ≡ text.now) }
    ensures none { IfErr result (λ fault. fault ≡ LineFault.Memory) }
{
    Ok(Txt::from_str(alloc, text)?)
}
