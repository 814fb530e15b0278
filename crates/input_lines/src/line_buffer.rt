ghost use Rattle.std.specs.Prelude.{◌≡◌, ◌≢◌, ℕ, ◌+◌, ◌-◌, ◌<◌, ◌≤◌, [], ◌++◌, List, length, take, drop, slice_index, vec_len, All, IfOk, IfSome, IfNone, OnOk, OnErr};
ghost use Rattle.std.specs.Io.KnownBytes.{Consumes, IsAtEnd, Keeps, prepend_known};
ghost use Rattle.qsr_value.specs.Causes.{CountsFault};
ghost use Rattle.input_lines.specs.NextLine.{IsHeld, IsNext, IsNextTold, IsPartial};
ghost use Rattle.qsr_value.specs.declared.limits.TheConstants.{MAX_LINE};

use crate::next_line::NextLine;
use qsr_io::{Failed, Source};
use qsr_value::{MAX_LINE, Memory};
use std::alloc::Global;
use std::marker::Model;

/// How many bytes of the input are held at most: as many as one read brings.
const CAPACITY: usize = 65536;

/// The bytes of an input that were read and not yet taken, which contracts see as a list.
#[derive(Drop)]
pub struct LineBuffer {
    bytes: Vec<u8>,
    start: usize,
    end: usize,
}

impl Model for LineBuffer {
    ghost use Rattle.std.specs.Prelude.{◌≡◌, ℕ, ◌-◌, ◌≤◌, List, length, slice_range, vec_len};
    ghost use Rattle.input_lines.specs.declared.line_buffer.TheConstants.{CAPACITY};

    ghost Value = { List ℕ };

    ghost view = { λ buffer. slice_range buffer.bytes.items buffer.start buffer.end };

    ghost invariant = { λ buffer. (buffer.start ≤ buffer.end) × (buffer.end ≤ CAPACITY) × (vec_len buffer.bytes ≡ CAPACITY) };
}

impl LineBuffer {
    pub fn new(alloc: Global) -> Result<LineBuffer, Memory>
        ensures { IfOk result (λ buffer. buffer ≡ []) }
    {
        Ok(LineBuffer {
            bytes: vec![in alloc; 0; CAPACITY]?,
            start: 0,
            end: 0,
        })
    }

    pub fn as_slice(&self) -> &[u8]
        ensures { result.now ≡ self.now }
    {
        &self.bytes[self.start..self.end]
    }

    /// Takes the first bytes away.
    pub fn consume(&mut self, count: usize)
        requires { count ≤ length self.old }
        ensures { self.new ≡ drop count self.old }
    {
        self.start += count;
    }

    /// Reads once, behind the bytes that are held, and answers how many came. 0 is the end of the input.
    fn fill<S: Source>(&mut self, source: &mut S) -> Result<usize, Failed>
        requires { length self.old ≤ MAX_LINE }
        ensures count { IfOk result (λ count. length self.new ≡ length self.old + count) }
        ensures end { IfOk result (λ count. count ≡ 0 → IsAtEnd (S.left source.new)) }
        ensures same { Keeps (prepend_known self.old (S.left source.old)) (prepend_known self.new (S.left source.new)) }
        ensures err { OnErr result (self.new ≡ self.old) }
        ensures cause { CountsFault result (S.faults_of source.old) (S.faults_of source.new) }
    {
        let held = self.end - self.start;
        move_front(&mut self.bytes, self.start, held);
        self.start = 0;
        self.end = held;
        let count = read_behind(&mut self.bytes, held, source)?;
        self.end += count;
        Ok(count)
    }

    /// The next line as far as the bytes that are held tell it, whatever follows them.
    pub fn held_line(&self) -> Option<NextLine>
        ensures found { IfSome result (λ next. (more : List ℕ) → IsNext next self.now (self.now ++ more)) }
        ensures held { IfSome result (λ next. IsHeld next self.now) }
        ensures partial { IfNone result (IsPartial self.now) }
    {
        find_line(self.as_slice())
    }

    /// The next line: the one that the bytes that are held tell, or else what is read.
    pub fn next_line<S: Source>(&mut self, source: &mut S) -> Result<NextLine, Failed>
        ensures held { IfOk result (λ next. IsHeld next self.new) }
        ensures found { IfOk result (λ next. IsNextTold next self.new (S.left source.new)) }
        ensures same { Keeps (prepend_known self.old (S.left source.old)) (prepend_known self.new (S.left source.new)) }
        ensures cause { CountsFault result (S.faults_of source.old) (S.faults_of source.new) }
    {
        match self.held_line() {
            Some(next) => Ok(next),
            None => self.read_on(source),
        }
    }

    /// Reads on up to the end of the next line, which the bytes that are held don't tell.
    pub fn read_on<S: Source>(&mut self, source: &mut S) -> Result<NextLine, Failed>
        requires { IsPartial self.old }
        ensures held { IfOk result (λ next. IsHeld next self.new) }
        ensures found { IfOk result (λ next. IsNextTold next self.new (S.left source.new)) }
        ensures same { Keeps (prepend_known self.old (S.left source.old)) (prepend_known self.new (S.left source.new)) }
        ensures err { OnErr result (IsPartial self.new) }
        ensures cause { CountsFault result (S.faults_of source.old) (S.faults_of source.new) }
    {
        loop {
            let came = self.fill(source)?;
            if let Some(next) = self.held_line() {
                return Ok(next);
            }
            if came == 0 {
                return Ok(last_line(self.as_slice()));
            }
        }
    }
}

/// What is left at the input's end, where no LF comes any more.
fn last_line(held: &[u8]) -> NextLine
    requires { IsPartial held.now }
    ensures next { IsNext result held.now held.now }
    ensures held { IsHeld result held.now }
{
    if held.is_empty() {
        NextLine::End
    } else {
        NextLine::Unended
    }
}

/// Moves the bytes from a place on to the front.
fn move_front(bytes: &mut Vec<u8>, start: usize, held: usize)
    requires { start + held ≤ vec_len bytes.old }
    ensures moved { take held bytes.new.items ≡ take held (drop start bytes.old.items) }
    ensures len { vec_len bytes.new ≡ vec_len bytes.old }
{
    bytes.copy_within(start..start + held, 0);
}

/// Reads once, behind the first bytes.
fn read_behind<S: Source>(bytes: &mut Vec<u8>, held: usize, source: &mut S) -> Result<usize, Failed>
    requires { held < vec_len bytes.old }
    ensures kept { take held bytes.new.items ≡ take held bytes.old.items }
    ensures len { vec_len bytes.new ≡ vec_len bytes.old }
    ensures bound { IfOk result (λ count. held + count ≤ vec_len bytes.new) }
    ensures bytes { IfOk result (λ count. Consumes (S.left source.old) (S.left source.new) (take count (drop held bytes.new.items))) }
    ensures end { IfOk result (λ count. count ≡ 0 → IsAtEnd (S.left source.new)) }
    ensures err { OnErr result (Keeps (S.left source.old) (S.left source.new)) }
    ensures cause { CountsFault result (S.faults_of source.old) (S.faults_of source.new) }
{
    source.read(&mut bytes[held..])
}

/// Where the first LF of these bytes stands.
fn line_end(bytes: &[u8]) -> Option<usize>
    ensures found { IfSome result (λ at. (at < length bytes.now) × (slice_index bytes.now at ≡ 10)) }
    ensures first { IfSome result (λ at. All (λ byte. byte ≢ 10) (take at bytes.now)) }
    ensures none { IfNone result (All (λ byte. byte ≢ 10) bytes.now) }
{
    bytes.iter().position(|byte| *byte == b'\n')
}

/// The first line of these bytes, where they have one, or that it is too long.
fn find_line(bytes: &[u8]) -> Option<NextLine>
    ensures found { IfSome result (λ next. (more : List ℕ) → IsNext next bytes.now (bytes.now ++ more)) }
    ensures held { IfSome result (λ next. IsHeld next bytes.now) }
    ensures partial { IfNone result (IsPartial bytes.now) }
{
    let window = &bytes[..bytes.len().min(MAX_LINE + 1)];
    match line_end(window) {
        Some(len) => Some(NextLine::Whole { len }),
        None if window.len() > MAX_LINE => Some(NextLine::TooLong),
        None => None,
    }
}
