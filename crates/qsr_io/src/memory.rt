ghost use Rattle.std.specs.Prelude.{◌≡◌, ◌⊎◌, ◌+◌, ◌-◌, ◌<◌, ◌≤◌, ◌↔◌, [], min, length, take, drop, IsErr, IfOk, OnErr, Contains, Some};
ghost use Rattle.std.specs.Io.{ReadsAtMost};
ghost use Rattle.std.specs.Io.KnownBytes.{ReadConsumes, WriteAppends};
ghost use Rattle.qsr_value.specs.Causes.{CountsFault, next_count};

use crate::{Sink, Source};
use qsr_value::{Bytes, Failed, ListOf, Memory};
use std::alloc::Global;
use std::marker::Model;

/// Copies as many of the first bytes as there are and as `out` takes, and answers how many.
fn copy_front(bytes: &[u8], out: &mut [u8]) -> usize
    ensures count { result ≡ min (length bytes.now) (length out.old) }
    ensures copied { take result out.new ≡ take result bytes.now }
    ensures rest { drop result out.new ≡ drop result out.old }
{
    let count = bytes.len().min(out.len());
    out[..count].copy_from_slice(&bytes[..count]);
    count
}

/// A source in memory, whose calls fail at given numbers, counted from 0.
#[derive(Debug, Drop)]
pub struct MemSource {
    bytes: Bytes,
    at: usize,
    calls: u64,
    failing: ListOf<u64>,
    faults: u64,
}

impl Model for MemSource {
    ghost use Rattle.std.specs.Prelude.{◌≤◌, length, drop};
    ghost use Rattle.qsr_io.specs.Streams.{SourceState};

    ghost Value = { SourceState };

    ghost view = { λ s. record { left = drop s.at s.bytes; calls = s.calls; failing = s.failing; faults = s.faults } };

    ghost invariant = { λ s. s.at ≤ length s.bytes };
}

impl MemSource {
    pub fn new(alloc: Global, bytes: &[u8], fails: &[u64]) -> Result<MemSource, Memory>
        ensures { IfOk result (λ source. source ≡ record { left = bytes.now; calls = 0; failing = fails.now; faults = 0 }) }
    {
        Ok(MemSource {
            bytes: Bytes::from_slice(alloc, bytes)?,
            at: 0,
            calls: 0,
            failing: ListOf::from_slice(alloc, fails)?,
            faults: 0,
        })
    }
}

impl Source for MemSource {
    ghost left = { λ s. Some s.left };

    ghost faults_of = { λ s. s.faults };

    fn faults(&self) -> u64 {
        self.faults
    }

    /// It gives as many bytes as there are and as `out` takes, but for the calls that are to fail. It writes no other
    /// byte of `out`.
    fn read(&mut self, out: &mut [u8]) -> Result<usize, Failed>
        requires { 0 < length out.old }
        ensures bound { ReadsAtMost result out.new }
        ensures bytes { ReadConsumes (Some self.old.left) (Some self.new.left) result out.new }
        ensures cause { CountsFault result self.old.faults self.new.faults }

        ensures fails { IsErr result ↔ Contains self.old.failing self.old.calls }
        ensures whole { IfOk result (λ n. n ≡ min (length self.old.left) (length out.new)) }
        ensures rest { IfOk result (λ n. drop n out.new ≡ drop n out.old) }
        ensures unread { OnErr result (out.new ≡ out.old) }
        ensures calls { self.new.calls ≡ next_count self.old.calls }
        ensures failing { self.new.failing ≡ self.old.failing }
    {
        let number = self.calls;
        self.calls = self.calls.saturating_add(1);
        if self.failing.as_slice().contains(&number) {
            self.faults = self.faults.saturating_add(1);
            return Err(Failed);
        }
        let count = copy_front(&self.bytes.as_slice()[self.at..], out);
        self.at += count;
        Ok(count)
    }
}

/// A sink in memory. It takes its room at the start, and fails where it is full and at given numbers of its calls,
/// counted from 0.
#[derive(Debug, Drop)]
pub struct MemSink {
    given: Vec<u8>,
    room: usize,
    calls: u64,
    failing: ListOf<u64>,
    faults: u64,
}

impl Model for MemSink {
    ghost use Rattle.std.specs.Prelude.{◌≤◌, vec_len, vec_capacity};
    ghost use Rattle.qsr_io.specs.Streams.{SinkState};

    ghost Value = { SinkState };

    ghost view = { λ s. record { given = s.given.items; room = s.room; calls = s.calls; failing = s.failing; faults = s.faults } };

    ghost invariant = { λ s. (vec_len s.given ≤ s.room) × (s.room ≤ vec_capacity s.given) };
}

impl MemSink {
    pub fn new(alloc: Global, room: usize, fails: &[u64]) -> Result<MemSink, Memory>
        ensures { IfOk result (λ sink. sink ≡ record { given = []; room = room; calls = 0; failing = fails.now; faults = 0 }) }
    {
        Ok(MemSink {
            given: Vec::with_capacity(alloc, room)?,
            room,
            calls: 0,
            failing: ListOf::from_slice(alloc, fails)?,
            faults: 0,
        })
    }

    /// The bytes that were given so far.
    pub fn bytes(&self) -> &[u8]
        ensures { result.now ≡ self.now.given }
    {
        &self.given
    }
}

impl Sink for MemSink {
    ghost given = { λ s. Some s.given };

    ghost faults_of = { λ s. s.faults };

    fn faults(&self) -> u64 {
        self.faults
    }

    /// It takes as many bytes as there is room for, but for the calls that are to fail.
    fn write(&mut self, bytes: &[u8]) -> Result<usize, Failed>
        requires { 0 < length bytes.now }
        ensures some { IfOk result (λ taken. 0 < taken) }
        ensures bound { IfOk result (λ taken. taken ≤ length bytes.now) }
        ensures bytes { WriteAppends (Some self.old.given) (Some self.new.given) result bytes.now }
        ensures cause { CountsFault result self.old.faults self.new.faults }

        ensures fails { IsErr result ↔ (Contains self.old.failing self.old.calls ⊎ (self.old.room ≤ length self.old.given)) }
        ensures whole { IfOk result (λ taken. taken ≡ min (self.old.room - length self.old.given) (length bytes.now)) }
        ensures calls { self.new.calls ≡ next_count self.old.calls }
        ensures same { (self.new.failing ≡ self.old.failing) × (self.new.room ≡ self.old.room) }
    {
        let number = self.calls;
        self.calls = self.calls.saturating_add(1);
        let free = self.room - self.given.len();
        if free == 0 || self.failing.as_slice().contains(&number) {
            self.faults = self.faults.saturating_add(1);
            return Err(Failed);
        }
        let count = free.min(bytes.len());
        self.given.extend_from_slice(&bytes[..count]).unwrap();
        Ok(count)
    }
}
