//! A source and a sink in memory with planned failures, for tests of programs (worked.rt of
//! `st_calls`). The plan is a list of numbers of calls, from 1: the call with such a number fails
//! and moves no byte. docs/edge.md has the rules.
//!
//! Proved: a call fails if and only if its failure is planned or the sink is full; otherwise the
//! call moves as many bytes as there are, or as there is room for. specs/Memory.antt defines the
//! views that contracts see (`MemoryInput`, `MemoryOutput`): the remaining or written bytes, the
//! count of faults, the calls made, and the room of the sink in bytes.
//!
//! Pinned, by the traits `Source` and `Sink`, whose clauses are proved here, by docs/promises.txt
//! and the tests: the clauses. Free: the private fields and all bodies.
ghost use Rattle.std.specs.Prelude.{◌≡◌, ◌+◌, ◌-◌, ◌≤◌, ◌↔◌, min, length, take, vec_len, vec_capacity, MatchResult, IfOk, OnErr, IsErr, IsTrue};
ghost use Rattle.st_io.specs.Count.{count_after};
ghost use Rattle.st_io.specs.Input.{Gave, GaveNothing};
ghost use Rattle.st_io.specs.Output.{Wrote, WroteNothing};
ghost use Rattle.st_io.specs.Memory.{memory_input, memory_output, IsToFail, after_call, Refuses};

use crate::buffer::Buffer;
use crate::{Failed, Sink, Source, SureSource, count_fault};
use std::marker::Model;

// A counter of calls, with the numbers of the calls that fail.
#[derive(Debug, Drop)]
struct Calls {
    // The calls made so far; the count saturates.
    made: u64,
    // The numbers, from 1, of the calls that fail.
    fails: Vec<u32>,
}

impl Model for Calls {
    ghost use Rattle.st_io.specs.Memory.{CallPlan};

    // Contracts see the calls made, and the numbers of those that fail.
    ghost Value = { CallPlan };

    ghost view = { λ c. record { made = c.made; fails = c.fails.items } };
}

impl Calls {
    // A counter before the first call.
    fn new(fails: Vec<u32>) -> Calls
        ensures { result ≡ record { made = 0; fails = fails.items } }
    {
        Calls { made: 0, fails }
    }

    // Counts a call and returns whether it fails.
    fn next_fails(&mut self) -> bool
        ensures fails { IsTrue result ↔ IsToFail self.old }
        ensures counts { self.new ≡ after_call self.old }
    {
        self.made = self.made.saturating_add(1);
        self.fails.iter().any(|&n| u64::from(n) == self.made)
    }
}

/// A source over the bytes of a vector, which are known to contracts. The calls whose numbers, from
/// 1, are in a list fail.
#[derive(Debug, Drop)]
pub struct MemSource {
    source: SureSource,
    faults: u64,
    calls: Calls,
}

impl Model for MemSource {
    ghost use Rattle.st_io.specs.Memory.{MemoryInput};

    // Contracts see the remaining bytes, the number read, the faults and the calls.
    ghost Value = { MemoryInput };

    ghost view = { λ s. record {
      left = s.source.left;
      taken = s.source.taken;
      faults = s.faults;
      calls = s.calls;
    } };
}

impl MemSource {
    /// A source whose bytes all remain, before the first call.
    pub fn new(bytes: Vec<u8>, fails: Vec<u32>) -> MemSource
        ensures { result ≡ record {
          left = bytes.items;
          taken = 0;
          faults = 0;
          calls = record { made = 0; fails = fails.items };
        } }
    {
        MemSource {
            source: SureSource::new(bytes),
            faults: 0,
            calls: Calls::new(fails),
        }
    }
}

impl Source for MemSource {
    // The state of a source in the clauses of `Source`.
    ghost input = { memory_input };

    /// Reads as many bytes as the buffer has room for, or all that remain.
    fn read(&mut self, buf: &mut [u8]) -> Result<usize, Failed>
        ensures bound { IfOk result (λ n. n ≤ length buf.new) }
        ensures outcome { MatchResult result
            (λ n. Gave (memory_input self.old) (memory_input self.new) buf.new n)
            (λ _. GaveNothing (memory_input self.old) (memory_input self.new)) }

        // The read fails if and only if its failure is planned.
        ensures failed { IsErr result ↔ IsToFail self.old.calls }
        ensures calls { self.new.calls ≡ after_call self.old.calls }
        ensures faults { OnErr result (self.new.faults ≡ count_after self.old.faults 1) }

        ensures count { IfOk result (λ n. n ≡ min (length buf.old) (length self.old.left)) }
    {
        if self.calls.next_fails() {
            return Err(count_fault(&mut self.faults));
        }
        self.source.read(buf)
    }
}

/// A sink over a vector's spare capacity; the written bytes are known to contracts. The calls whose
/// numbers, from 1, are in a list fail, and so does each write of a nonempty piece when the buffer
/// is full.
#[derive(Debug, Drop)]
pub struct MemSink {
    buffer: Buffer,
    faults: u64,
    calls: Calls,
}

impl Model for MemSink {
    ghost use Rattle.st_io.specs.Memory.{MemoryOutput};

    // Contracts see the written bytes, the room in bytes, the faults and the calls.
    ghost Value = { MemoryOutput };

    ghost view = { λ s. record {
      written = s.buffer.bytes;
      room = s.buffer.room;
      faults = s.faults;
      calls = s.calls;
    } };
}

impl MemSink {
    /// A sink that counts the bytes of the buffer as written, before the first call.
    pub fn new(buffer: Vec<u8>, fails: Vec<u32>) -> MemSink
        ensures { result ≡ record {
          written = buffer.items;
          room = vec_capacity buffer - vec_len buffer;
          faults = 0;
          calls = record { made = 0; fails = fails.items };
        } }
    {
        MemSink {
            buffer: Buffer::new(buffer),
            faults: 0,
            calls: Calls::new(fails),
        }
    }

    /// The written bytes.
    pub fn bytes(&self) -> &[u8]
        ensures { result.now ≡ self.now.written }
    {
        self.buffer.bytes()
    }

    /// The written bytes.
    pub fn into_bytes(self) -> Vec<u8>
        ensures { result.items ≡ self.written }
    {
        self.buffer.into_bytes()
    }
}

impl Sink for MemSink {
    // The state of a sink in the clauses of `Sink`.
    ghost output = { memory_output };

    /// Writes as much of the piece as there is room for.
    fn write(&mut self, piece: &[u8]) -> Result<usize, Failed>
        ensures outcome { MatchResult result
            (λ n. Wrote (memory_output self.old) (memory_output self.new) (take n piece.now))
            (λ _. WroteNothing (memory_output self.old) (memory_output self.new)) }

        // The write fails if and only if its failure is planned or there is no room.
        ensures failed { IsErr result ↔ Refuses self.old piece.now }
        ensures calls { self.new.calls ≡ after_call self.old.calls }
        ensures faults { OnErr result (self.new.faults ≡ count_after self.old.faults 1) }

        ensures count { IfOk result (λ n. n ≡ min (length piece.now) self.old.room) }
        ensures room { self.new.room + length self.new.written
            ≡ self.old.room + length self.old.written }
    {
        let n = piece.len().min(self.buffer.room());
        if self.calls.next_fails() || (n == 0 && !piece.is_empty()) {
            return Err(count_fault(&mut self.faults));
        }
        self.buffer.append(&piece[..n]);
        Ok(n)
    }
}
