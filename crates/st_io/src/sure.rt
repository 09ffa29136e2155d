//! A source and a sink in memory that never fail, for callers without devices. Tests in `st_calls`
//! use `SureSource`; no program here uses `SureSink`. docs/edge.md has the rules.
//!
//! Proved: `read` returns exactly the next bytes; `write` takes each piece whole, and contracts
//! know the bytes as long as they fit the capacity of the given vector. After a piece that exceeds
//! the capacity the sink keeps nothing. specs/Memory.antt defines the views that contracts see
//! (`SureInput`, `SureOutput`). In the code no call allocates; no clause says so.
//!
//! Pinned, by the traits `Source` and `Sink` and by docs/promises.txt: the clauses. Free: the
//! fields and bodies, if proofs/sure follows that of `read`.
ghost use Rattle.std.specs.Prelude.{◌≡◌, ◌≤◌, ◌-◌, ◌↔◌, ◌++◌, min, length, take, drop, vec_len, vec_capacity, IfOk, IsSome, IfSome, Ok, Some, option_map, option_copied, vec_items};
ghost use Rattle.st_io.specs.Input.{Gave};
ghost use Rattle.st_io.specs.Output.{Wrote};
ghost use Rattle.st_io.specs.Memory.{SureInput, SureOutput, sure_input, sure_output};

use crate::buffer::Buffer;
use crate::{Failed, Sink, Source};
use std::marker::Model;

/// A source over the bytes of a vector. The remaining bytes are known to contracts, and no read
/// fails.
#[derive(Debug, Drop)]
pub struct SureSource {
    // All bytes, also those that have been read.
    bytes: Vec<u8>,
    // The number of bytes that have been read.
    taken: usize,
}

impl Model for SureSource {
    ghost use Rattle.std.specs.Prelude.{◌≤◌, length, drop};
    ghost use Rattle.st_io.specs.Memory.{SureInput};

    // Contracts see the remaining bytes, and the number of those read.
    ghost Value = { SureInput };

    ghost view = { λ s. record { left = drop s.taken s.bytes.items; taken = s.taken } };

    // No more bytes are read than there are.
    ghost invariant = { λ s. s.taken ≤ length s.bytes.items };
}

impl SureSource {
    /// A source whose bytes all remain.
    pub fn new(bytes: Vec<u8>) -> SureSource
        ensures all { result ≡ record { left = bytes.items; taken = 0 } }
        ensures no_faults { (s : SureInput) → (⟦<SureSource as Source>⟧.input s).faults ≡ 0 }
    {
        SureSource { bytes, taken: 0 }
    }
}

impl Source for SureSource {
    // The state of a source in the clauses of `Source`.
    ghost input = { sure_input };

    /// Reads as many bytes as the buffer has room for, or all that remain.
    fn read(&mut self, buf: &mut [u8]) -> Result<usize, Failed>
        ensures count { result ≡ Ok (min (length buf.old) (length self.old.left)) }
        ensures bound { IfOk result (λ n. n ≤ length buf.new) }
        ensures outcome { IfOk result (Gave (sure_input self.old) (sure_input self.new) buf.new) }
    {
        let left = &self.bytes[self.taken..];
        let n = buf.len().min(left.len());
        buf[..n].copy_from_slice(&left[..n]);
        self.taken += n;
        Ok(n)
    }
}

/// A sink over a vector's spare capacity. It takes every piece whole, and no write fails. From the
/// first piece for which there is no room, its bytes are no longer known.
#[derive(Debug, Drop)]
pub struct SureSink {
    // The written bytes; `None` after a piece for which there was no room.
    buffer: Option<Buffer>,
}

impl Model for SureSink {
    ghost use Rattle.std.specs.Prelude.{option_map};
    ghost use Rattle.std.specs.Option.{option_map_or};
    ghost use Rattle.st_io.specs.Memory.{SureOutput};

    // Contracts see the written bytes, if they are known, and the room in bytes.
    ghost Value = { SureOutput };

    ghost view = { λ s. record {
      written = option_map (λ b. b.bytes) s.buffer;
      room = option_map_or (λ b. b.room) s.buffer 0;
    } };
}

impl SureSink {
    /// A sink that counts the bytes of the buffer as written.
    pub fn new(buffer: Vec<u8>) -> SureSink
        ensures all { result ≡ record {
          written = Some buffer.items;
          room = vec_capacity buffer - vec_len buffer;
        } }
        ensures no_faults { (k : SureOutput) → (⟦<SureSink as Sink>⟧.output k).faults ≡ 0 }
    {
        SureSink {
            buffer: Some(Buffer::new(buffer)),
        }
    }

    /// The written bytes, if they are known.
    pub fn bytes(&self) -> Option<&[u8]>
        ensures { option_copied result ≡ self.now.written }
    {
        self.buffer.as_ref().map(Buffer::bytes)
    }

    /// The written bytes, if they are known.
    pub fn into_bytes(self) -> Option<Vec<u8>>
        ensures { option_map vec_items result ≡ self.written }
    {
        self.buffer.map(Buffer::into_bytes)
    }
}

impl Sink for SureSink {
    // The state of a sink in the clauses of `Sink`.
    ghost output = { sure_output };

    /// Takes the whole piece.
    fn write(&mut self, piece: &[u8]) -> Result<usize, Failed>
        ensures whole { result ≡ Ok (length piece.now) }
        ensures written { Wrote (sure_output self.old) (sure_output self.new) piece.now }
        ensures told { IsSome self.new.written
            ↔ (IsSome self.old.written × (length piece.now ≤ self.old.room)) }
        ensures room { self.new.room ≡ self.old.room - length piece.now }
    {
        self.buffer = self
            .buffer
            .take()
            .and_then(|buffer| appended(buffer, piece));
        Ok(piece.len())
    }
}

// The buffer with the piece appended, if there is room for it.
fn appended(mut buffer: Buffer, piece: &[u8]) -> Option<Buffer>
    ensures fits { IsSome result ↔ (length piece.now ≤ buffer.room) }
    ensures bytes { IfSome result (λ b. b.bytes ≡ buffer.bytes ++ piece.now) }
    ensures room { IfSome result (λ b. b.room ≡ buffer.room - length piece.now) }
{
    if piece.len() > buffer.room() {
        return None;
    }
    buffer.append(piece);
    Some(buffer)
}
