//! A buffer in memory that takes bytes without allocating, for the sinks in memory. Only mem.rt and
//! sure.rt use it, and depend on its clauses. docs/edge.md describes the sinks.
//!
//! Proved: contracts see a buffer as `Reserved` of specs/Memory.antt: its bytes, and its room, the
//! number of further bytes. `append` adds exactly the piece (`bytes`) and takes its length from the
//! room (`room`); it requires that the piece fits. The vector's capacity always covers bytes and
//! room (the invariant of `Buffer`), so that no call allocates or fails.
//!
//! Pinned, by mem.rt, sure.rt and their proofs: `Reserved`, and the clauses. Free: the fields and
//! all bodies.
ghost use Rattle.std.specs.Prelude.{◌≡◌, ◌+◌, ◌-◌, ◌≤◌, ◌++◌, length, vec_len, vec_capacity};

use std::marker::Model;

// A vector, and the number of further bytes for which it has reserved room.
#[derive(Debug, Drop)]
pub(crate) struct Buffer {
    bytes: Vec<u8>,
    room: usize,
}

impl Model for Buffer {
    ghost use Rattle.std.specs.Prelude.{◌≤◌, ◌+◌, vec_len, vec_capacity};
    ghost use Rattle.st_io.specs.Memory.{Reserved};

    // Contracts see the bytes and the room.
    ghost Value = { Reserved };

    ghost view = { λ b. record { bytes = b.bytes.items; room = b.room } };

    // The vector has capacity for its bytes and the room; each call keeps this.
    ghost invariant = { λ b. vec_len b.bytes + b.room ≤ vec_capacity b.bytes };
}

impl Buffer {
    // A buffer whose room is the spare capacity of the vector.
    pub(crate) fn new(bytes: Vec<u8>) -> Buffer
        ensures { result ≡ record {
          bytes = bytes.items;
          room = vec_capacity bytes - vec_len bytes;
        } }
    {
        let room = bytes.capacity() - bytes.len();
        Buffer { bytes, room }
    }

    // The number of further bytes that can be appended.
    pub(crate) fn room(&self) -> usize
        ensures { result ≡ self.now.room }
    {
        self.room
    }

    // Appends a piece, which must not be longer than the room.
    pub(crate) fn append(&mut self, piece: &[u8])
        requires { length piece.now ≤ self.old.room }
        ensures bytes { self.new.bytes ≡ self.old.bytes ++ piece.now }
        ensures room { self.new.room ≡ self.old.room - length piece.now }
    {
        self.bytes.extend_from_slice(piece).unwrap();
        self.room -= piece.len();
    }

    // All bytes, the oldest first.
    pub(crate) fn bytes(&self) -> &[u8]
        ensures { result.now ≡ self.now.bytes }
    {
        &self.bytes
    }

    // The vector of all bytes.
    pub(crate) fn into_bytes(self) -> Vec<u8>
        ensures { result.items ≡ self.bytes }
    {
        self.bytes
    }
}
