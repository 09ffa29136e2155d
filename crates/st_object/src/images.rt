//! The program that an object text contains: storage, start and requests. `read_object` of this
//! crate returns it; `st_top` runs, writes or disassembles it, and makes one from an assembled job.
//! docs/object-text.md has the format.
//!
//! Proved: nothing here, there is no code. By the clauses of `read_object` a program that is read
//! meets `IsProgram` of specs/Object.antt, the ranges in the comments of the fields; `write_object`
//! requires `IsProgram`.
//!
//! Pinned, by `Program` of specs/Object.antt, which is what contracts see, and by `st_top`, which
//! reads them: the fields. Free: the derived traits. A new field needs its line in an object text
//! (items.rt), and its value in `st_top`.

use st_card::Controls;
use std::marker::Model;

/// A program as an image of storage, with its start and its requests.
#[derive(Debug, Drop)]
pub struct Image {
    /// The words of storage, 98,304 of them; the first 32 are zero.
    pub words: Vec<u64>,
    /// The half-word address, below 2^19, at which the program starts.
    pub start: u32,
    /// The requests: a budget, at least one delay, and no listing.
    pub controls: Controls,
}

impl Model for Image {
    ghost use Rattle.st_object.specs.Object.{Program};

    // Contracts see the words as a list, the start, and the requests.
    ghost Value = { Program };

    ghost view = { λ i. record { words = i.words.items; start = i.start; controls = i.controls } };
}
