//! Texts: split into pieces and words, read as numbers, looked up in tables, and composed into
//! lines. The parsers of cards, reports and commands, and most writers of lines, use these calls;
//! each module names its callers. Nothing here depends on the machine.
//!
//! Proved: each call returns what a definition of specs/ says: specs/Blanks.antt, Bytes.antt,
//! Number.antt, Pieces.antt (also words), Tables.antt, and Numerals.antt for lines. The crate has
//! no laws of its own. Not proved: speed.
//!
//! Pinned, by docs/promises.txt and the proofs of the crates that call them: the calls listed below
//! with their clauses. Free: the split into modules, and the bodies with their proofs.
#![tactic(auto)]

mod blanks;
mod bytes;
mod lines;
mod numbers;
mod pieces;
mod tables;
mod words;

pub use blanks::{filled_len, without_end_blanks, without_front_blanks};
pub use bytes::is_printable_byte;
pub use lines::{
    Line, close_line, drop_end_blanks, open_line, push_bit_address, push_decimal, push_flag,
    push_half_address, push_hex, push_short_decimal,
};
pub use numbers::{Reading, number_up_to, read_number};
pub use pieces::{behind, cut, front};
pub use tables::row_of;
pub use words::first_word;
