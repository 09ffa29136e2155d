//! The contents of the lines of an object text (`Item`) and their kinds (`Kind`), as values between
//! meaning.rt, drafts.rt, order.rt, spelling.rt and writing.rt. No other crate sees them.
//! docs/object-text.md has the lines.
//!
//! Proved: nothing here, there is no code. specs/Lines.antt has the text of each item
//! (`line_text`), specs/Order.antt the position of each kind (`row_of_kind`).
//!
//! Pinned, by these two definitions: the variants. Free: the order of the variants. A line that is
//! no request is a variant of both enums; the compiler then names the functions that need a case,
//! and the tables in meaning.rt and order.rt need a row. A new request is a row of the table of
//! `st_card`, and nothing here.

use st_card::{Control, Keyword};

// The contents of a line.
#[derive(Clone, Copy)]
pub(crate) enum Item {
    // OBJECT, the first line.
    Object,
    // START: the half-word address of the start.
    Start(u64),
    // W: a word address, and the word.
    Word(u64, u64),
    // A request, as a control card makes it.
    Ask(Control),
    // FIN, the last line.
    Fin,
}

// The kind of a line, by its keyword.
#[derive(Clone, Copy)]
pub(crate) enum Kind {
    // OBJECT.
    Object,
    // START.
    Start,
    // W.
    Word,
    // A request, by its keyword.
    Ask(Keyword),
    // FIN.
    Fin,
}
