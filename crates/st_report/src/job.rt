//! The lines about the job as it was submitted: `SOAK` for a generated deck, `CARD` for a refused
//! one. `st_top` writes both (listing.rt, refusal.rt), and `st_account` (the ledger) writes `CARD`.
//! docs/report.md and docs/running.md have the rules.
//!
//! Proved: each call returns exactly the bytes of `soak_line` or `fault_line` in specs/Line.antt.
//! Which card is refused and why is proved in `st_asm`.
//!
//! Pinned, by these definitions, docs/report.md, vectors/soak.txt and vectors/faults.txt: the
//! texts. Free: the bodies.

ghost use Rattle.std.specs.Prelude.{◌≡◌};
ghost use Rattle.st_report.specs.Line.{fault_line, soak_line};

use crate::Line;
use arrayvec::ArrayString;
use st_text::{close_line, open_line, push_decimal, push_short_decimal};

/// `SOAK number cards`: the seed of a made deck, and the number of its drawn cards.
pub fn line_soak(number: u64, cards: u32) -> Line
    ensures { result.bytes ≡ soak_line number cards }
{
    let mut line = open_line("SOAK ");
    push_decimal(&mut line, number);
    line.push_str(" ");
    push_short_decimal(&mut line, cards);
    close_line(line)
}

/// `CARD n FAULT`: the refused card, counted from 1, and the name of its fault.
pub fn line_fault(card: u32, name: &ArrayString<32>) -> Line
    ensures { result.bytes ≡ fault_line card name.now.bytes }
{
    let mut line = open_line("CARD ");
    push_short_decimal(&mut line, card);
    line.push_str(" ");
    line.push_str(name.as_str());
    close_line(line)
}
