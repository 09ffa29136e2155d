//! The lines of the command `sweep`, which runs a job on machines of one to eight look-ahead levels
//! (places for entries that are in flight). `st_top` (sweeping.rt) writes both. docs/timetable.md
//! ("One to eight levels") has the rules.
//!
//! Proved: each call returns exactly the bytes of `levels_line` or `calm_line` in specs/Line.antt.
//! A run is calm if more levels cannot make it slower; `st_sweep` decides and proves this, not this
//! module.
//!
//! Pinned, by these two definitions, docs/timetable.md and vectors/sweep.txt: the texts. Free: the
//! bodies.

ghost use Rattle.std.specs.Prelude.{◌≡◌};
ghost use Rattle.st_report.specs.Line.{levels_line, calm_line};

use crate::Line;
use st_text::{close_line, open_line, push_decimal, push_flag, push_short_decimal};

/// `LEVELS n TICKS t`: the number of levels, and the tick of the last completion.
pub fn line_levels(levels: u8, ticks: u64) -> Line
    ensures { result.bytes ≡ levels_line levels ticks }
{
    let mut line = open_line("LEVELS ");
    push_short_decimal(&mut line, u32::from(levels));
    line.push_str(" TICKS ");
    push_decimal(&mut line, ticks);
    close_line(line)
}

/// `CALM 1` or `CALM 0`: whether the run is calm.
pub fn line_calm(calm: bool) -> Line
    ensures { result.bytes ≡ calm_line calm }
{
    let mut line = open_line("CALM ");
    push_flag(&mut line, calm);
    close_line(line)
}
