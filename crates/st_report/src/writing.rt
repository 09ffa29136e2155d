//! The call that writes a line of a report to a sink, a generic output of bytes. docs/edge.md has
//! the rules of sinks. `st_telling`, `st_top`, `st_lines` and `st_account` write each `Line` by
//! `put`. A line that is composed from its end (from_end.rt) is no `Line`.
//!
//! Proved: `put` has the clause of `write_line` in `st_io`. By `WritesLines` (specs/Lines.antt of
//! `st_io`) the line is written whole, or after an error a proper prefix of the line.
//!
//! Pinned, by the proofs of these four crates: the name and the clause of `put`. Free: the body.
ghost use Rattle.std.specs.Prelude.{◌∷◌, []};
ghost use Rattle.st_io.specs.Lines.{WritesLines};

use st_io::{Failed, Sink, write_line};
use st_text::Line;

/// Writes a line. After an error the sink has received a proper prefix of it.
pub fn put<K: Sink>(out: &mut K, line: &Line) -> Result<(), Failed>
    ensures { WritesLines (K.output out.old) (K.output out.new) (line.now.bytes ∷ []) result }
{
    write_line(out, line.as_str().as_bytes())
}
