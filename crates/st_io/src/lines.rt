//! The writing of a line, a list of bytes with its line end. `st_report` (writing.rt),
//! `st_telling`, `st_ledger`, `st_lines`, `st_tally` and `st_top` call `write_line`. docs/report.md
//! and docs/edge.md have the rules.
//!
//! Proved: `WritesLines` of specs/Lines.antt for a list of one line: after Ok exactly the line is
//! written; after an error a proper prefix of the line, and the count of faults rose. A caller that
//! writes several lines has a clause about the list of all of them, and uses `WritesLines` of one
//! line at each step.
//!
//! Pinned, by these callers and docs/promises.txt: the clause. Free: the body, if proofs/lines
//! follows.
ghost use Rattle.std.specs.Prelude.{[], ◌∷◌};
ghost use Rattle.st_io.specs.Lines.{WritesLines};

use crate::{Failed, Sink, write_all};

/// Writes a line, including its line end, by one `write_all`. After `Failed` a proper prefix of it
/// was written. `docs/report.md` has the rules.
pub fn write_line<K: Sink>(out: &mut K, line: &[u8]) -> Result<(), Failed>
    ensures { WritesLines (K.output out.old) (K.output out.new) (line.now ∷ []) result }
{
    write_all(out, line)
}
