//! The line of a completed entry (an executed instruction): a buffer that `fill_trc` and `fill_row`
//! fill again for each entry, so that no entry needs a new line. `st_telling` keeps one for a whole
//! run; `fill_chart` of `st_time` passes it on to `fill_row`. docs/report.md has the texts of the
//! lines.
//!
//! Proved: a new line is empty. run.rt and levels.rt prove what a filled line contains (`trc_line`,
//! `row_line` of specs/Line.antt). Not proved: speed.
//!
//! Pinned, by the clauses of `fill_trc` and `fill_row` and by `st_telling`: `bytes`. Free: the
//! number and use of the four `KeptDigits`, since they only save work and no clause names them.

ghost use Rattle.std.specs.Prelude.{◌≡◌, []};

use crate::from_end::LineFromEnd;
use crate::kept::KeptDigits;

/// A line that is written for successive entries, with the leading digits that the number of an
/// entry and its three ticks share with those of the previous entry.
#[derive(Debug, Drop)]
pub struct EntryLine {
    /// The bytes of the line.
    pub bytes: LineFromEnd,
    // The leading digits of the entry's number.
    pub(crate) number: KeptDigits,
    // Those of the tick P.
    pub(crate) p: KeptDigits,
    // Those of the tick R.
    pub(crate) r: KeptDigits,
    // Those of the tick C.
    pub(crate) c: KeptDigits,
}

impl EntryLine {
    /// The empty line.
    pub fn new() -> EntryLine
        ensures { result.bytes ≡ [] }
    {
        EntryLine {
            bytes: LineFromEnd::new(),
            number: KeptDigits::new(),
            p: KeptDigits::new(),
            r: KeptDigits::new(),
            c: KeptDigits::new(),
        }
    }
}
