//! The parameters of the timetable that do not depend on the program: the delays of reads in ticks,
//! and the number of look-ahead levels, 1 to 8. docs/timetable.md has the rules. `st_next`,
//! `st_ahead`, `st_plain` and `st_account` pass a `Timing` with each entry to issue.rt.
//!
//! Proved: nothing is computed here. Its two ghost fields carry the proof that the number of levels
//! is in range.
//!
//! Pinned, by past.rt, which keeps eight entries, and by the rings of `st_ring`: the largest number
//! of levels, 8. A larger number changes these files and their clauses. A further parameter is a
//! field, and an argument of `row_of_entry` (specs/Rows.antt). Free: the names.
ghost use Rattle.std.specs.Prelude.{◌≤◌};

use st_banks::Delays;

/// The delays of storage, and the number of levels of the machine, 1 to 8.
#[derive(Clone, Copy)]
pub struct Timing<'a> {
    /// The delays of reads.
    pub delays: &'a Delays,
    /// The number of levels, 1 to 8.
    pub levels: usize,
    pub ghost some: { 1 ≤ levels },
    pub ghost few: { levels ≤ 8 },
}
