//! The events after a completed entry (instruction), and the entries that ran ahead of it: the
//! facts that the end of a segment needs. docs/ledger.md has the lines of a segment's end.
//! account.rt calls `look_behind` when a segment or the run may end; `st_plain` finds the entries,
//! by predicted steps on the state, which is unchanged afterwards. Ticks are those of the run.
//!
//! Proved: the entries are those prepared before the completion and the next one (`prepared_before`
//! in specs/Ahead.antt of `st_segment`, `first_late` in specs/Looking.antt of `st_plain`), and the
//! banks are those of the reads that were made by then.
//!
//! Pinned: these entries and banks, by docs/ledger.md and vectors/ledger; that at most eight
//! entries ran ahead, by `CanPass` of specs/Standing.antt, which has that bound. Free: the body
//! of `look_behind`, if proofs/behind follows; it may use up the log, which nobody reads
//! afterwards.
ghost use Rattle.std.specs.Prelude.{◌≡◌, ◌+◌, ◌≤◌, ◌<◌, ◌^◌, length};
ghost use Rattle.st_account.specs.Rounds.{HasFound, AnswerSoon};
ghost use Rattle.st_account.specs.Standing.{IsOpen};

use crate::last::{Last, issue_of};
use st_banks::LastAnswers;
use st_lines::{Changeable, Printed};
use st_plain::{FoundAhead, Reach, look};
use st_rows::{Log, Timing};
use st_state::State;

/// The events after a completed entry, and the entries that ran ahead of it.
#[derive(Drop)]
pub(crate) struct Behind {
    /// The entries that were prepared before the entry completed, and the next one after them, if
    /// the entry's segment ends.
    pub ahead: FoundAhead,
    /// The last answers of the banks, if the entry's segment ends.
    pub banks: LastAnswers,
    /// The printed lines.
    pub printed: Printed,
    /// Whether a card was read into storage.
    pub card: bool,
    /// Whether the machine waited after all due events.
    pub waited: bool,
    /// The words that may have changed since the entry before.
    pub may: Changeable,
}

/// No events and no entries that ran ahead.
pub(crate) fn nothing_came() -> Behind
    ensures { length result.ahead.found.items ≡ 0 }
{
    Behind {
        ahead: FoundAhead::default(),
        banks: LastAnswers::new(),
        printed: Printed::new(),
        card: false,
        waited: false,
        may: Changeable::default(),
    }
}

/// Determines the entries that ran ahead of the last completed entry, whose reads are in the log:
/// the entries that were prepared before it completed, the next one after them, and the last
/// answers of the banks if the segment ends here. The state is unchanged; the log is consumed.
pub(crate) fn look_behind(
    state: &mut State,
    last: &Last,
    timing: &Timing<'_>,
    log: &mut Log,
    behind: &mut Behind,
)
    requires few { state.old.done + 8 < 2 ^ 63 }
    requires opened { IsOpen last.now }
    requires early { last.now.tick ≤ 2 ^ 62 }
    requires counter { last.now.ic < 2 ^ 19 }
    requires none { length behind.old.ahead.found.items ≡ 0 }

    ensures state { state.new ≡ state.old }
    ensures found { HasFound timing.now.delays.now.list timing.now.levels state.old last.now
        log.old behind.new }
    ensures soon { AnswerSoon timing.now.delays.now.list last.now log.old behind.new }
    ensures few { length behind.new.ahead.found.items ≤ 8 }
{
    let ic = state.ic;
    let tick = last.tick;
    let mut issue = issue_of(last);
    state.ic = last.ic;
    let reach = Reach {
        timing,
        more: timing.levels,
        tick,
    };
    look(state, &mut issue, &reach, log, &mut behind.ahead);
    state.ic = ic;
    let mut banks = issue.bus.banks;
    log.undo(&mut banks, tick);
    behind.banks = banks;
}
