//! The facts about the last completed entry (instruction), which are kept until its lines are
//! written, and the input to the timetable of the next one. docs/timetable.md has the rules of
//! segments. account.rt keeps one `Last`; stepping.rt computes the next, behind.rt and tallying.rt
//! read it. Ticks are those of the run, addresses half-word addresses.
//!
//! Proved, by the clauses below: the issue state after a start of a segment is `opening_issue` of
//! `st_rows`, at most 9 ticks later; the next row can be computed (`IsOpen` of specs/Standing.antt).
//! An issue state cannot be copied, so `past` has its last entries again (past.rt).
//!
//! Pinned, by docs/timetable.md: a segment starts one tick after the end of the last one, and one
//! tick later for each of at most 8 dropped entries. Free: the bodies. A new fact for a line is a
//! field of `EntryDone` of `st_lines`.
ghost use Rattle.std.specs.Prelude.{◌≡◌, ◌+◌, ◌≤◌, ◌^◌, if◌then◌else◌, replicate, All, false, []};
ghost use Rattle.st_bits.specs.declared.limits.TheConstants.{MOST_DELAY};
ghost use Rattle.st_banks.specs.declared.answers.TheConstants.{BANKS};
ghost use Rattle.st_rows.specs.Rows.{opening_issue};
ghost use Rattle.st_account.specs.Standing.{IsOpen};

use crate::past::KeptPast;
use crate::uses::UsesInTurn;
use st_banks::LastAnswers;
use st_ledger::StallCause;
use st_lines::EntryDone;
use st_next::FetchUnit;
use st_plain::{Known, WaitedRow};
use st_prep::Place;
use st_rows::{Bus, IssueState};

/// The facts about the last completed entry, and the timetable after it.
#[derive(Drop)]
pub(crate) struct Last {
    /// The tick at which the entry completed; 0 before the first entry.
    pub tick: u64,
    /// The issue state from which the row of the next entry is computed, if the segment continues.
    pub issue: IssueState,
    /// The last eight entries of the issue state, newest first.
    pub past: KeptPast,
    /// The instruction counter by the prediction.
    pub ic: u32,
    /// Whether interrupts were enabled before the entry.
    pub enabled: bool,
    /// The entry as it was planned and prepared.
    pub unit: FetchUnit,
    /// The entry with its row. If it was mispredicted, the entries that ran ahead of it were wrong.
    /// The end of its segment is not known yet. If the lines of the entry are not wanted, its cause
    /// is valid only if it lost ticks, and whether its card's bits are unchanged is not valid.
    pub done: EntryDone,
    /// Facts about the entry that do not concern its ticks.
    pub known: Known,
    /// The words that the entry uses, and those that the previous entry in the segment uses.
    pub uses: UsesInTurn,
}

/// The issue state after the last entry, as a copy.
pub(crate) fn issue_of(last: &Last) -> IssueState
    requires { last.now.past ≡ last.now.issue.past }
    ensures { result ≡ last.now.issue }
{
    let issue = &last.issue;
    IssueState {
        bus: issue.bus,
        p: issue.p,
        c: issue.c,
        serial: issue.serial,
        past: last.past.copied(),
    }
}

/// The facts before the first entry of a run, given its instruction counter and whether interrupts
/// are enabled.
pub(crate) fn at_start(ic: u32, enabled: bool) -> Last
    ensures tick { result.tick ≡ 0 }
    ensures issue { result.issue ≡ opening_issue (record { ticks = replicate BANKS 0 }) 0 }
    ensures opened { IsOpen result }

    ensures mispredicted { result.done.mispredicted ≡ false }
    ensures counter { result.ic ≡ ic }
    ensures enabled { result.enabled ≡ enabled }
    ensures uses { result.uses.items ≡ [] }
    ensures before { result.uses.before ≡ [] }
    ensures done { result.done.before ≡ 0 }
    ensures start { result.done.start ≡ 0 }
    ensures ticks { result.done.row.ticks ≡ record { a = 0; p = 0; r = 0; c = 0 } }
{
    let banks = LastAnswers::new();
    Last {
        tick: 0,
        issue: IssueState::new(banks, 0),
        past: KeptPast::new(),
        ic,
        enabled,
        unit: FetchUnit::new(Place::default(), Bus::new(banks, 0)),
        done: EntryDone {
            n: 0,
            address: 0,
            origin: None,
            row: WaitedRow::default(),
            mispredicted: false,
            before: 0,
            start: 0,
            end: None,
            because: StallCause::Start(0),
        },
        known: Known::default(),
        uses: UsesInTurn::new(),
    }
}

/// Begins a segment with the next entry, after `dropped` dropped entries, at most 8, if the last
/// segment ends; otherwise the issue state is unchanged.
pub(crate) fn open_if(ends: bool, last: &mut Last, banks: LastAnswers, dropped: u64)
    requires dropped { dropped ≤ 8 }
    requires early { last.old.tick ≤ 2 ^ 62 }
    requires soon { All (λ t. t ≤ last.old.tick + MOST_DELAY) banks.ticks }
    requires opened { IsOpen last.old }

    ensures issue { last.new.issue
        ≡ (if ends then opening_issue banks (last.old.tick + 1 + dropped) else last.old.issue) }
    ensures opened { IsOpen last.new }
    ensures rest { last.new ≡ record last.old {
      issue = last.new.issue;
      past = last.new.past;
    } }
{
    if ends {
        let start = last.tick + 1 + dropped;
        last.issue = IssueState::new(banks, start);
        last.past = KeptPast::new();
    }
}

/// Clears the words if a segment ends.
pub(crate) fn clear_if(ends: bool, uses: &mut UsesInTurn)
    ensures { uses.new.items ≡ (if ends then [] else uses.old.items) }
{
    if ends {
        uses.clear();
    }
}
