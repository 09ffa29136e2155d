//! The ledger of a run so far, and how it proceeds from one entry to the next. The lines of an
//! entry are written late: after the events that follow it, since these say whether its segment
//! ends. docs/ledger.md has the rules.
//!
//! For each entry running.rt calls `take_events` and `step`; between them passing.rt calls
//! `write_to_next` or `skip_to_next`, tallying.rt `enter_next`; at the end come `finish` or
//! `finish_sums`. Ticks, counts and numbers are those of the run; segments are numbered from 1.
//!
//! Proved: between its calls an account is in one of three states of specs/Standing.antt and
//! specs/Rounds.antt: at a moment (`IsAt`), behind the events after it (`CanPass`), or before the
//! next entry (`CanStep`); each call leads from one to the next, the lines are those of
//! specs/Text.antt, and totals grow by the charges and waits of each entry.
//!
//! Pinned: the lines, by specs/Text.antt, docs/ledger.md and vectors/ledger; the order of the calls,
//! by these states in their clauses `requires`. Free: the fields that only save time, such as
//! `behind.may`, and the buffers, if proofs/account follows.
ghost use Rattle.std.specs.Prelude.{◌≡◌, ◌≢◌, true, false, ℕ, ◌+◌, ◌≤◌, ◌∷◌, [], ◌||◌, nat_eq, length, IsOk, Option};
ghost use Rattle.st_bits.specs.declared.limits.TheConstants.{MOST_INSTRUCTIONS};
ghost use Rattle.st_bits.specs.Storage.{words_of_storage};
ghost use Rattle.st_exec.specs.Step.{rests};
ghost use Rattle.st_io.specs.Lines.{WritesLines};
ghost use Rattle.st_ledger.specs.Charges.{ticks_for, all_ticks};
ghost use Rattle.st_ledger.specs.Totals.{sum_at, AreWithin};
ghost use Rattle.st_ledger.specs.declared.charges.Stage.{Stage};
ghost use Rattle.st_lines.specs.Changes.{IsCopyBehind};
ghost use Rattle.st_lines.specs.Origins.{origin_at};
ghost use Rattle.st_report.specs.Line.{end_line as run_end_line, done_line, ticks_line};
ghost use Rattle.st_run.specs.Moments.{Moment, Standing};
ghost use Rattle.st_state.specs.Machine.{Machine};
ghost use Rattle.st_account.specs.Passing.{lines_to_next, lines_to_end};
ghost use Rattle.st_account.specs.Rounds.{IsAtStart, IsUnderWay, HasFound, AnswerSoon, HasTakenEvents, IsBorderOf, Crosses, CanStep, IsNext, IsStepped, Completes};
ghost use Rattle.st_account.specs.Standing.{Position, position, kept_lines, charges_kept, IsWaiting, AddsKeptWaits, IsWithinRun, IsStanding, IsAt, IsBehindMoment, CanPass};
ghost use Rattle.st_account.specs.Text.{run_ends, lines_of_entry, last_lines};

use crate::behind::{Behind, look_behind, nothing_came};
use crate::last::{Last, at_start, clear_if, open_if};
use crate::settling::settle;
use crate::stepping::{
    changeable, count_on, end_of, execute, is_end, is_end_near, is_still, next_number, row_number,
    why_of,
};
use st_banks::LastAnswers;
use st_exec::{interrupt, is_at_rest, next_address};
use st_io::{Failed, Sink};
use st_ledger::{RowLine, Totals, WaitTotals, Waits};
use st_lines::{
    Between, Border, Dropped, EntryDone, EntryRecord, FactLine, Origins, RowTelling, add_waits,
    copy_changed, write_border, write_done, write_end, write_marks, write_totals,
};
use st_rows::{Log, Timing};
use st_run::PendingEvents;
use st_state::{State, counter_in, done_in, is_enabled};

/// The ledger of a run so far. The lines of the last completed entry, and of the events after it,
/// are still to be written.
#[derive(Drop)]
pub(crate) struct Account {
    /// The state that the last entry has left; later the state after the events that follow it.
    pub state: State,
    /// The words of storage and the registers as of the lines written so far.
    pub words: Vec<u64>,
    /// The facts about the last entry.
    pub last: Last,
    /// The reads of the last entry.
    pub log: Log,
    /// The events after the last entry.
    pub behind: Behind,
    /// The cards that the half-words of the program come from.
    pub origins: Origins,
    /// The ticks of each stage so far; for `ledger sums` they are not kept.
    pub sums: Totals,
    /// The buffers for the waits of the last entry, and the totals of the waits before it; for
    /// `ledger sums` these totals are not kept.
    pub waiting: RowTelling,
    /// The number of the last entry's segment; 0 before the first entry.
    pub k: u32,
}

// Writes the lines of the last entry, in segment `k`, which ends at a tick or continues, and adds
// the entry's waits to the totals. Before the first entry nothing is written.
fn write_row<K: Sink>(
    out: &mut K,
    last: &Last,
    k: u32,
    end: Option<u64>,
    waiting: &mut RowTelling,
) -> Result<(), Failed>
    requires { IsWaiting last.now waiting.old.totals }
    ensures lines { WritesLines (K.output out.old) (K.output out.new)
        (kept_lines k last.now end) result }
    ensures waits { IsOk result →
        AddsKeptWaits k last.now waiting.old.totals waiting.new.totals }
{
    if k == 0 {
        return Ok(());
    }
    let done = EntryDone { end, ..last.done };
    let entry = EntryRecord {
        done: &done,
        plan: &last.unit.prepared,
        known: &last.known,
        uses: last.uses.as_slice(),
        before: last.uses.before(),
    };
    write_done(out, &entry, waiting)
}

// Adds the waits of the last entry to the totals. Before the first entry there are none.
fn add_row(last: &Last, k: u32, waiting: &mut RowTelling)
    requires { IsWaiting last.now waiting.old.totals }
    ensures { AddsKeptWaits k last.now waiting.old.totals waiting.new.totals }
{
    if k == 0 {
        return;
    }
    let done = &last.done;
    add_waits(
        done.before,
        done.start,
        &done.row.ticks,
        last.uses.as_slice(),
        last.uses.before(),
        &mut waiting.waits,
        &mut waiting.totals,
    );
}

/// Adds the charges of the last entry to the totals.
pub(crate) fn add_charges(sums: &mut Totals, last: &Last)
    requires { AreWithin last.now.done.before sums.old }
    ensures within { AreWithin (last.now.done.before + all_ticks (charges_kept last.now)) sums.new }
    ensures sums { (s : Stage) → sum_at s sums.new ≡ sum_at s sums.old
        + ticks_for s (charges_kept last.now) }
{
    let done = &last.done;
    sums.add_row(&done.row.ticks, done.before, done.start);
}

impl Account {
    /// The ledger before the first entry of a machine in its initial state. `words` must have as
    /// many words as storage; their values do not matter.
    pub fn new(state: State, words: Vec<u64>, origins: Origins) -> Account
        ensures start { IsAtStart state result }
        ensures words { result.words.items ≡ words.items }
        ensures origins { result.origins ≡ origins }
    {
        let last = at_start(counter_in(&state), is_enabled(&state));
        Account {
            state,
            words,
            last,
            log: Log::new(),
            behind: nothing_came(),
            origins,
            sums: Totals::default(),
            waiting: RowTelling {
                waits: Waits::new(),
                totals: WaitTotals::default(),
                line: RowLine::new(),
                facts: FactLine::new(),
            },
            k: 0,
        }
    }

    // Determines the entries that ran ahead of the last entry, if `looks` is set.
    fn look_if(&mut self, timing: &Timing<'_>, looks: bool)
        requires { (left : ℕ) × IsWithinRun left self.old }
        ensures state { self.new.state ≡ self.old.state }
        ensures found { looks ≡ true →
            HasFound timing.now.delays.now.list timing.now.levels self.old.state self.old.last
            self.old.log self.new.behind }
        ensures soon { AnswerSoon timing.now.delays.now.list self.old.last self.old.log
            self.new.behind }
        ensures few { length self.new.behind.ahead.found.items ≤ 8 }
        ensures rest { self.new ≡ record self.old {
          state = self.new.state;
          log = self.new.log;
          behind = self.new.behind;
        } }
    {
        self.behind.ahead.found.clear();
        self.behind.banks = LastAnswers::new();
        if !looks {
            return;
        }
        look_behind(
            &mut self.state,
            &self.last,
            timing,
            &mut self.log,
            &mut self.behind,
        );
    }

    /// Applies the events after the last entry: the signals and cards in `pending` that are due,
    /// and the end of a wait. `left` is the number of entries that may still complete.
    pub fn take_events(&mut self, timing: &Timing<'_>, left: u64, pending: &mut PendingEvents<'_>)
        requires { IsUnderWay timing.now.delays.now.list timing.now.levels left self.old pending.old }
        ensures came { (b : Machine) (m : Moment) →
            let p = position timing.now.delays.now.list timing.now.levels left b m in
            IsAt p self.old pending.old → HasTakenEvents p self.new pending.new }
        ensures rest { self.new ≡ record self.old {
          state = self.new.state;
          log = self.new.log;
          behind = self.new.behind;
        } }
    {
        let still = is_still(&self.state, self.last.done.mispredicted, pending.signals());
        self.look_if(timing, is_end_near(left, still));
        self.behind.may = changeable(&self.last.unit.prepared, &self.state);
        let came = settle(still, &mut self.state, pending, &mut self.behind.printed);
        self.behind.card = came.card;
        self.behind.waited = came.waited;
    }

    /// Whether the run ends, if `left` entries may still complete.
    pub fn is_over(&self, left: u64) -> bool
        ensures { result ≡ (nat_eq left 0 || rests self.now.state) }
    {
        left == 0 || is_at_rest(&self.state)
    }

    /// The border between the last entry and the next one; afterwards the issue state and the
    /// segment are those of the next entry.
    pub fn enter_next(&mut self) -> Border
        requires { (p : Position) × CanPass p self.old }
        ensures { Crosses self.old self.new result }
    {
        let taken = interrupt(&self.state);
        let mispredicted = self.last.done.mispredicted;
        let k = self.k;
        let ends = is_end(mispredicted, self.behind.card, self.behind.waited, taken);
        let begins = k == 0 || ends;
        open_if(
            ends,
            &mut self.last,
            self.behind.banks,
            self.behind.ahead.found.len() as u64,
        );
        self.k = next_number(begins, k);
        Border {
            ends,
            begins,
            start: self.last.issue.c,
            waited: self.behind.waited,
            why: why_of(k == 0, taken, mispredicted),
            taken,
            done: done_in(&self.state),
        }
    }

    /// Writes the lines of the last entry and of the events after it, with the end and the start of
    /// a segment if there are any. Afterwards the issue state and the segment are those of the next
    /// entry.
    pub fn write_to_next<K: Sink>(&mut self, out: &mut K) -> Result<(), Failed>
        requires behind { (p : Position) × CanPass p self.old }
        requires size { length self.old.words.items ≡ words_of_storage }

        ensures lines { (p : Position) → CanPass p self.old → run_ends p.left p.moment ≡ false →
            WritesLines (K.output out.old) (K.output out.new)
            (lines_to_next p self.old) result }
        ensures next { (p : Position) → CanPass p self.old → run_ends p.left p.moment ≡ false →
            IsOk result → IsNext p self.old self.new }
        ensures waits { IsOk result → AddsKeptWaits self.old.k self.old.last
            self.old.waiting.totals self.new.waiting.totals }
        ensures words { IsOk result → self.new.words.items ≡ self.old.state.words }
        ensures size { IsOk result → length self.new.words.items ≡ words_of_storage }
    {
        let k = self.k;
        let border = self.enter_next();
        let end = end_of(border.ends, self.last.tick);
        write_row(out, &self.last, k, end, &mut self.waiting)?;
        clear_if(border.ends, &mut self.last.uses);
        let between = Between {
            k,
            dropped: Dropped {
                tick: self.last.tick,
                n: row_number(&self.state),
                found: self.behind.ahead.found.as_slice(),
                begun: &self.behind.ahead.late,
                origins: &self.origins,
            },
            printed: self.behind.printed.as_slice(),
            was: self.last.enabled,
            may: &self.behind.may,
        };
        write_border(out, &border, &between, &mut self.words, &self.state)
    }

    /// Passes from the last entry to the next one as `write_to_next` does, and writes nothing.
    /// Returns the border between the two.
    pub fn skip_to_next(&mut self) -> Border
        requires behind { (p : Position) × CanPass p self.old }
        requires size { length self.old.words.items ≡ words_of_storage }

        ensures border { IsBorderOf self.old self.new.last.issue.c result }
        ensures next { (p : Position) → CanPass p self.old → run_ends p.left p.moment ≡ false →
            IsNext p self.old self.new }
        ensures waits { AddsKeptWaits self.old.k self.old.last self.old.waiting.totals
            self.new.waiting.totals }
        ensures words { self.new.words.items ≡ self.old.state.words }
        ensures size { length self.new.words.items ≡ words_of_storage }
    {
        let k = self.k;
        let border = self.enter_next();
        let ends = border.ends;
        add_row(&self.last, k, &mut self.waiting);
        clear_if(ends, &mut self.last.uses);
        self.state.shape();
        copy_changed(k, &self.behind.may, &mut self.words, &self.state);
        border
    }

    /// Adds the waits of the last entry, and writes the lines of the end of the run, without those
    /// of the last entry and of the events after it.
    pub fn finish_sums<K: Sink>(&mut self, out: &mut K) -> Result<(), Failed>
        requires { IsWaiting self.old.last self.old.waiting.totals }

        ensures lines { WritesLines (K.output out.old) (K.output out.new)
            (run_end_line (rests self.old.state) ∷ done_line self.old.state.done
            ∷ ticks_line self.old.last.tick ∷ []) result }
        ensures sums { self.new.sums ≡ self.old.sums }
        ensures waits { AddsKeptWaits self.old.k self.old.last self.old.waiting.totals
            self.new.waiting.totals }
    {
        add_row(&self.last, self.k, &mut self.waiting);
        write_totals(
            out,
            is_at_rest(&self.state),
            done_in(&self.state),
            self.last.tick,
        )
    }

    /// Writes the lines of the last entry, of the events after it, and of the end of the run.
    pub fn finish<K: Sink>(&mut self, out: &mut K) -> Result<(), Failed>
        requires behind { (p : Position) × CanPass p self.old }
        requires size { length self.old.words.items ≡ words_of_storage }

        ensures lines { (p : Position) → CanPass p self.old → run_ends p.left p.moment ≡ true →
            WritesLines (K.output out.old) (K.output out.new)
            (lines_to_end p self.old) result }
        ensures sums { self.new.sums ≡ self.old.sums }
        ensures waits { IsOk result → AddsKeptWaits self.old.k self.old.last
            self.old.waiting.totals self.new.waiting.totals }
    {
        let end = end_of(true, self.last.tick);
        write_row(out, &self.last, self.k, end, &mut self.waiting)?;
        self.write_last(out)
    }

    // Writes the events after the last entry, and the end of the run.
    fn write_last<K: Sink>(&mut self, out: &mut K) -> Result<(), Failed>
        requires few { self.old.state.done ≤ MOST_INSTRUCTIONS }
        requires dropped { length self.old.behind.ahead.found.items ≤ 8 }
        requires size { length self.old.words.items ≡ words_of_storage }
        requires left { IsCopyBehind self.old.k self.old.behind.may self.old.words.items
            self.old.state }

        ensures lines { (p : Position) → IsBehindMoment p self.old →
            run_ends p.left p.moment ≡ true → WritesLines (K.output out.old) (K.output out.new)
            (last_lines (origin_at self.old.origins) p.delays p.levels self.old.k p.before
            p.moment) result }
        ensures sums { self.new.sums ≡ self.old.sums }
        ensures waits { self.new.waiting ≡ self.old.waiting }
    {
        let between = Between {
            k: self.k,
            dropped: Dropped {
                tick: self.last.tick,
                n: row_number(&self.state),
                found: self.behind.ahead.found.as_slice(),
                begun: &self.behind.ahead.late,
                origins: &self.origins,
            },
            printed: self.behind.printed.as_slice(),
            was: self.last.enabled,
            may: &self.behind.may,
        };
        write_end(out, between.k, &between.dropped, &self.state)?;
        write_marks(out, &between, &mut self.words, &self.state)?;
        write_totals(
            out,
            is_at_rest(&self.state),
            done_in(&self.state),
            self.last.tick,
        )
    }

    /// Executes the next entry. Its lines can be written if `facts` is set.
    pub fn step(&mut self, timing: &Timing<'_>, facts: bool)
        requires { CanStep self.old }

        ensures stepped { IsStepped self.old self.new }
        ensures sums { self.new.sums ≡ self.old.sums }
        ensures completes { (p : Standing) → IsStanding p self.old.state self.old.last →
            Completes timing.now.delays.now.list timing.now.levels p self.old self.new }
        ensures lines { facts ≡ true → (p : Standing) (end : Option ℕ) → self.old.k ≢ 0 →
            IsStanding p self.old.state self.old.last → kept_lines self.new.k self.new.last end
            ≡ lines_of_entry (origin_at self.old.origins) timing.now.delays.now.list
            timing.now.levels end self.old.last.uses.items p }
    {
        let taken = interrupt(&self.state);
        let before = self.last.tick;
        let start = self.last.issue.c;
        let address = next_address(&self.state);
        self.last.done.n = row_number(&self.state);
        self.last.done.address = address;
        self.last.done.origin = self.origins.at_if(facts, &self.state, address);
        self.last.done.before = before;
        self.last.done.start = start;
        count_on(
            &self.state,
            taken,
            timing,
            facts,
            &mut self.last,
            &mut self.log,
        );
        execute(&mut self.state, &mut self.last);
    }
}
