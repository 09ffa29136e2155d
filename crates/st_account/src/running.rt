//! Writes the run line by line: the whole ledger, the rows from one on, or only its first and last
//! lines with the sums and the tables. docs/ledger.md has the rules.
//!
//! program.rt calls the three public functions with a run that is ready, whose memory is allocated;
//! account.rt does each step. Budgets are at most 10,000,000 instructions.
//!
//! Proved: the lines are `ledger` of specs/Text.antt, `ledger_rows` of specs/LedgerRows.antt, or
//! `ledger_sums` of specs/LedgerSums.antt, all on Ok, the first ones after a failed write. Pinned:
//! the lines, by these definitions, docs/ledger.md and vectors/ledger; that a run ends at rest
//! before its budget is looked at, by `ledger`. Free: the bodies, if proofs/running follows. Laws
//! that sums add up to the ticks of the run: `WaitSumsAddUp` and `StageSumsAddUp` (specs/Laws.antt
//! of `st_causes`).
ghost use Rattle.std.specs.Prelude.{◌≡◌, ◌^◌, [], IsOk, length, min};
ghost use Rattle.st_io.specs.Lines.{WritesLines};
ghost use Rattle.st_lines.specs.Origins.{origin_at};
ghost use Rattle.st_run.specs.Moments.{moment_at_start as start_of};
ghost use Rattle.st_account.specs.Settling.{at_hand};
ghost use Rattle.st_account.specs.LedgerSums.{end_from, ledger_totals, ledger_sums};
ghost use Rattle.st_account.specs.LedgerTables.{tallied_of, dropped_of};
ghost use Rattle.st_account.specs.Tallying.{AreEmptyTables, IsEmptyTally};
ghost use Rattle.st_tally.specs.Slots.{AreTablesWithin};
ghost use Rattle.st_tally.specs.Tally.{IsTally};
ghost use Rattle.st_account.specs.LedgerRows.{ledger_rows};
ghost use Rattle.st_account.specs.Passing.{lines_until};
ghost use Rattle.st_account.specs.Running.{CanRun, HasTotals};
ghost use Rattle.st_account.specs.Text.{ledger};

use crate::account::{Account, add_charges};
use crate::passing::{finish_run, no_border, pass_to_next};
use crate::tallying::{Tally, finish_tally, tally_to_next};
use st_banks::Delays;
use st_card::Controls;
use st_exch::Hopper;
use st_io::{Failed, Sink};
use st_ledger::{Totals, WaitTotals, write_sums};
use st_lines::{Origins, Why, write_machine, write_wait_sums};
use st_rows::Timing;
use st_run::PendingEvents;
use st_state::State;
use st_tally::Tables;

/// A run that is ready to be written: the machine is in its initial state.
#[derive(Drop)]
pub struct Ready {
    /// The initial state: no instruction is complete.
    pub state: State,
    /// As many words as storage has; their values do not matter.
    pub words: Vec<u64>,
    /// The cards that the half-words of the program come from.
    pub origins: Origins,
    /// The cards of the reader.
    pub cards: Hopper,
    /// The delays of storage.
    pub delays: Delays,
    /// The number of levels of the machine, 1 to 8.
    pub levels: u8,
}

// Writes a run of at most `budget` rows, at most as many as were requested. If `until` is 0, all
// lines are written; else those from row `until` on. Afterwards `sums` are the ticks of its
// charges, and `waits` those of its waits.
fn write_run<K: Sink>(
    out: &mut K,
    ready: Ready,
    controls: &Controls,
    budget: u64,
    until: u64,
    sums: &mut Totals,
    waits: &mut WaitTotals,
) -> Result<(), Failed>
    requires { CanRun ready controls.now budget }

    ensures lines { WritesLines (K.output out.old) (K.output out.new)
        (lines_until until (origin_at ready.origins) ready.delays.list ready.levels budget 0
        ready.state [] [] (start_of (at_hand ready.state controls.now.signals ready.cards))) result }
    ensures totals { IsOk result → HasTotals ready.delays.list ready.levels budget
        (start_of (at_hand ready.state controls.now.signals ready.cards)) sums.new waits.new }
{
    let Ready {
        state,
        words,
        origins,
        cards,
        delays,
        levels,
    } = ready;
    let timing = Timing {
        delays: &delays,
        levels: levels as usize,
    };
    let mut account = Account::new(state, words, origins);
    let mut pending = PendingEvents::new(controls.signals(), cards);
    let mut start = no_border();
    let mut left = budget;
    let mut until = until;
    'entries: loop {
        account.take_events(&timing, left, &mut pending);
        if account.is_over(left) {
            let written = finish_run(out, &mut account, until);
            *sums = account.sums;
            *waits = account.waiting.totals;
            return written;
        }
        pass_to_next(out, &mut account, until, &mut start)?;
        account.step(&timing, true);
        add_charges(&mut account.sums, &account.last);
        left -= 1;
        until = until.saturating_sub(1);
    }
}

// Runs until the run ends or its budget is used up, and writes the lines of the end alone.
// Afterwards `tally` has its tables, which have its totals too, and the number of dropped entries.
fn add_run<K: Sink>(
    out: &mut K,
    ready: Ready,
    controls: &Controls,
    tally: &mut Tally,
) -> Result<(), Failed>
    requires ready { CanRun ready controls.now controls.now.budget }
    requires empty { IsEmptyTally tally.old }

    ensures lines { WritesLines (K.output out.old) (K.output out.new)
        (end_from ready.delays.list ready.levels controls.now.budget
        (start_of (at_hand ready.state controls.now.signals ready.cards))) result }
    ensures tables { IsTally (tallied_of (origin_at ready.origins) ready.delays.list ready.levels
        controls.now.budget (at_hand ready.state controls.now.signals ready.cards))
        tally.new.tables }
    ensures within { AreTablesWithin (2 ^ 63) tally.new.tables }
    ensures places { length tally.new.tables.cards.items ≡ length tally.old.tables.cards.items }
    ensures dropped { tally.new.dropped ≡ dropped_of ready.delays.list ready.levels
        controls.now.budget (at_hand ready.state controls.now.signals ready.cards) }
{
    let Ready {
        state,
        words,
        origins,
        cards,
        delays,
        levels,
    } = ready;
    let timing = Timing {
        delays: &delays,
        levels: levels as usize,
    };
    let mut words = words;
    words.clear();
    let mut account = Account::new(state, words, origins);
    let mut pending = PendingEvents::new(controls.signals(), cards);
    let mut left = controls.budget();
    'entries: loop {
        account.take_events(&timing, left, &mut pending);
        if account.is_over(left) {
            return finish_tally(out, &mut account, tally);
        }
        tally_to_next(&mut account, tally);
        account.step(&timing, false);
        left -= 1;
    }
}

// Writes the totals of a run without the tables, which `tally` has afterwards.
fn write_ledger_totals<K: Sink>(
    out: &mut K,
    ready: Ready,
    controls: &Controls,
    tally: &mut Tally,
) -> Result<(), Failed>
    requires ready { CanRun ready controls.now controls.now.budget }
    requires delays { ready.delays.list ≡ controls.now.delays }
    requires empty { IsEmptyTally tally.old }

    ensures lines { WritesLines (K.output out.old) (K.output out.new)
        (ledger_totals ready.delays.list ready.levels controls.now.budget
        (at_hand ready.state controls.now.signals ready.cards)) result }
    ensures tables { IsOk result →
        IsTally (tallied_of (origin_at ready.origins) ready.delays.list ready.levels
        controls.now.budget (at_hand ready.state controls.now.signals ready.cards))
        tally.new.tables }
    ensures places { IsOk result →
        length tally.new.tables.cards.items ≡ length tally.old.tables.cards.items }
    ensures dropped { IsOk result → tally.new.dropped ≡ dropped_of ready.delays.list ready.levels
        controls.now.budget (at_hand ready.state controls.now.signals ready.cards) }
{
    write_machine(out, ready.levels, controls.delays())?;
    add_run(out, ready, controls, tally)?;
    write_sums(out, &tally.tables.stage_totals())?;
    write_wait_sums(out, &tally.tables.wait_totals())
}

/// Writes the totals of a run, which ends or uses up the requested budget, at most 10,000,000
/// instructions: of its ledger the lines of the machine, of the end of the run, and of the sums;
/// then those of its tables, which are made in `tables`. The delays must be the requested ones.
/// Each line is written with a call of its own. `docs/ledger.md` has the rules.
pub fn write_ledger_sums<K: Sink>(
    out: &mut K,
    ready: Ready,
    controls: &Controls,
    tables: Tables,
) -> Result<(), Failed>
    requires ready { CanRun ready controls.now controls.now.budget }
    requires delays { ready.delays.list ≡ controls.now.delays }
    requires empty { AreEmptyTables tables }

    ensures { WritesLines (K.output out.old) (K.output out.new)
        (ledger_sums (origin_at ready.origins) ready.delays.list ready.levels controls.now.budget
        (length tables.cards.items) (at_hand ready.state controls.now.signals ready.cards)) result }
{
    let mut tally = Tally {
        tables,
        why: Why::Run,
        dropped: 0,
    };
    write_ledger_totals(out, ready, controls, &mut tally)?;
    tally.tables.write(out, tally.dropped)
}

/// Writes the ledger of a run until it ends or the requested budget, at most 10,000,000
/// instructions, is used up. The delays must be the requested ones. Each line is written with a
/// call of its own. `docs/ledger.md` has the rules.
pub fn write_ledger<K: Sink>(out: &mut K, ready: Ready, controls: &Controls) -> Result<(), Failed>
    requires ready { CanRun ready controls.now controls.now.budget }
    requires delays { ready.delays.list ≡ controls.now.delays }

    ensures { WritesLines (K.output out.old) (K.output out.new)
        (ledger (origin_at ready.origins) ready.delays.list ready.levels
        controls.now.budget (at_hand ready.state controls.now.signals ready.cards)) result }
{
    let mut sums = Totals::default();
    let mut waits = WaitTotals::default();
    write_machine(out, ready.levels, controls.delays())?;
    write_run(
        out,
        ready,
        controls,
        controls.budget(),
        0,
        &mut sums,
        &mut waits,
    )?;
    write_sums(out, &sums)?;
    write_wait_sums(out, &waits)
}

/// Writes the ledger of a run from one row on, without its sums: the lines of the machine, the state
/// before that row, its segment, and the lines of all rows from it on up to the end of the run, which
/// ends after at most `most` rows; of a run that ends before, only the machine and the end. `skipped`
/// rows come before that row. The delays must be the requested ones. Each line is written with a call
/// of its own. `docs/ledger.md` has the rules.
pub fn write_ledger_rows<K: Sink>(
    out: &mut K,
    ready: Ready,
    controls: &Controls,
    most: u32,
    skipped: u32,
) -> Result<(), Failed>
    requires ready { CanRun ready controls.now controls.now.budget }
    requires delays { ready.delays.list ≡ controls.now.delays }

    ensures { WritesLines (K.output out.old) (K.output out.new)
        (ledger_rows (origin_at ready.origins) ready.delays.list ready.levels
        (min most controls.now.budget) skipped
        (at_hand ready.state controls.now.signals ready.cards)) result }
{
    let mut sums = Totals::default();
    let mut waits = WaitTotals::default();
    write_machine(out, ready.levels, controls.delays())?;
    write_run(
        out,
        ready,
        controls,
        u64::from(most).min(controls.budget()),
        u64::from(skipped) + 1,
        &mut sums,
        &mut waits,
    )
}
