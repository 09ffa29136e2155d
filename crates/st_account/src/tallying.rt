//! The tables of a run, to which each completed entry is added one entry late, when it is known
//! whether its segment ends. docs/ledger.md has the tables ("Totals and tables"). running.rt calls
//! `tally_to_next` and `finish_tally` for `ledger sums`; `st_tally` has the sums.
//!
//! Proved: each call adds the row of the last entry (`AddsKeptRow` in specs/Tallying.antt), and
//! counts dropped entries (`dropped_at_end` in specs/LedgerTables.antt). The rows of a
//! whole run are `tallied_of` of specs/LedgerTables.antt (clauses of running.rt). The law
//! `TablesHaveTheRowsOfTheRun` (specs/Laws.antt of `st_causes`) says that these are the rows of the
//! run.
//!
//! Pinned: that nothing is added before the first entry (segment 0), by `AddsKeptRow`; the tables,
//! by docs/ledger.md and vectors/ledger/sums.txt. Free: the bodies, if proofs/tallying follows; the
//! copy of the words of storage may stay as it is, which saves time.
ghost use Rattle.std.specs.Prelude.{◌≡◌, true, false, ◌+◌, ◌<◌, ◌≤◌, ◌^◌, ◌∷◌, [], if◌then◌else◌, All};
ghost use Rattle.st_exec.specs.Step.{rests};
ghost use Rattle.st_io.specs.Lines.{WritesLines};
ghost use Rattle.st_ledger.specs.Words.{IsReadInTime};
ghost use Rattle.st_report.specs.Line.{end_line as run_end_line, done_line, ticks_line};
ghost use Rattle.st_account.specs.Rounds.{IsNext};
ghost use Rattle.st_account.specs.Standing.{Position, CanPass};
ghost use Rattle.st_account.specs.Tallying.{IsTallyReady, AddsKeptRow, TalliesRow, TalliesLast};
ghost use Rattle.st_account.specs.Text.{run_ends};

use crate::account::Account;
use crate::last::{Last, clear_if};
use crate::stepping::end_of;
use st_exec::is_at_rest;
use st_io::{Failed, Sink};
use st_ledger::Waits;
use st_lines::{Border, Why, write_totals};
use st_state::done_in;
use st_tally::Tables;

/// The tables of a run so far, to which the last completed entry is still to be added.
#[derive(Drop)]
pub(crate) struct Tally {
    /// The tables of the rows before the last one.
    pub tables: Tables,
    /// Why the segment of the last entry begins.
    pub why: Why,
    /// The number of entries that were dropped so far.
    pub dropped: u64,
}

// Adds the last entry, in segment `k`, to the tables; `waits` lends its room. Its segment begins for
// the reason `why`. Before the first entry there is nothing to add.
fn tally_row(last: &Last, k: u32, why: Why, tables: &mut Tables, waits: &mut Waits)
    requires uses { All IsReadInTime last.now.uses.items }
    requires before { All IsReadInTime last.now.uses.before }
    requires ready { IsTallyReady k last.now tables.old }
    ensures { AddsKeptRow k last.now last.now.done.end why tables.old tables.new }
{
    if k == 0 {
        return;
    }
    tables.add(
        &last.done,
        why,
        last.uses.as_slice(),
        last.uses.before(),
        waits,
    );
}

// Passes a border after which the next entry comes; `dropped` entries are dropped if a segment ends
// there.
fn pass_border(tally: &mut Tally, border: &Border, dropped: u64)
    requires { tally.old.dropped + dropped < 2 ^ 64 }
    ensures why { tally.new.why ≡ (if border.now.begins then border.now.why else tally.old.why) }
    ensures dropped { tally.new.dropped
        ≡ tally.old.dropped + (if border.now.ends then dropped else 0) }
    ensures tables { tally.new.tables ≡ tally.old.tables }
{
    if border.begins {
        tally.why = border.why;
    }
    if border.ends {
        tally.dropped += dropped;
    }
}

/// Passes from the last entry to the next one as `skip_to_next` does, and adds the last entry to
/// the tables. The copy of the words of storage is left as it is.
pub(crate) fn tally_to_next(account: &mut Account, tally: &mut Tally)
    requires behind { (p : Position) × CanPass p account.old }
    requires ready { IsTallyReady account.old.k account.old.last tally.old.tables }
    requires few { tally.old.dropped ≤ 2 ^ 62 }

    ensures next { (p : Position) → CanPass p account.old → run_ends p.left p.moment ≡ false →
        IsNext p account.old account.new }
    ensures words { account.new.words.items ≡ account.old.words.items }
    ensures tallies { (p : Position) → CanPass p account.old → run_ends p.left p.moment ≡ false →
        TalliesRow p account.old tally.old tally.new }
{
    let k = account.k;
    let dropped = account.behind.ahead.found.len() as u64;
    let border = account.enter_next();
    let ends = border.ends;
    account.last.done.end = end_of(ends, account.last.tick);
    tally_row(
        &account.last,
        k,
        tally.why,
        &mut tally.tables,
        &mut account.waiting.waits,
    );
    pass_border(tally, &border, dropped);
    clear_if(ends, &mut account.last.uses);
}

/// Adds the last entry of a run to the tables, and writes the lines of the end of the run.
pub(crate) fn finish_tally<K: Sink>(
    out: &mut K,
    account: &mut Account,
    tally: &mut Tally,
) -> Result<(), Failed>
    requires behind { (p : Position) × CanPass p account.old }
    requires ready { IsTallyReady account.old.k account.old.last tally.old.tables }
    requires few { tally.old.dropped ≤ 2 ^ 62 }

    ensures lines { WritesLines (K.output out.old) (K.output out.new)
        (run_end_line (rests account.old.state) ∷ done_line account.old.state.done
        ∷ ticks_line account.old.last.tick ∷ []) result }
    ensures tallies { (p : Position) → CanPass p account.old → run_ends p.left p.moment ≡ true →
        TalliesLast p account.old tally.old tally.new }
{
    account.last.done.end = end_of(true, account.last.tick);
    tally_row(
        &account.last,
        account.k,
        tally.why,
        &mut tally.tables,
        &mut account.waiting.waits,
    );
    tally.dropped += account.behind.ahead.found.len() as u64;
    write_totals(
        out,
        is_at_rest(&account.state),
        done_in(&account.state),
        account.last.tick,
    )
}
