//! Passes from each entry of a run to the next one, and ends the run, for the whole ledger and for
//! `ledger rows`: with `until` above 0 nothing is written up to the first row that is asked for,
//! then the state before that row and its line SEGMENT, then each line. docs/ledger.md has the
//! rules ("Rows of a long run"). running.rt calls it for each entry; account.rt writes lines or
//! skips.
//!
//! Proved: from an account that can pass (`CanPass` of specs/Standing.antt) to the next entry
//! (`IsNext` of specs/Rounds.antt), the lines are `passed_lines` and `ended_lines` of
//! specs/Passing.antt, all of them on Ok, the first ones after a failed write. The law about rows is
//! `RowsAreAPartOfTheLedger` (specs/Laws.antt of `st_causes`).
//!
//! Pinned: the order of these lines, and the line SEGMENT as the last one before the row, by these
//! definitions, docs/ledger.md and vectors/ledger/rows.txt. Free: how the border is kept
//! (`keep_start`); the bodies, if proofs/passing follows.
ghost use Rattle.std.specs.Prelude.{◌≡◌, ◌≢◌, true, false, ◌++◌, if◌then◌else◌, length, IsOk};
ghost use Rattle.st_bits.specs.Storage.{words_of_storage};
ghost use Rattle.st_io.specs.Lines.{WritesLines};
ghost use Rattle.st_lines.specs.BorderLines.{whole_state_lines};
ghost use Rattle.st_account.specs.LedgerRows.{start_after};
ghost use Rattle.st_account.specs.Passing.{passed_lines, ended_lines, line_of_start};
ghost use Rattle.st_account.specs.Rounds.{IsNext};
ghost use Rattle.st_account.specs.Standing.{Position, AddsKeptWaits, CanPass};
ghost use Rattle.st_account.specs.Text.{run_ends};

use crate::account::Account;
use st_io::{Failed, Sink};
use st_lines::{Border, Why, write_start, write_whole_state};
use st_state::State;

/// The border before the first segment: none begins there.
pub(crate) fn no_border() -> Border
    ensures { result.begins ≡ false }
{
    Border {
        ends: false,
        begins: false,
        start: 0,
        waited: false,
        why: Why::Run,
        taken: None,
        done: 0,
    }
}

// Keeps a border at which a segment begins.
fn keep_start(border: &Border, start: &mut Border)
    ensures { start.new ≡ (if border.now.begins then border.now else start.old) }
{
    if border.begins {
        *start = *border;
    }
}

// Writes the state before the first row that is written, and the start of its segment k.
fn write_first<K: Sink>(out: &mut K, state: &State, start: &Border, k: u32) -> Result<(), Failed>
    ensures { WritesLines (K.output out.old) (K.output out.new)
        (whole_state_lines state.now ++ line_of_start k start.now) result }
{
    write_whole_state(out, state)?;
    write_start(out, start, k)
}

/// Passes from the last entry to the next one. If `until` is 0, the lines of the last entry and of
/// the events after it are written; if it is 1, the next entry is the first one that is written,
/// and otherwise nothing is written. `start` is the border at which the last entry's segment began,
/// and afterwards that of the next one's.
pub(crate) fn pass_to_next<K: Sink>(
    out: &mut K,
    account: &mut Account,
    until: u64,
    start: &mut Border,
) -> Result<(), Failed>
    requires behind { (p : Position) × CanPass p account.old }
    requires size { length account.old.words.items ≡ words_of_storage }

    ensures lines { (p : Position) → CanPass p account.old → run_ends p.left p.moment ≡ false →
        WritesLines (K.output out.old) (K.output out.new)
        (passed_lines until p account.old (line_of_start account.old.k start.old)) result }
    ensures start { (p : Position) → CanPass p account.old → run_ends p.left p.moment ≡ false →
        until ≢ 0 → line_of_start account.new.k start.new
        ≡ start_after account.old.k (line_of_start account.old.k start.old) p.moment }
    ensures next { (p : Position) → CanPass p account.old → run_ends p.left p.moment ≡ false →
        IsOk result → IsNext p account.old account.new }
    ensures waits { IsOk result → AddsKeptWaits account.old.k account.old.last
        account.old.waiting.totals account.new.waiting.totals }
    ensures words { IsOk result → account.new.words.items ≡ account.old.state.words }
    ensures size { IsOk result → length account.new.words.items ≡ words_of_storage }
{
    if until == 0 {
        return account.write_to_next(out);
    }
    let border = account.skip_to_next();
    keep_start(&border, start);
    if until == 1 {
        return write_first(out, &account.state, start, account.k);
    }
    Ok(())
}

/// Ends the run. If `until` is 0, the lines of the last entry and of the events after it are
/// written too.
pub(crate) fn finish_run<K: Sink>(
    out: &mut K,
    account: &mut Account,
    until: u64,
) -> Result<(), Failed>
    requires behind { (p : Position) × CanPass p account.old }
    requires size { length account.old.words.items ≡ words_of_storage }

    ensures lines { (p : Position) → CanPass p account.old → run_ends p.left p.moment ≡ true →
        WritesLines (K.output out.old) (K.output out.new) (ended_lines until p account.old) result }
    ensures sums { account.new.sums ≡ account.old.sums }
    ensures waits { IsOk result → AddsKeptWaits account.old.k account.old.last
        account.old.waiting.totals account.new.waiting.totals }
{
    if until == 0 {
        return account.finish(out);
    }
    account.finish_sums(out)
}
