//! The changes that an entry (instruction) makes before its operands are read, applied to the
//! architectural state when it completes: the interrupt of a table instruction is taken, an index
//! word changes, and indicators turn on or off. Only completing.rt calls `take` and
//! `change_speculatively`; `st_prep` computes the changes. docs/machine.md has the rules.
//!
//! Proved: the states are `state_at_entry` of specs/Plan.antt in `st_prep` and
//! `state_with_speculative_changes` of specs/Completion.antt. Law:
//! `SpeculativeChangesLeaveTheirIndexWords` (specs/Laws.antt). Pinned, by these two definitions,
//! docs/machine.md, vectors/index.txt and vectors/interrupts.txt: the changes. Free: the bodies,
//! and the order of index word and indicators, which are different words.
ghost use Rattle.std.specs.Prelude.{◌≡◌};
ghost use Rattle.st_bits.specs.Indicators.{IsIndicatorIfAny};
ghost use Rattle.st_prep.specs.Plan.{state_at_entry};
ghost use Rattle.st_prep.specs.Ranges.{IsPrepared};
ghost use Rattle.st_exec.specs.Completion.{state_with_speculative_changes as early_of};

use st_bits::register::FIRST_INDEX_WORD;
use st_bits::{Ind, indicator};
use st_prep::Prepared;
use st_state::State;

/// Takes the interrupt of a table instruction: its indicator is turned off, and a wait ends.
pub fn take(table: Option<u8>, state: &mut State)
    requires { IsIndicatorIfAny table }
    ensures { state.new ≡ state_at_entry table state.old }
{
    let Some(i) = table else {
        return;
    };
    state.apply(Ind {
        on: 0,
        off: indicator(i),
    });
    state.waiting = false;
}

/// Applies the speculative change of an entry.
pub fn change_speculatively(p: &Prepared, state: &mut State)
    requires { IsPrepared p.now }
    ensures { state.new ≡ early_of p.now state.old }
{
    if let Some(change) = p.index {
        state.store(FIRST_INDEX_WORD + u32::from(change.number), change.word);
    }
    state.apply(p.ind);
}
