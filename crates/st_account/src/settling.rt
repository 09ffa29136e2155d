//! Applies the events between two entries (instructions): signals and orders that are due, and the
//! end of a wait; with the printed lines for the ledger. docs/machine.md has the rules. account.rt
//! calls `settle`, and says `still` if it knows that nothing happens, which is the usual case.
//!
//! Proved: the state and the pending events are those after `interlude` (specs/Run.antt of
//! `st_run`), also if `still` holds. At most one line is printed between two entries, so `printed`
//! has room. Not proved: that the shortcut saves time.
//!
//! Pinned: the events and their order, by docs/machine.md and that definition, which the overlapped
//! run of `st_run` has in common with the ledger. Free: the shortcut, and the body of `settle`, if
//! proofs/settling follows.
ghost use Rattle.std.specs.Prelude.{◌≡◌, Bool, true, nat_lt, length};
ghost use Rattle.st_exec.specs.Step.{rests};
ghost use Rattle.st_run.specs.ExternalEvents.{scene_at};
ghost use Rattle.st_run.specs.Run.{with_due_signals, with_due_orders, interlude};
ghost use Rattle.st_account.specs.Settling.{words_printed};
ghost use Rattle.st_account.specs.Standing.{still_by};

use st_lines::Printed;
use st_run::PendingEvents;
use st_run::between::{Interlude, between};
use st_state::State;

/// Applies the signals and orders that are due, and the end of a wait; nothing if the caller says
/// that no event is due. `printed` receives the printed lines; its previous contents are
/// overwritten.
pub(crate) fn settle(
    still: bool,
    state: &mut State,
    pending: &mut PendingEvents<'_>,
    printed: &mut Printed,
) -> Interlude
    requires { still ≡ true →
        (mispredicted : Bool) × (still_by state.old mispredicted pending.old.signals ≡ true) }

    ensures came { scene_at state.new pending.new
        ≡ (interlude (scene_at state.old pending.old)).scene }
    ensures printed { printed.new.items
        ≡ words_printed (interlude (scene_at state.old pending.old)).happened }
    ensures card { result.card ≡ nat_lt (length pending.new.cards) (length pending.old.cards) }
    ensures waited { result.waited ≡ rests (with_due_orders (with_due_signals
        (scene_at state.old pending.old))).scene.machine }
{
    printed.clear();
    if still {
        return Interlude {
            card: false,
            waited: false,
            words: None,
        };
    }
    let came = between(state, pending);
    if let Some(words) = came.words {
        printed.push(words);
    }
    came
}
