//! Two tests of a prepared entry (instruction) for the levels: whether it is a transmission (T or
//! SWAP), whose operands have no slots, and whether it is mispredicted, with the counter by which
//! the entries after it were prepared. docs/timetable.md has the rules. filling.rt calls
//! `is_transmission`, levels.rt `mispredicted`.
//!
//! Proved: the results are `is_transmission` of `st_prep` and `is_mispredicted` of `st_exec`, with
//! the predicted counter, a half-word address.
//!
//! Pinned, by these definitions and specs/Slots.antt: which entries are transmissions, and that
//! they have no slots, whatever they read. Free: the bodies.
ghost use Rattle.std.specs.Prelude.{◌≡◌, None, Some, if◌then◌else◌};
ghost use Rattle.st_prep.specs.FewWords.{is_transmission as is_transmission_of};
ghost use Rattle.st_prep.specs.Ranges.{IsPrepared};
ghost use Rattle.st_exec.specs.Completion.{is_mispredicted as is_mispredicted_of};

use st_exec::is_mispredicted;
use st_format::Instr;
use st_prep::Prepared;
use st_state::State;

// Whether an instruction is T or SWAP.
pub(crate) fn is_transmission(instr: &Instr) -> bool
    ensures { result ≡ is_transmission_of instr.now }
{
    matches!(*instr, Instr::Move { .. })
}

// The predicted counter of an entry, if the entry is mispredicted.
pub(crate) fn mispredicted(p: &Prepared, state: &State) -> Option<u32>
    requires { IsPrepared p.now }
    ensures { result ≡ (if is_mispredicted_of p.now state.now then Some p.now.following else None) }
{
    if is_mispredicted(p, state) {
        Some(p.following)
    } else {
        None
    }
}
