//! The test whether a prepared entry (instruction) is mispredicted: every branch on an indicator
//! (BI) is predicted not taken, so a BI is mispredicted if it is taken. Then the entries that ran
//! ahead of this branch are flushed. `st_ring`, `st_sweep` and `st_account` call `is_mispredicted`
//! before the entry completes; the indicators are those after its speculative change.
//! docs/machine.md ("Running ahead") has the rules.
//!
//! Proved: the result is `is_mispredicted` of specs/Completion.antt. Law:
//! `OnlyIndicatorBranchesAreMispredicted` (specs/Laws.antt).
//!
//! Pinned, by this definition, docs/machine.md and vectors/timetable.txt: serializing and
//! suppressed entries are never mispredicted; another prediction needs another definition of
//! `is_mispredicted` and of `predicted_state`, both in specs/Completion.antt. Free: the body, if
//! proofs/mispredicted follows.
ghost use Rattle.std.specs.Prelude.{◌≡◌};
ghost use Rattle.st_prep.specs.Ranges.{IsPrepared};
ghost use Rattle.st_exec.specs.Completion.{is_mispredicted as is_mispredicted_of};

use st_bits::part;
use st_bits::register::INDICATORS;
use st_format::Instr;
use st_prep::Prepared;
use st_state::{State, turned};

/// Whether an entry that was prepared in this state is mispredicted: it is a branch on an indicator
/// that is taken. Its target does not matter.
pub fn is_mispredicted(p: &Prepared, state: &State) -> bool
    requires { IsPrepared p.now }
    ensures { result ≡ is_mispredicted_of p.now state.now }
{
    if p.serial || p.suppressed {
        return false;
    }
    match p.instr {
        Instr::IndBranch { sense, .. } => {
            let indicators = turned(state.word(INDICATORS), p.ind.on, p.ind.off);
            part(indicators, p.e % 64, 1) == u64::from(sense)
        }
        _ => false,
    }
}
