//! Small questions about the words that an entry (instruction) uses, for waits.rt and because.rt:
//! the last word, whether it is read, its role, and whether it is the first of its role with an
//! answer at a tick. No other crate sees them. docs/ledger.md has the rules ("Waits", "Reasons").
//! Lists are in the order of the reads; the searches go from the last word to the first, so
//! definitions have the reversed list.
//!
//! Proved: each answer is the definition of its name in specs/Words.antt.
//!
//! Pinned, by `decides` of specs/Words.antt, docs/ledger.md and vectors/ledger/reasons.txt: of
//! several answers at one tick the first word decides. Free: the bodies, if proofs/uses follows
//! `is_any_due`.
ghost use Rattle.std.specs.Prelude.{◌≡◌, ◌+◌, ◌∷◌, [], length, reverse, MatchOption, IfSome};
ghost use Rattle.std.specs.List.{list_any};
ghost use Rattle.st_ledger.specs.Words.{is_read as is_read_of, read_of as read_by, is_instruction as is_instruction_of, is_index as is_index_of, is_operand as is_operand_of, is_role as is_role_of, is_answered as is_answered_of, is_answered_at as is_due_of, decides as decides_of};

use st_rows::{ReadTicks, Role, Supply, Use};

/// The last of some uses, and the uses before it.
pub(crate) fn last_use(uses: &[Use]) -> Option<(&Use, &[Use])>
    ensures parts { MatchOption result (reverse uses.now ≡ [])
        (λ r. reverse uses.now ≡ r.0.now ∷ reverse r.1.now) }
    ensures fewer { IfSome result (λ r. length r.1.now + 1 ≡ length uses.now) }
{
    match uses {
        [earlier @ .., last] => Some((last, earlier)),
        [] => None,
    }
}

/// Whether a word is read.
pub(crate) fn is_read(supply: &Supply) -> bool
    ensures { result ≡ is_read_of supply.now }
{
    match supply {
        Supply::Read(_) => true,
        Supply::Held(_) | Supply::Forwarded(_) | Supply::Register => false,
    }
}

/// The ticks of the read of a word; all are 0 if the word is not read.
pub(crate) fn read_of(supply: &Supply) -> ReadTicks
    ensures { result ≡ read_by supply.now }
{
    match supply {
        Supply::Read(ticks) => *ticks,
        Supply::Held(_) | Supply::Forwarded(_) | Supply::Register => ReadTicks {
            want: 0,
            turn: 0,
            free: 0,
            accept: 0,
            answer: 0,
        },
    }
}

/// Whether a word is used as an instruction word.
pub(crate) fn is_instruction(role: Role) -> bool
    ensures { result ≡ is_instruction_of role }
{
    match role {
        Role::Instruction => true,
        Role::Index | Role::Operand | Role::Following => false,
    }
}

/// Whether a word is used as the index-side word.
pub(crate) fn is_index(role: Role) -> bool
    ensures { result ≡ is_index_of role }
{
    match role {
        Role::Index => true,
        Role::Instruction | Role::Operand | Role::Following => false,
    }
}

// Whether a word is used as an operand word.
fn is_operand(role: Role) -> bool
    ensures { result ≡ is_operand_of role }
{
    match role {
        Role::Operand => true,
        Role::Instruction | Role::Index | Role::Following => false,
    }
}

// Whether a word is used in a role that a row waits for.
fn is_role(role: Role, other: Role) -> bool
    ensures { result ≡ is_role_of role other }
{
    match role {
        Role::Instruction => is_instruction(other),
        Role::Index => is_index(other),
        Role::Operand => is_operand(other),
        Role::Following => false,
    }
}

// Whether a word is answered at tick `t`.
fn is_answered(t: u64, supply: &Supply) -> bool
    ensures { result ≡ is_answered_of t supply.now }
{
    match supply {
        Supply::Read(ticks) => ticks.answer == t,
        Supply::Held(answer) => *answer == t,
        Supply::Forwarded(_) | Supply::Register => false,
    }
}

// Whether a word has this role and is answered at tick `t`.
fn is_due(role: Role, t: u64, one: &Use) -> bool
    ensures { result ≡ is_due_of role t one.now }
{
    is_role(role, one.role) && is_answered(t, &one.supply)
}

// Whether one of some words has this role and is answered at tick `t`.
fn is_any_due(role: Role, t: u64, uses: &[Use]) -> bool
    ensures { result ≡ list_any (is_due_of role t) (reverse uses.now) }
{
    let Some((last, earlier)) = last_use(uses) else {
        return false;
    };
    if is_due(role, t, last) {
        return true;
    }
    is_any_due(role, t, earlier)
}

/// Whether a word is the first of its role that is answered at tick `t`; `earlier` are the words
/// before it.
pub(crate) fn decides(role: Role, t: u64, one: &Use, earlier: &[Use]) -> bool
    ensures { result ≡ decides_of role t one.now (reverse earlier.now) }
{
    is_due(role, t, one) && !is_any_due(role, t, earlier)
}
