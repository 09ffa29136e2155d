//! The kinds of access to a word that the boundary register (word 3, memory protection) can forbid.
//! `State::may` maps each kind to the indicator of a forbidden access; `st_prep` names the kind in
//! its checks. docs/machine.md has the rules.
//!
//! Proved: nothing here, since there is no code; `State::may` is proved to be `indicator_of_access`
//! of specs/Boundary.antt.
//!
//! Pinned, by `is_invalid_word` and `protection_indicator` of specs/Boundary.antt: the three kinds.
//! A new kind needs a case in both definitions, and in `State::may`. Free: the order of the
//! variants.

/// A kind of access to a word.
#[derive(Clone, Copy, Debug, PartialEq, Eq)]
pub enum Access {
    /// The word is read as data.
    Read,
    /// The word is written.
    Write,
    /// The word is fetched as an instruction.
    Fetch,
}
