//! The words that the last completed entry (instruction) uses, and those of the entry before it:
//! two lists that take turns, so that no word is copied from one entry to the next. last.rt keeps
//! one `UsesInTurn`; stepping.rt lets `st_plain` note the words of the next entry in the list that
//! `turn` lends.
//!
//! Proved: that list is empty, and afterwards its words are those of the last entry, and those that
//! were the last are the ones before (`LendsNext` of specs/Lending.antt).
//!
//! Pinned, by docs/ledger.md and the clauses of stepping.rt: the words before are those of the
//! previous entry in the segment. Free: which of the lists is lent.
ghost use Rattle.std.specs.Prelude.{◌≡◌, ◌≤◌, [], length};
ghost use Rattle.std.specs.Borrow.{sem};
ghost use Rattle.st_account.specs.Lending.{LendsNext};

use st_rows::{Use, Uses};
use std::marker::Model;

/// The words of the last entry, and those of the entry before it.
#[derive(Drop)]
pub(crate) struct UsesInTurn {
    one: Uses,
    two: Uses,
    // Whether `two` has the words of the last entry, and `one` those of the entry before.
    turned: bool,
}

// Contracts see the words of both entries.
impl Model for UsesInTurn {
    ghost use Rattle.std.specs.Prelude.{if◌then◌else◌};
    ghost use Rattle.st_account.specs.Uses.{UsesOfTwo};

    ghost Value = { UsesOfTwo };

    ghost view = { λ uses. if uses.turned
        then record { items = uses.two.items; before = uses.one.items }
        else record { items = uses.one.items; before = uses.two.items } };
}

impl UsesInTurn {
    /// No words.
    pub fn new() -> UsesInTurn
        ensures { result ≡ record { items = []; before = [] } }
    {
        UsesInTurn {
            one: Uses::new(),
            two: Uses::new(),
            turned: false,
        }
    }

    /// The words of the last entry.
    #[inline(always)]
    pub fn as_slice(&self) -> &[Use]
        ensures value { result.now ≡ self.now.items }
        ensures fits { length result.now ≤ 48 }
    {
        if self.turned {
            self.two.as_slice()
        } else {
            self.one.as_slice()
        }
    }

    /// The words of the entry before it.
    pub fn before(&self) -> &[Use]
        ensures value { result.now ≡ self.now.before }
        ensures fits { length result.now ≤ 48 }
    {
        if self.turned {
            self.one.as_slice()
        } else {
            self.two.as_slice()
        }
    }

    /// Removes the words of the last entry.
    pub fn clear(&mut self)
        ensures { self.new ≡ record self.old { items = [] } }
    {
        if self.turned {
            self.two.clear();
        } else {
            self.one.clear();
        }
    }

    /// Begins the next entry, whose words can be appended to the result, which is empty; the words
    /// of the last entry are those before.
    pub fn turn(&mut self) -> &mut Uses
        ensures* writes_back { sem 𝓛 (LendsNext self.entry result) }
        ensures value { result.now.items ≡ [] }
    {
        if self.turned {
            self.turned = false;
            self.one.clear();
            &mut self.one
        } else {
            self.turned = true;
            self.two.clear();
            &mut self.two
        }
    }
}
