//! The words that an entry (one executed instruction) uses, and the source of each: read, held,
//! forwarded, or a register (docs/ledger.md, "Uses"). `Uses` is an observer (`Watch`), which the
//! calls of this crate notify of each word in order. `st_plain` adds the registers; `st_lines`
//! writes the words, and `st_ledger` finds from them why an instruction waited. Addresses are word
//! addresses.
//!
//! Proved: `push` gives `uses_with` of specs/KeptUses.antt; the clauses `told` of bus.rt,
//! fetching.rt, reading.rt and issue.rt say which words these are.
//!
//! Pinned, by `uses_with`, docs/ledger.md and vectors/ledger/lines.txt: the order of the words.
//! Pinned, by the clause `fits` and the proofs of `st_plain` and `st_ledger`: `ROOM`, 48. At most
//! 39 words come; `push` ignores words after the 48th. A new `Supply` or `Role` needs its cases in
//! `st_lines` and `st_ledger`. Free: the array.
ghost use Rattle.std.specs.Prelude.{◌≡◌, ◌≤◌, ◌∷◌, [], length};
ghost use Rattle.st_rows.specs.KeptUses.{uses_with};

use std::marker::Model;

/// The role of a word in an entry.
#[derive(Clone, Copy, Debug, PartialEq, Eq)]
pub enum Role {
    /// An instruction word, the entry's own or one of the target of EX.
    Instruction,
    /// The index-side word: the word of storage that a change of an index word takes.
    Index,
    /// An operand word.
    Operand,
    /// One of the two words after the entry's own, which are prefetched.
    Following,
}

impl Default for Role {
    ghost use Rattle.std.specs.Prelude.{◌≡◌};
    ghost use Rattle.st_rows.specs.declared.uses.Role.TheVariants.{Instruction as FirstRole};

    ghost is_default = { λ role. role ≡ FirstRole };

    fn default() -> Role {
        Role::Instruction
    }
}

/// A request for a word.
#[derive(Clone, Copy, Debug, Default, PartialEq, Eq)]
pub struct Wish {
    /// The role of the word.
    pub role: Role,
    /// Its word address.
    pub w: u32,
    /// The earliest tick of the request.
    pub from: u64,
}

/// The ticks of a read.
#[derive(Clone, Copy, Debug, Default, PartialEq, Eq)]
pub struct ReadTicks {
    /// The tick of the request.
    pub want: u64,
    /// The first tick at which the bus is free.
    pub turn: u64,
    /// The first tick at which its bank is free: the last answer of the bank.
    pub free: u64,
    /// The tick at which it is accepted, the greatest of these three.
    pub accept: u64,
    /// The tick at which it is answered.
    pub answer: u64,
}

/// An earlier entry that writes a requested word and has not completed at the request.
#[derive(Clone, Copy, Debug, Default, PartialEq, Eq)]
pub struct Writer {
    /// Its distance: how many entries before this one, 1 to 8.
    pub back: u8,
    /// The tick at which it completes.
    pub done: u64,
}

/// The source of a word.
#[derive(Clone, Copy, Debug, PartialEq, Eq)]
pub enum Supply {
    /// It is read from its bank.
    Read(ReadTicks),
    /// It is held, because it was requested before as an instruction word; this is the tick of its
    /// answer.
    Held(u64),
    /// It is forwarded from its latest writer.
    Forwarded(Writer),
    /// It is a register.
    Register,
}

impl Default for Supply {
    ghost use Rattle.std.specs.Prelude.{◌≡◌};
    ghost use Rattle.st_rows.specs.declared.uses.Supply.TheVariants.{Register as NoSupply};

    ghost is_default = { λ supply. supply ≡ NoSupply };

    fn default() -> Supply {
        Supply::Register
    }
}

/// A word that an entry uses.
#[derive(Clone, Copy, Debug, Default, PartialEq, Eq)]
pub struct Use {
    /// The role of the word.
    pub role: Role,
    /// Its word address.
    pub word: u32,
    /// The source of the word.
    pub supply: Supply,
}

// The number of words for which there is room.
const ROOM: usize = 48;

/// The words that an entry uses, in the order of their reads. There are at most 39: four
/// instruction words, the index-side word, 32 operand words and two following words.
#[derive(Debug, Drop)]
pub struct Uses {
    // The first `len` places hold the words.
    words: [Use; ROOM],
    len: usize,
}

impl Model for Uses {
    ghost use Rattle.std.specs.Prelude.{◌≤◌, take};
    ghost use Rattle.arrayvec.specs.ArrayVec.{ArrayVec as Items};
    ghost use Rattle.st_rows.specs.declared.uses.Use.{Use as Used};

    ghost Value = { Items Used };

    ghost view = { λ uses. record { items = take uses.len uses.words } };

    ghost invariant = { λ uses. uses.len ≤ 48 };
}

impl Default for Uses {
    ghost use Rattle.std.specs.Prelude.{◌≡◌, []};

    ghost is_default = { λ uses. uses.items ≡ [] };

    fn default() -> Uses {
        Uses::new()
    }
}

impl Uses {
    /// No words.
    pub fn new() -> Uses
        ensures { result.items ≡ [] }
    {
        Uses {
            words: [Use::default(); ROOM],
            len: 0,
        }
    }

    /// The words.
    pub fn as_slice(&self) -> &[Use]
        ensures value { result.now ≡ self.now.items }
        ensures fits { length result.now ≤ 48 }
    {
        &self.words[..self.len]
    }

    /// Removes all words. Their places are overwritten later.
    pub fn clear(&mut self)
        ensures { self.new.items ≡ [] }
    {
        self.len = 0;
    }

    /// Appends a word. Changes nothing if there are 48 words already.
    pub fn push(&mut self, word: Use)
        ensures { self.new ≡ uses_with (word ∷ []) self.old }
    {
        if self.len < ROOM {
            self.words[self.len] = word;
            self.len += 1;
        }
    }
}
