//! The data structures of preparation: the place of an entry, the words fetched there, its needs,
//! and the prepared entry. An entry is one instruction on its way; EX and its target are one.
//! docs/machine.md ("How an instruction is prepared") has the rules. All addresses are `u32`: each
//! field says which. fetching.rt, runs.rt, speculative.rt and preparation.rt make the values,
//! `st_next` a `Fetched`, `st_ahead` a `Place`. `st_exec`, `st_next`, `st_ring`, `st_ahead`,
//! `st_back`, `st_sweep`, `st_plain`, `st_account` and `st_lines` read `Prepared`.
//!
//! Proved: nothing here, since there is no code. The makers promise the ranges of specs/Ranges.antt
//! (`IsPlace`, `IsPrepared` and so on); law, for every state: `PlansAreInRange` (specs/Laws.antt).
//!
//! Pinned, by specs/Plan.antt, specs/Reading.antt and the specs of these crates: the fields. A new
//! field of an entry needs its value in specs/Plan.antt and preparation.rt, for a suppressed entry
//! too; one of `Fetched` in specs/Reading.antt, fetching.rt and `st_next`. Free: `ResolvedEntry`,
//! which stays in this crate.
use st_bits::Ind;
use st_format::{Decoded, Instr};

/// The place of an entry.
#[derive(Clone, Copy, Debug, Default, PartialEq, Eq)]
pub struct Place {
    /// The counter before it, a half-word address below 2^19.
    pub counter: u32,
    /// The half-word address of its instruction: the counter, or the left half of the table word.
    pub address: u32,
    /// For a table instruction, the indicator, 0 to 63, whose interrupt executes it.
    pub table: Option<u8>,
}

/// The result of fetching at a place.
#[derive(Clone, Copy, Debug, Default, PartialEq, Eq)]
pub struct Fetched {
    /// The instruction. If its first word may not be fetched, it is one half-word without a valid
    /// operation; if its second word may not be fetched, it is decoded with zeros there.
    pub instr: Decoded,
    /// The instruction that EX executes, if its words may be fetched.
    pub target: Option<Decoded>,
    /// The indicator that forbids the first word of the instruction or of the target of EX that may
    /// not be fetched.
    pub fault: Option<u8>,
}

/// The progress of fetching an entry.
#[derive(Clone, Copy, Debug, PartialEq, Eq)]
pub enum Fetching {
    /// The word at this word address is read next. It belongs to the target of EX if `target` is
    /// true, otherwise to the entry's own instruction.
    Next { word: u32, target: bool },
    /// Fetching is complete.
    Found(Fetched),
}

/// The needs of an entry that must be met before it can be prepared.
#[derive(Clone, Copy, Debug, Default, PartialEq, Eq)]
pub struct Needs {
    /// The word address of its index-side word, which changes an index word or is compared with
    /// one. None if it needs no such word.
    pub index_read: Option<u32>,
    /// Whether it is serializing: it waits for all earlier entries, and all later ones wait for it.
    pub serial: bool,
}

/// Two runs of words in storage, in this order. An empty run begins at 0.
#[derive(Clone, Copy, Debug, Default, PartialEq, Eq)]
pub struct Words {
    /// The word address of the first run.
    pub first: u32,
    /// The word address of the second run.
    pub first2: u32,
    /// The number of words of the first run, 0 to 16.
    pub len: u8,
    /// The number of words of the second run, 0 to 16.
    pub len2: u8,
}

/// An entry whose addresses are resolved, before it is prepared.
#[derive(Clone, Copy, Debug, PartialEq, Eq)]
pub struct ResolvedEntry {
    /// The instruction that is executed: the target of EX if it could be fetched.
    pub instr: Instr,
    /// The effective address, a bit address below 2^24.
    pub e: u32,
    /// The operand words that it reads.
    pub reads: Words,
    /// The words that it writes.
    pub writes: Words,
    /// The index-side word.
    pub side: Option<u32>,
    /// The indicator of the first check that it fails.
    pub fault: Option<u8>,
    /// The length of the entry in half-words; for EX its own length, not that of its target.
    pub halves: u8,
    /// Whether it is serializing even if it is suppressed.
    pub alone: bool,
}

/// A change of an index word.
#[derive(Clone, Copy, Debug, Default, PartialEq, Eq)]
pub struct IndexChange {
    /// The word before the change.
    pub kept: u64,
    /// The word after the change.
    pub word: u64,
    /// The number of the index word, 0 to 15.
    pub number: u8,
}

/// A prepared entry. The default value is only a placeholder.
#[derive(Clone, Copy, Debug, Default, PartialEq, Eq)]
pub struct Prepared {
    /// The place of the entry.
    pub place: Place,
    /// The instruction that is executed: the target of EX if it could be fetched.
    pub instr: Instr,
    /// The effective address, a bit address below 2^24. For a progressive form it is the start of
    /// the field; for a suppressed entry it is 0.
    pub e: u32,
    /// The counter after it, a half-word address. For a branch on a bit or on an indicator it is
    /// that of the following instruction, as if no branch were taken.
    pub following: u32,
    /// The operand words that it reads, in order.
    pub reads: Words,
    /// The words that it writes, in order.
    pub writes: Words,
    /// The index word that it changes before its operands are read.
    pub index: Option<IndexChange>,
    /// The indicators that are turned on and off with the index word, or the indicator of a fault.
    pub ind: Ind,
    /// The value that is stored: for an index store, the whole index word or the number in the
    /// stored part; for SIC, the half-word address of the following instruction; otherwise 0.
    pub value: u64,
    /// Whether a check failed, so that only the indicator in `ind` and the counter change.
    pub suppressed: bool,
    /// The ticks from the arrival of its operands to its completion, 1 to 24.
    pub cost: u8,
    /// Whether it is serializing.
    pub serial: bool,
}
