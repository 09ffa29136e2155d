//! Cyclic lists of delays: entry t modulo the length is the number of ticks, 1 to 255, that a read
//! takes which is accepted at tick t. `st_run` makes the list of a job (`/DELAYS`) for its
//! machines, `st_sweep` for its own; `st_rows` computes with it. docs/timetable.md has the rule.
//!
//! Proved: the results are `delay` and `answer_tick` of specs/Delay.antt; a list with a zero is
//! refused with the place of the first one, before memory is allocated. Law: `DelaysAreBounded`
//! (specs/Laws.antt). `new` is the only call that allocates, and `DelayError` has its two errors.
//! Pinned: at most 4,096 entries (`LONGEST_LIST`), and at most 255 ticks (`MOST_DELAY`), by the
//! laws `ControlsInFigures` and `LimitsInFigures` (specs/Laws.antt of `st_laws`) and docs/strap.md;
//! the bounds of `st_rows` rest on 255. Free: the shortcut for one entry, which only saves a
//! division.
ghost use Rattle.std.specs.Prelude.{◌≡◌, ◌+◌, ◌<◌, ◌≤◌, ◌^◌, length, All, IfSome, IfNone};
ghost use Rattle.st_bits.specs.declared.limits.TheConstants.{LONGEST_LIST, MOST_DELAY};
ghost use Rattle.st_banks.specs.Delay.{delay, IsDelay, first_zero as first_zero_of};
ghost use Rattle.std.proofs.Props.{props};

use std::alloc::Global;
use std::marker::Model;

/// The reason why a list of delays is refused.
#[derive(Clone, Copy, Debug, PartialEq, Eq)]
pub enum DelayError {
    /// The entry at this place, counted from 0, is the first zero.
    ZeroDelay { place: u32 },
    /// An allocation of memory failed.
    NoMemory,
}

/// A list of bytes. Contracts see its entries.
#[derive(Drop)]
pub struct DelayList {
    bytes: Vec<u8>,
}

impl Model for DelayList {
    ghost use Rattle.std.specs.Prelude.{List, ℕ};

    ghost Value = { List ℕ };

    ghost view = { λ a. a.bytes.items };
}

/// The delays of reads, in ticks: one or more, each from 1 to 255.
#[derive(Drop)]
pub struct Delays {
    /// The cyclic list, with one entry per tick.
    pub list: DelayList,
    pub ghost some: { 1 ≤ length list },
    pub ghost each: { All IsDelay list } by { Prim.hlevel props },
}

impl Delays {
    ghost use Rattle.st_banks.specs.Delay.{answer_tick};
    ghost use Rattle.st_banks.specs.DelayAnswers.{IsDelayAnswer};

    /// The delays of the list, which has 1 to 4,096 entries. A list with a zero is refused before
    /// memory is allocated.
    pub fn new(alloc: Global, list: &[u8]) -> Result<Delays, DelayError>
        requires some { 1 ≤ length list.now }
        requires few { length list.now ≤ LONGEST_LIST }
        ensures { IsDelayAnswer list.now result }
    {
        if let Some(place) = first_zero(list) {
            return Err(DelayError::ZeroDelay {
                place: place as u32,
            });
        }
        match Vec::from_slice(alloc, list) {
            Ok(bytes) => Ok(Delays {
                list: DelayList { bytes },
            }),
            Err(_) => Err(DelayError::NoMemory),
        }
    }

    /// The delay, from 1 to 255 ticks, of a read that is accepted at `tick`: the list is cyclic,
    /// with one entry per tick.
    pub fn at(&self, tick: u64) -> u8
        ensures value { result ≡ delay self.now.list tick }
        ensures least { 1 ≤ result }
    {
        let bytes = &self.list.bytes;
        let len = bytes.len() as u64;
        // A list of one entry is frequent, and needs no division.
        let place = if len == 1 { 0 } else { tick % len };
        bytes[place as usize]
    }

    /// The tick, 1 to 255 later, at which a read is answered that is accepted at `tick`, below 2^64
    /// - 255.
    pub fn answer(&self, tick: u64) -> u64
        requires early { tick + MOST_DELAY < 2 ^ 64 }
        ensures value { result ≡ answer_tick self.now.list tick }
        ensures later { tick < result }
        ensures most { result ≤ tick + MOST_DELAY }
    {
        tick + u64::from(self.at(tick))
    }
}

// The place of the first zero, None if there is none.
fn first_zero(list: &[u8]) -> Option<usize>
    ensures value { result ≡ first_zero_of list.now }
    ensures bound { IfSome result (λ place. place < length list.now) }
    ensures none { IfNone result (All (λ delay. 1 ≤ delay) list.now) }
{
    list.iter().position(|delay| *delay == 0)
}
