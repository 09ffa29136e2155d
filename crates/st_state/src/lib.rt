//! The architectural state: storage with its registers, the program counter, the flags for enabled
//! interrupts and for waiting, the count of completed instructions, and the orders of the devices.
//! docs/machine.md has the rules. `st_prep` reads it; `st_exec`, `st_back` and `st_ahead` read and
//! write it by these calls and the public fields; crates of runs, reports and the ledger show it.
//!
//! Proved: each call has the result or new state of specs/Machine.antt, Boundary.antt,
//! Interrupts.antt or Orders.antt; the invariant is `IsMachine` (specs/Machine.antt), which a step
//! keeps (the law `EntriesLeaveStates` of `st_exec`). Only `State::new` allocates.
//!
//! Pinned, by `fix_register` of `st_bits` and docs/machine.md: the fixed bits below. Pinned, by
//! `forbidden_by` of specs/Boundary.antt: the order of the checks in `may`. Pinned, by
//! specs/View.antt and the crates named above: the public fields. Free: how words are kept, as long
//! as specs/View.antt maps them to a `Machine`, if proofs/State follows.
//!
//! Words 0 to 31 of storage are the registers. A letter is a bit that can be one, `.` is always
//! zero and `1` always one; bit 0 is leftmost.
//!
//! ```text
//!        0        8        16       24       32       40       48       56
//!     0  ........ ........ ........ ........ ........ ........ ........ ........
//!     2  aaaaaaaa aaaaaaaa aa...... ........ ........ ........ ........ ........
//!     3  uuuuuuuu uuuuuuuu uu...... ........ llllllll llllllll ll...... .c......
//!     7  ........ ........ .zzzzzzz ........ ........ ....oooo ooo..... ........
//!     8  hhhhhhhh hhhhhhhh hhhhhhhh hhhhhhhh hhhhhhhh hhhhhhhh hhhhhhhh hhhhhhhh
//!     9  hhhhhhhh hhhhhhhh hhhhhhhh hhhhhhhh hhhhhhhh hhhhhhhh hhhhhhhh hhhhhhhh
//!    10  zzzzsfff ........ ........ ........ ........ ........ ........ ........
//!    11  iiiiiiii iiiiiiii iiiiiiii iiiiiiii iiiiiiii iiiiiiii iiiiiiii iiiiiiii
//!    12  11111111 11111111 1111mmmm mmmmmmmm mmmmmmmm mmmmmmmm ........ ........
//!    13  xxxxxxxx xxxxxxxx xxxxxxxx xxxxxxxx xxxxxxxx xxxxxxxx xxxxxxxx xxxxxxxx
//! 16-31  vvvvvvvv vvvvvvvv vvvvvvvv sfffnnnn nnnnnnnn nnnnnnrr rrrrrrrr rrrrrrrr
//!
//!     0  zero ($Z); so are 1, 4, 5 and 6
//!     2  interruption address ($IA)
//!     3  upper and lower bound, boundary control
//!     7  left zeros count, all ones count
//!     8  accumulator, left half ($L)
//!     9  accumulator, right half ($R)
//!    10  sign byte: zone, sign, flags T U V ($SB)
//!    11  indicators ($IND)
//!    12  mask ($MASK)
//!    13  remainder ($RM); 14 factor ($FT), 15 transit ($TR)
//! 16-31  index words: value, sign, flags, count, refill
//! ```
#![tactic(auto, using(st_bits::specs::Storage::words_of_storage_is))]

ghost use Rattle.std.specs.Prelude.{◌≡◌, ◌+◌, ◌*◌, ◌<◌, ◌≤◌, ◌^◌, IfOk, IsNone};
ghost use Rattle.st_bits.specs.Indicators.{IsIndicatorIfAny};
ghost use Rattle.st_bits.specs.Registers.{register_word};
ghost use Rattle.st_bits.specs.Storage.{IsImage, words_of_storage};

use indicators::leftmost;
use st_bits::indicators::{
    ADDRESS_INVALID, CHANNEL_SIGNAL, DATA_FETCH, DATA_STORE, INSTRUCTION_FETCH,
};
use st_bits::register::{BOUNDS, FIRST_STORAGE_WORD, INDICATORS, MASK};
use st_bits::{Ind, NoMemory, WORDS, fix_register, indicator, part, put_field};
use std::alloc::Global;
use std::marker::Model;

mod devices;
mod indicators;
mod protection;
mod shown;

pub use devices::{Device, Order, is_due};
pub use indicators::turned;
pub use protection::Access;
pub use shown::{counter_in, done_in, is_enabled};

/// The architectural state of the machine between two instructions.
#[derive(Drop)]
pub struct State {
    words: Vec<u64>,
    /// The program counter, a half-word address below 2^19.
    pub ic: u32,
    /// Whether interrupts are enabled.
    pub enabled: bool,
    /// Whether the machine waits.
    pub waiting: bool,
    /// The number of completed instructions.
    pub done: u64,
    /// The order of the card reader, if it has one.
    pub reader: Option<Order>,
    /// The order of the line printer, if it has one.
    pub printer: Option<Order>,
}

impl Model for State {
    ghost use Rattle.st_state.specs.Machine.{Machine, IsMachine};

    ghost Value = { Machine };

    ghost use Rattle.st_state.specs.View.{machine};

    ghost view = { machine };

    ghost invariant = { λ a. IsMachine (machine a) };
}

impl State {
    ghost use Rattle.st_state.specs.Machine.{IsMachine, opening_state, state_with_bits, state_with_store, word as word_of};
    ghost use Rattle.st_bits.specs.Bits.{bits as bits_of};
    ghost use Rattle.st_state.specs.Interrupts.{state_with_indicators, state_with_signal, pending as pending_of};
    ghost use Rattle.st_state.specs.Boundary.{indicator_of_access, is_protected};
    ghost use Rattle.st_state.specs.Orders.{due as due_of, next_device as next_device_of};

    /// The initial state: storage is the image, of 98,304 words with zeros in words 0 to 31; all
    /// registers are zero except the fixed bits of the mask; and the program counter is the
    /// half-word address `start`, below 2^19. The only error is a failed allocation.
    pub fn new(alloc: Global, image: &[u64], start: u32) -> Result<State, NoMemory>
        requires image { IsImage image.now }
        requires counter { start < 2 ^ 19 }
        ensures value { IfOk result (λ s. s ≡ opening_state image.now start) }
        ensures machine { IfOk result IsMachine }
    {
        let Ok(mut words) = Vec::from_slice(alloc, image) else {
            return Err(NoMemory);
        };
        words[MASK as usize] = fix_register(MASK as u8, 0);
        Ok(State {
            words,
            ic: start,
            enabled: false,
            waiting: false,
            done: 0,
            reader: None,
            printer: None,
        })
    }

    /// Provides the invariant of the state to the caller's proof: storage has all its words, the
    /// counter is below 2^19, registers have their fixed bits, and the area of an order lies in
    /// storage above the registers.
    pub fn shape(&self)
        ensures { IsMachine self.now }
    {
        let _ = &self.ic;
    }

    /// All words of storage, in order of address.
    pub fn words(&self) -> &[u64]
        ensures words { result.now ≡ self.now.words }
        ensures machine { IsMachine self.now }
    {
        self.words.as_slice()
    }

    /// The word at the word address `w`, below WORDS.
    pub fn word(&self, w: u32) -> u64
        requires { w < words_of_storage }
        ensures value { result ≡ word_of self.now w }
        ensures machine { IsMachine self.now }
    {
        self.words[w as usize]
    }

    /// Writes `value` to the word at the word address `w`, below WORDS. Fixed bits of a register
    /// keep their value.
    pub fn store(&mut self, w: u32, value: u64)
        requires { w < words_of_storage }
        ensures { self.new ≡ state_with_store self.old w value }
    {
        self.words[w as usize] = fixed_word(w, value);
    }

    /// Writes the number `bits`, below 2^n, to the `n` bits, 1 to 64, of storage from the bit
    /// address `a`. Fixed bits of a register keep their value, and no other bit changes.
    #[inline(always)]
    pub fn put_field(&mut self, a: u32, n: u8, bits: u64)
        requires some { 1 ≤ n }
        requires few { n ≤ 64 }
        requires inside { a + n ≤ 64 * words_of_storage }
        requires fits { bits < 2 ^ n }
        ensures { self.new ≡ state_with_bits self.old a (bits_of n bits) }
    {
        let w = a / 64;
        let first = a % 64;
        if first + n as u32 <= 64 {
            let mut words = [self.word(w)];
            put_field(&mut words, first, n, bits);
            self.store(w, words[0]);
        } else {
            let mut words = [self.word(w), self.word(w + 1)];
            put_field(&mut words, first, n, bits);
            self.store(w, words[0]);
            self.store(w + 1, words[1]);
        }
    }

    /// The indicator for a forbidden access to the word address `w`, None if the access is allowed.
    /// An address past storage, or a register that is fetched as an instruction, is invalid;
    /// protection by the boundary is checked after that.
    #[tactic(auto, unfolding(crate::specs::Boundary::forbidden_by), using(st_bits::specs::Storage::words_of_storage_is))]
    pub fn may(&self, access: Access, w: u32) -> Option<u8>
        ensures value { result ≡ indicator_of_access self.now access w }
        ensures bound { IsIndicatorIfAny result }
        ensures inside { IsNone result → w < words_of_storage }
    {
        let lowest = match access {
            Access::Fetch => FIRST_STORAGE_WORD,
            Access::Read | Access::Write => 0,
        };
        if w < lowest || w >= WORDS {
            return Some(ADDRESS_INVALID);
        }
        if !self.protects(w) {
            return None;
        }
        Some(match access {
            Access::Write => DATA_STORE,
            Access::Read => DATA_FETCH,
            Access::Fetch => INSTRUCTION_FETCH,
        })
    }

    // Whether the boundary register protects the word `w`.
    fn protects(&self, w: u32) -> bool
        ensures { result ≡ is_protected (word_of self.now BOUNDS) self.now.enabled w }
    {
        let bounds = self.words[BOUNDS as usize];
        let place = u64::from(w);
        let between = part(bounds, 32, 18) <= place && place < part(bounds, 0, 18);
        self.enabled && FIRST_STORAGE_WORD <= w && between == (part(bounds, 57, 1) == 0)
    }

    /// The leftmost pending indicator, 0 to 63; None if there is none.
    pub fn pending(&self) -> Option<u8>
        ensures value { result ≡ pending_of self.now }
        ensures bound { IsIndicatorIfAny result }
    {
        leftmost(self.word(INDICATORS), self.word(MASK))
    }

    /// Turns on the indicator `i`, at most the channel signal, as an external signal does.
    pub fn signal(&mut self, i: u8)
        requires { i ≤ CHANNEL_SIGNAL }
        ensures value { self.new ≡ state_with_signal self.old i }
        ensures before { IsMachine self.old }
        ensures after { IsMachine self.new }
    {
        self.apply(Ind {
            on: indicator(i),
            off: 0,
        });
    }

    /// Turns indicators on and off; an indicator that is in both words is on.
    pub fn apply(&mut self, ind: Ind)
        ensures value { self.new ≡ state_with_indicators ind self.old }
        ensures before { IsMachine self.old }
        ensures after { IsMachine self.new }
    {
        self.words[INDICATORS as usize] = turned(self.words[INDICATORS as usize], ind.on, ind.off);
    }

    /// The device whose order takes effect next among those that are due; None if none is due.
    pub fn due(&self) -> Option<Device>
        ensures { result ≡ due_of self.now }
    {
        if is_due(self.reader, self.done) {
            Some(Device::Reader)
        } else if is_due(self.printer, self.done) {
            Some(Device::Printer)
        } else {
            None
        }
    }

    /// The device whose order takes effect next while the machine waits; None if there is no order.
    pub fn next_device(&self) -> Option<Device>
        ensures { result ≡ next_device_of self.now }
    {
        match (self.reader, self.printer) {
            (None, None) => None,
            (Some(_), None) => Some(Device::Reader),
            (None, Some(_)) => Some(Device::Printer),
            (Some(reader), Some(printer)) => {
                if reader.due <= printer.due {
                    Some(Device::Reader)
                } else {
                    Some(Device::Printer)
                }
            }
        }
    }
}

// The contents of word `w` after `value` is written to it.
fn fixed_word(w: u32, value: u64) -> u64
    ensures { result ≡ register_word w value }
{
    if w < FIRST_STORAGE_WORD {
        fix_register(w as u8, value)
    } else {
        value
    }
}
