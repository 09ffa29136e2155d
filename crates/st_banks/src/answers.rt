//! The ticks of the last answers of the six banks: all that the timetable has to know of earlier
//! reads, with the delays of the job. Words below 65,536 lie in four banks by their address modulo
//! 4, the others in two by their parity. A read is accepted when it is wanted, possible, and its
//! bank has answered the last one. `st_rows` computes with it; `st_ahead`, `st_plain` and
//! `st_account` keep values, and `st_lines` calls `bank_of`. docs/timetable.md has the rules.
//!
//! Proved: the results are `bank_of`, `accept_tick` and `answered_at` of specs/Bank.antt. Laws of
//! `accept_tick` and `bank_of`: `WordsLieInBanks`, `ReadsKeepTheirBankBusy` and
//! `ReadsAreAcceptedAtTheirTick` (specs/Laws.antt). Pinned: the banks and their words, by these
//! definitions, docs/timetable.md, vectors/timetable.txt and the law `BanksInFigures`
//! (specs/Laws.antt of `st_laws`); the calls, by the crates above and docs/CLAIMS.md. Free: the
//! bodies.
ghost use Rattle.std.specs.Prelude.{◌≡◌, ◌<◌, replicate};
ghost use Rattle.st_banks.specs.Bank.{bank_of as bank_by};

/// The number of banks.
pub const BANKS: usize = 6;

/// The number of words in the first four banks.
pub const LOW_WORDS: u32 = 65_536;

/// The tick of each bank's last answer, 0 before its first read. Contracts see the list of these
/// ticks.
#[derive(Clone, Copy, Debug, Default, PartialEq, Eq)]
pub struct LastAnswers {
    /// The tick of each bank, by bank number.
    pub ticks: [u64; BANKS],
}

impl LastAnswers {
    ghost use Rattle.st_banks.specs.Bank.{last_of, accept_tick as accept_tick_of, answered_at};

    /// The last answers before the first read.
    pub fn new() -> LastAnswers
        ensures { result.ticks ≡ replicate BANKS 0 }
    {
        LastAnswers { ticks: [0; BANKS] }
    }

    /// The tick of the last answer of the bank of word `w`.
    pub fn of(&self, w: u32) -> u64
        ensures { result ≡ last_of self.now.ticks w }
    {
        self.ticks[bank_of(w)]
    }

    /// The tick at which a read of the word `w` is accepted that is possible from `tick` and wanted
    /// from `want`: the maximum of these two and of its bank's last answer.
    pub fn accept_tick(&self, w: u32, tick: u64, want: u64) -> u64
        ensures { result ≡ accept_tick_of self.now.ticks w tick want }
    {
        tick.max(want).max(self.of(w))
    }

    /// The last answers after a read of the word `w` that is answered at `tick`.
    pub fn after(self, w: u32, tick: u64) -> LastAnswers
        ensures { result.ticks ≡ answered_at self.ticks w tick }
    {
        let mut after = self;
        after.answer(w, tick);
        after
    }

    /// Records that a read of the word `w` is answered at `tick`.
    pub fn answer(&mut self, w: u32, tick: u64)
        ensures { self.new.ticks ≡ answered_at self.old.ticks w tick }
    {
        self.ticks[bank_of(w)] = tick;
    }
}

/// The bank of the word `w`.
#[tactic(auto, unfolding(crate::specs::Bank::bank_of))]
pub fn bank_of(w: u32) -> usize
    ensures value { result ≡ bank_by w }
    ensures bound { result < BANKS }
{
    if w < LOW_WORDS {
        (w % 4) as usize
    } else {
        4 + (w % 2) as usize
    }
}
