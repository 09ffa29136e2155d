//! The banks of storage with their delays, for one read at a time: a read is accepted or refused at
//! a tick. Addresses are word addresses from 32 to 98,303, ticks are below 2^63. No program uses
//! `Banks`: the timetable of `st_rows` computes with `LastAnswers` and `Delays`, without refusals.
//! `st_calls` tests `Banks`. docs/timetable.md has the rules.
//!
//! Proved: the answers are `answer_if_accepted` and `after_read` of specs/Bank.antt, and None is
//! returned if and only if the bank is still busy. Pinned: `new` and `accept`, by docs/CLAIMS.md,
//! docs/inside.md and the tests of reads.rt of `st_calls`. Free: how the answers are kept, as long
//! as the view (`Model` of `Banks`) gives both lists.
ghost use Rattle.std.specs.Prelude.{◌≡◌, ◌+◌, ◌≤◌, ◌<◌, ◌^◌, length, IfSome};
ghost use Rattle.st_bits.specs.declared.limits.TheConstants.{MOST_DELAY};
ghost use Rattle.st_bits.specs.Storage.{words_of_storage};

use crate::answers::LastAnswers;
use crate::delays::Delays;
use std::marker::Model;

/// The banks of storage with the delays of their reads. Contracts see the list of delays, and the
/// tick of the last answer of each bank, 0 before its first read.
#[derive(Drop)]
pub struct Banks {
    delays: Delays,
    answers: LastAnswers,
}

impl Model for Banks {
    ghost use Rattle.std.specs.Prelude.{◌≡◌, length};
    ghost use Rattle.st_banks.specs.Bank.{BankTimes};
    ghost use Rattle.st_banks.specs.declared.answers.TheConstants.{BANKS};

    ghost Value = { BankTimes };

    ghost view = { λ a. record { delays = a.delays.list; answers = a.answers.ticks } };

    ghost invariant = { λ a. length a.answers.ticks ≡ BANKS };
}

impl Banks {
    ghost use Rattle.st_banks.specs.declared.answers.TheConstants.{BANKS};
    ghost use Rattle.st_banks.specs.Bank.{banks_at_start, last_answer as last_answer_of, answer_if_accepted, after_read};

    /// The banks before the first read.
    pub fn new(delays: Delays) -> Banks
        ensures { result ≡ banks_at_start delays.list }
    {
        Banks {
            delays,
            answers: LastAnswers::new(),
        }
    }

    /// The tick of the last answer of the bank of word `w`, 0 before its first read.
    pub fn last_answer(&self, w: u32) -> u64
        ensures value { result ≡ last_answer_of self.now w }
        ensures banks { length self.now.answers ≡ BANKS }
    {
        self.answers.of(w)
    }

    /// Reads the word `w`, a word address from 32 to 98,303, at `tick`, below 2^63. Returns the
    /// tick of the answer. Returns None and changes nothing if and only if the last answer of the
    /// bank is later than `tick`.
    pub fn accept(&mut self, w: u32, tick: u64) -> Option<u64>
        requires above_registers { 32 ≤ w }
        requires inside { w < words_of_storage }
        requires early { tick < 2 ^ 63 }

        ensures value { result ≡ answer_if_accepted self.old w tick }
        ensures after { self.new ≡ after_read self.old w result }
        ensures bound { IfSome result (λ answer. (tick < answer) × (answer ≤ tick + MOST_DELAY)) }
    {
        if self.last_answer(w) > tick {
            return None;
        }
        let answer = self.delays.answer(tick);
        self.answers = self.answers.after(w, answer);
        Some(answer)
    }
}
