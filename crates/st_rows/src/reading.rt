//! The operand words of an entry, read in order from its preparation on: each word is read from its
//! bank, or forwarded from its latest writer, if that writer completes later than the request.
//! docs/timetable.md has the rules.
//!
//! issue.rt reads the runs of an entry by `read` and `read_on`. A run has at most 16 words, from 32
//! up. The result of `read` is the tick of arrival.
//!
//! Proved: the progress is `read_words` of specs/Words.antt (clause `value` of `read_on`); the log
//! and the observer get the reads in this order (clauses `log`, `told`).
//!
//! Pinned, by specs/Words.antt and docs/timetable.md: a forwarded word makes no read, and does not
//! delay R, the tick at which operands are there. Free: the loop.
ghost use Rattle.std.specs.Prelude.{◌≡◌, ◌-◌, ◌≤◌, ◌^◌, ◌∷◌, []};
ghost use Rattle.st_rows.specs.Asked.{data_asked, operands_asked};
ghost use Rattle.st_rows.specs.Notes.{log_after_reads};
ghost use Rattle.st_rows.specs.Words.{read_word, read_words, fill_at};
ghost use Rattle.st_rows.specs.Ranges.{IsReadingWithin, ArePastWithin, IsReadable};
ghost use Rattle.st_rows.specs.Supplies.{told};
ghost use Rattle.st_rows.specs.Uses.{use_of, uses, words_of};
ghost use Rattle.st_rows.specs.declared.uses.Role.TheVariants.{Operand};

use crate::entry::WordRun;
use crate::fetching::{Fetching, Wanted};
use crate::log::Log;
use crate::uses::{Role, Wish};
use crate::watch::Watch;

impl Fetching {
    // Reads the next operand word of an entry, requested when it is prepared. A word whose latest
    // writer completes later is forwarded and makes no read. Returns the tick at which the word
    // arrives.
    pub(crate) fn read<W: Watch>(
        &mut self,
        log: &mut Log,
        watch: &mut W,
        wanted: &Wanted<'_>,
        w: u32,
    ) -> u64
        requires room { IsReadingWithin (2 ^ 64 - 512) self.old }
        requires before { ArePastWithin (2 ^ 64 - 512) wanted.now.past.now }
        requires early { wanted.now.tick ≤ 2 ^ 64 - 512 }
        requires storage { 32 ≤ w }

        ensures value { let x = wanted.now in
            result ≡ fill_at x.delays.now.list x.past.now self.old.bus w x.tick }
        ensures after { let x = wanted.now in self.new
            ≡ read_word x.delays.now.list x.past.now self.old w x.tick }
        ensures log { let x = wanted.now in log.new ≡ log_after_reads x.delays.now.list
            (data_asked x.past.now w x.tick) self.old.bus log.old }
        ensures told { let x = wanted.now in let ds = x.delays.now.list in
            watch.new ≡ W.noted (told ds x.past.now (use_of ds x.past.now self.old
            (record { role = Operand; w = w; from = x.tick }) ∷ [])) watch.old }
    {
        let past = wanted.past;
        let done = past.latest_done(w);
        if done > wanted.tick {
            watch.forwarded(Role::Operand, w, past, done);
            return done;
        }
        let wish = Wish {
            role: Role::Operand,
            w,
            from: wanted.tick,
        };
        let answer = self.bus.read(log, watch, wanted.delays, wish);
        self.answered = self.answered.max(answer);
        answer
    }

    // Reads the operand words of a run.
    pub(crate) fn read_on<W: Watch>(
        &mut self,
        log: &mut Log,
        watch: &mut W,
        wanted: &Wanted<'_>,
        run: WordRun,
    )
        requires room { IsReadingWithin (2 ^ 64 - 2 ^ 16) self.old }
        requires before { ArePastWithin (2 ^ 64 - 2 ^ 16) wanted.now.past.now }
        requires early { wanted.now.tick ≤ 2 ^ 64 - 2 ^ 16 }
        requires words { IsReadable run }
        requires few { run.len ≤ 16 }

        ensures value { let x = wanted.now in self.new ≡ read_words
            x.delays.now.list x.past.now self.old x.tick run.first run.len }
        ensures log { let x = wanted.now in log.new ≡ log_after_reads x.delays.now.list
            (operands_asked x.past.now x.tick run.first run.len) self.old.bus log.old }
        ensures told { let x = wanted.now in let ds = x.delays.now.list in
            watch.new ≡ W.noted (told ds x.past.now (uses ds x.past.now self.old
            (words_of Operand x.tick run))) watch.old }
    {
        let mut w = run.first;
        let mut left = run.len;
        'words: while left > 0 {
            self.read(log, watch, wanted, w);
            w += 1;
            left -= 1;
        }
    }
}
