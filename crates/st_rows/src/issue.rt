//! The issue state, which is the input to the timetable row of the next entry (a scoreboard with
//! the state of fetch), and the computation of that row. docs/timetable.md has the rules.
//!
//! `form` gives A and P (address formed, prepared), `fill` gives R and C (operands there,
//! complete), `pass` goes to the next entry. `st_next` calls `form`, `st_ahead` and `st_plain` `fill`
//! and `pass`. Ticks count from the start of the run; C of the last entry is at
//! most 2^63 + 2^20.
//!
//! Proved: the row is `row_of_entry`, and the state after it `issue_after_entry`, of
//! specs/Rows.antt. The log and the observer get all reads of the entry (specs/Asked.antt; clauses
//! `log`, `told`).
//!
//! Pinned, by the definitions of specs/Rows.antt, docs/timetable.md and vectors/timetable.txt: each
//! formula of a tick. docs/changes/timetable.patch is an example that changes one. Free: inlining
//! and the split into functions.
ghost use Rattle.std.specs.Prelude.{◌≡◌, ◌+◌, ◌-◌, ◌≤◌, ◌<◌, ◌^◌, ◌++◌, [], ℕ, All, IfSome, List};
ghost use Rattle.st_bits.specs.declared.limits.TheConstants.{MOST_DELAY};
ghost use Rattle.st_rows.specs.Asked.{side_asked, operands_asked, runs_asked, inside_asked, following_asked, prepared_asked};
ghost use Rattle.st_rows.specs.Notes.{log_after_reads};
ghost use Rattle.st_rows.specs.Rows.{opening_issue, wanted_from, words_tick, address_tick, preparation_tick as prepared_of};
ghost use Rattle.st_rows.specs.Words.{bus_after_index_read, side_there, operands_read, read_words, request_inside as request_inside_of, bus_after_prefetch, fills_of, fills as fills_of_entry};
ghost use Rattle.st_rows.specs.Rows.{tick_a, bus_a, tick_p, row_of_entry as row_of, issue_after_entry};
ghost use Rattle.st_rows.specs.Rows.{index_uses, first_uses, second_uses, following_uses, inside_wish, followings};
ghost use Rattle.st_rows.specs.Supplies.{told, register_uses};
ghost use Rattle.st_rows.specs.Uses.{uses, unused, words_of, wish_of};
ghost use Rattle.st_rows.specs.declared.uses.Role.TheVariants.{Operand};
ghost use Rattle.st_rows.specs.Ranges.{IsEntryInTime, IsTight, IsBusWithin, IsFetchingWithin, IsReadingWithin, ArePastWithin, IsReadable};

use crate::bus::Bus;
use crate::entry::{Entry, WordRun, WordRuns};
use crate::fetching::{Fetching, Wanted};
use crate::log::Log;
use crate::past::{LastEntries, Past};
use crate::timing::Timing;
use crate::uses::{Role, Wish};
use crate::watch::Watch;
use st_banks::{Delays, LastAnswers};
use st_bits::WORDS;

/// The ticks of an entry.
#[derive(Clone, Copy, Debug, Default, PartialEq, Eq)]
pub struct EntryTicks {
    /// A: its address is formed, after its instruction words have arrived.
    pub a: u64,
    /// P: it is prepared.
    pub p: u64,
    /// R: the operand words that it reads have arrived.
    pub r: u64,
    /// C: it completes.
    pub c: u64,
}

/// The input to the row of the next entry, as `docs/timetable.md` defines it.
#[derive(Default, Drop)]
pub struct IssueState {
    /// The bus after the reads of the entries so far.
    pub bus: Bus,
    /// P of the last entry; before the first entry, the start of the segment.
    pub p: u64,
    /// C of the last entry; before the first entry, the start of the segment.
    pub c: u64,
    /// Whether the last entry is serializing.
    pub serial: bool,
    /// The last eight entries of the segment, newest first.
    pub past: LastEntries,
}

/// The ticks of an entry whose address is formed.
#[derive(Clone, Copy, Debug, Default, PartialEq, Eq)]
pub struct Formed {
    /// When its address is formed.
    pub a: u64,
    /// When it is prepared.
    pub p: u64,
}

/// The next entry, with the delays and the number of levels.
#[derive(Clone, Copy)]
pub struct TimedEntry<'a> {
    /// The entry.
    pub entry: &'a Entry,
    /// The delays and the number of levels of the machine.
    pub timing: &'a Timing<'a>,
}

/// An entry whose address is formed, with the delays and the number of levels.
#[derive(Clone, Copy)]
pub struct FormedEntry<'a> {
    /// The entry.
    pub entry: &'a Entry,
    /// The delays and the number of levels of the machine.
    pub timing: &'a Timing<'a>,
    /// Its ticks so far.
    pub formed: Formed,
    /// The registers among its operand words, of which the observer is notified.
    pub registers: WordRuns,
}

/// The result of reading the operands of an entry.
#[derive(Clone, Copy, Debug, Default, PartialEq, Eq)]
pub struct Filled {
    /// Its ticks.
    pub row: EntryTicks,
    /// The arrival ticks of the first two words of its first run of operands, 0 for a missing word.
    pub fills: [u64; 2],
}

impl IssueState {
    /// The issue state of a segment that starts at the tick `start` with these last answers of the
    /// banks.
    pub fn new(banks: LastAnswers, start: u64) -> IssueState
        requires { All (λ t. t ≤ start + MOST_DELAY) banks.ticks }
        ensures value { result ≡ opening_issue banks start }
        ensures tight { IsTight MOST_DELAY result }
    {
        IssueState {
            bus: Bus::new(banks, start),
            p: start,
            c: start,
            serial: false,
            past: LastEntries::new(),
        }
    }

    /// The tick at which the first instruction word of the next entry is requested.
    pub fn wanted_from(&self) -> u64
        ensures { result ≡ wanted_from self.now }
    {
        if self.serial {
            self.p.max(self.c)
        } else {
            self.p
        }
    }

    // The tick at which the address of the next entry is formed.
    fn address(&self, entry: &Entry, words: &Fetching) -> u64
        requires tight { IsTight MOST_DELAY self.now }
        requires early { self.now.c ≤ 2 ^ 63 + 2 ^ 20 }
        requires room { IsFetchingWithin (self.now.c + 1791) words.now }
        ensures value { result
            ≡ address_tick self.now entry.now words.now.answered words.now.awaited }
        ensures bound { result ≤ self.now.c + 1792 }
    {
        let alone = if entry.serial || self.serial {
            self.c
        } else {
            0
        };
        let there = words.answered.max(words.awaited).max(self.p).max(alone);
        (there + 1).max(self.bus.free)
    }

    /// Forms the address of the next entry, whose instruction words have been fetched, and requests
    /// its index-side word.
    #[inline(always)]
    pub fn form<W: Watch>(
        &self,
        next: &TimedEntry<'_>,
        words: &mut Fetching,
        log: &mut Log,
        watch: &mut W,
    ) -> Formed
        requires entry { IsEntryInTime next.now.entry.now }
        requires tight { IsTight MOST_DELAY self.now }
        requires early { self.now.c ≤ 2 ^ 63 + 2 ^ 20 }
        requires words { words.old ≡ words_tick next.now.timing.now.delays.now.list self.now next.now.entry.now }

        ensures address { result.a ≡ tick_a next.now.timing.now.delays.now.list self.now next.now.entry.now }
        ensures bus { words.new.bus ≡ bus_a next.now.timing.now.delays.now.list self.now next.now.entry.now }
        ensures awaited { words.new.awaited ≡ words.old.awaited }
        ensures tick { let t = next.now.timing.now in
            result.p ≡ tick_p t.delays.now.list t.levels self.now next.now.entry.now }
        ensures log { log.new ≡ log_after_reads next.now.timing.now.delays.now.list
            (side_asked self.now.past next.now.entry.now.side result.a) words.old.bus log.old }
        ensures told { let ds = next.now.timing.now.delays.now.list in watch.new
            ≡ W.noted (told ds self.now.past (index_uses ds self.now next.now.entry.now)) watch.old }
    {
        let TimedEntry { entry, timing } = *next;
        let a = self.address(entry, words);
        let wanted = Wanted {
            tick: a,
            delays: timing.delays,
            past: &self.past,
        };
        let y = side(&mut words.bus, log, watch, &wanted, entry.side);
        let p = prepared_at(timing.levels, &self.past, a, y);
        Formed { a, p }
    }

    /// Reads the operand words of the next entry, whose address was formed by `form`, and requests
    /// its following words. The registers of each run come before its words of storage. The issue
    /// state does not change.
    #[inline(always)]
    pub fn fill<W: Watch>(
        &self,
        next: &FormedEntry<'_>,
        words: &mut Fetching,
        log: &mut Log,
        watch: &mut W,
    ) -> Filled
        requires entry { IsEntryInTime next.now.entry.now }
        requires tight { IsTight MOST_DELAY self.now }
        requires early { self.now.c ≤ 2 ^ 63 + 2 ^ 20 }
        requires address { let t = next.now.timing.now in let e = next.now.entry.now in
            next.now.formed.a ≡ tick_a t.delays.now.list self.now e }
        requires bus { let t = next.now.timing.now in let e = next.now.entry.now in
            words.old.bus ≡ bus_a t.delays.now.list self.now e }
        requires tick { let t = next.now.timing.now in let e = next.now.entry.now in
            next.now.formed.p ≡ tick_p t.delays.now.list t.levels self.now e }
        requires one { next.now.registers.one.first < 2 ^ 18 }
        requires two { next.now.registers.two.first < 2 ^ 18 }

        ensures value { let t = next.now.timing.now in let e = next.now.entry.now in
            result.row ≡ row_of t.delays.now.list t.levels self.now e }
        ensures fills { let t = next.now.timing.now in let e = next.now.entry.now in
            result.fills ≡ fills_of_entry t.delays.now.list t.levels self.now e }
        ensures bus { let t = next.now.timing.now in let e = next.now.entry.now in
            words.new.bus ≡ (issue_after_entry t.delays.now.list t.levels self.now e).bus }
        ensures log { let t = next.now.timing.now in let e = next.now.entry.now in
            log.new ≡ log_after_reads t.delays.now.list
            (prepared_asked t.delays.now.list t.levels self.now e) words.old.bus log.old }
        ensures told { let t = next.now.timing.now in let ds = t.delays.now.list in let n = t.levels in
            let f = self.now in let e = next.now.entry.now in let x = next.now.registers in
            watch.new ≡ W.noted
            (((register_uses x.one.first x.one.len ++ told ds f.past (first_uses ds n f e))
            ++ (register_uses x.two.first x.two.len ++ told ds f.past (second_uses ds n f e)))
            ++ told ds [] (following_uses ds n f e)) watch.old }
    {
        let entry = next.entry;
        let timing = next.timing;
        let Formed { a, p } = next.formed;
        let wanted = Wanted {
            tick: p,
            delays: timing.delays,
            past: &self.past,
        };
        words.answered = p;
        words.awaited = 0;
        let fills = read_operands(words, log, watch, &wanted, &entry.reads, &next.registers);
        let r = words.answered;
        let c = self.c.max(r) + u64::from(entry.cost);
        follow(&mut words.bus, log, watch, &wanted, entry);
        Filled {
            row: EntryTicks { a, p, r, c },
            fills,
        }
    }

    /// Advances past the next entry, given its row and the bus after all its reads.
    pub fn pass(&mut self, entry: &Entry, row: &EntryTicks, bus: &Bus)
        ensures { (ds : List ℕ) (n : ℕ) → row.now ≡ row_of ds n self.old entry.now →
            bus.now ≡ (issue_after_entry ds n self.old entry.now).bus →
            self.new ≡ issue_after_entry ds n self.old entry.now }
    {
        self.bus = *bus;
        self.p = row.p;
        self.c = row.c;
        self.serial = entry.serial;
        self.past.put(Past {
            c: row.c,
            writes: entry.writes,
        });
    }
}

// Requests the index-side word of an entry, if there is one, when its address is formed. A word
// whose latest writer completes later is forwarded. Returns the tick of its arrival, 0 if there is
// none.
#[inline(always)]
fn side<W: Watch>(
    bus: &mut Bus,
    log: &mut Log,
    watch: &mut W,
    wanted: &Wanted<'_>,
    word: Option<u32>,
) -> u64
    requires room { IsBusWithin (2 ^ 64 - 512) bus.old }
    requires early { wanted.now.tick ≤ 2 ^ 64 - 512 }
    requires storage { IfSome word (λ w. 32 ≤ w) }

    ensures value { let x = wanted.now in
        result ≡ side_there x.delays.now.list x.past.now bus.old word x.tick }
    ensures after { let x = wanted.now in
        bus.new ≡ bus_after_index_read x.delays.now.list x.past.now bus.old word x.tick }
    ensures log { let x = wanted.now in log.new
        ≡ log_after_reads x.delays.now.list (side_asked x.past.now word x.tick) bus.old log.old }
    ensures told { let x = wanted.now in let ds = x.delays.now.list in
        watch.new ≡ W.noted (told ds x.past.now (uses ds x.past.now (unused bus.old 0)
        (wish_of word x.tick))) watch.old }
{
    let Some(w) = word else {
        return 0;
    };
    let past = wanted.past;
    let done = past.latest_done(w);
    if done > wanted.tick {
        watch.forwarded(Role::Index, w, past, done);
        return done;
    }
    let wish = Wish {
        role: Role::Index,
        w,
        from: wanted.tick,
    };
    bus.read(log, watch, wanted.delays, wish)
}

// The tick at which an entry is prepared.
fn prepared_at(levels: usize, past: &LastEntries, a: u64, y: u64) -> u64
    requires some { 1 ≤ levels }
    requires most { levels ≤ 8 }
    requires before { ArePastWithin (2 ^ 64 - 512) past.now }
    requires address { a ≤ 2 ^ 64 - 512 }
    requires side { y ≤ 2 ^ 64 - 512 }

    ensures { result ≡ prepared_of levels past.now a y }
{
    a.max(y).max(past.done_before(levels)) + 1
}

// Notifies the observer of the registers of a run. The label of the loop serves only its proof.
fn notify<W: Watch>(watch: &mut W, registers: WordRun)
    requires { registers.first < 2 ^ 18 }
    ensures { watch.new ≡ W.noted (register_uses registers.first registers.len) watch.old }
{
    let mut w = registers.first;
    let mut left = registers.len;
    'words: while left > 0 {
        watch.register(Role::Operand, w);
        w += 1;
        left -= 1;
    }
}

// Reads the operand words of an entry, requested when it is prepared. Returns the arrival ticks of
// the first two words of the first run, 0 for a missing word.
#[inline(always)]
fn read_operands<W: Watch>(
    operands: &mut Fetching,
    log: &mut Log,
    watch: &mut W,
    wanted: &Wanted<'_>,
    reads: &WordRuns,
    registers: &WordRuns,
) -> [u64; 2]
    requires one { IsReadable reads.now.one }
    requires one_few { reads.now.one.len ≤ 16 }
    requires two { IsReadable reads.now.two }
    requires two_few { reads.now.two.len ≤ 16 }
    requires before { ArePastWithin (2 ^ 64 - 2 ^ 17) wanted.now.past.now }
    requires room { IsBusWithin (2 ^ 64 - 2 ^ 17) operands.old.bus }
    requires early { wanted.now.tick ≤ 2 ^ 64 - 2 ^ 17 }
    requires start { operands.old.answered ≡ wanted.now.tick }
    requires first { registers.now.one.first < 2 ^ 18 }
    requires second { registers.now.two.first < 2 ^ 18 }

    ensures value { let x = wanted.now in operands.new
        ≡ operands_read x.delays.now.list x.past.now operands.old reads.now x.tick }
    ensures fills { let x = wanted.now in result
        ≡ fills_of x.delays.now.list x.past.now operands.old.bus reads.now.one x.tick }
    ensures log { let x = wanted.now in log.new ≡ log_after_reads x.delays.now.list
        (runs_asked x.past.now reads.now x.tick) operands.old.bus log.old }
    ensures told { let x = wanted.now in let ds = x.delays.now.list in let past = x.past.now in
        let one = reads.now.one in let two = reads.now.two in let r = registers.now in
        watch.new ≡ W.noted ((register_uses r.one.first r.one.len
        ++ told ds past (uses ds past operands.old (words_of Operand x.tick one)))
        ++ (register_uses r.two.first r.two.len
        ++ told ds past (uses ds past
        (read_words ds past operands.old x.tick one.first one.len)
        (words_of Operand x.tick two)))) watch.old }
{
    notify(watch, registers.one);
    let fills = read_run(operands, log, watch, wanted, reads.one);
    notify(watch, registers.two);
    operands.read_on(log, watch, wanted, reads.two);
    fills
}

// Reads the operand words of a run. Returns the arrival ticks of the first two, 0 for a missing
// word.
fn read_run<W: Watch>(
    operands: &mut Fetching,
    log: &mut Log,
    watch: &mut W,
    wanted: &Wanted<'_>,
    run: WordRun,
) -> [u64; 2]
    requires words { IsReadable run }
    requires few { run.len ≤ 16 }
    requires before { ArePastWithin (2 ^ 64 - 2 ^ 17) wanted.now.past.now }
    requires room { IsReadingWithin (2 ^ 64 - 2 ^ 17) operands.old }
    requires early { wanted.now.tick ≤ 2 ^ 64 - 2 ^ 17 }
    requires start { operands.old.answered ≡ wanted.now.tick }

    ensures value { let x = wanted.now in operands.new ≡ read_words
        x.delays.now.list x.past.now operands.old x.tick run.first run.len }
    ensures fills { let x = wanted.now in
        result ≡ fills_of x.delays.now.list x.past.now operands.old.bus run x.tick }
    ensures log { let x = wanted.now in log.new ≡ log_after_reads x.delays.now.list
        (operands_asked x.past.now x.tick run.first run.len) operands.old.bus log.old }
    ensures told { let x = wanted.now in let ds = x.delays.now.list in watch.new
        ≡ W.noted (told ds x.past.now (uses ds x.past.now operands.old
        (words_of Operand x.tick run))) watch.old }
{
    if run.len == 0 {
        return [0, 0];
    }
    let first = operands.read(log, watch, wanted, run.first);
    if run.len == 1 {
        return [first, 0];
    }
    let second = operands.read(log, watch, wanted, run.first + 1);
    let behind = WordRun {
        first: run.first + 2,
        len: run.len - 2,
    };
    operands.read_on(log, watch, wanted, behind);
    [first, second]
}

// Prefetches the two words after those of an entry, if it prefetches any.
fn follow<W: Watch>(bus: &mut Bus, log: &mut Log, watch: &mut W, wanted: &Wanted<'_>, entry: &Entry)
    requires entry { IsEntryInTime entry.now }
    requires room { IsBusWithin (2 ^ 64 - 1024) bus.old }
    requires early { wanted.now.tick ≤ 2 ^ 64 - 1024 }
    ensures after { bus.new ≡ bus_after_prefetch wanted.now.delays.now.list bus.old entry.now wanted.now.tick }
    ensures log { log.new
        ≡ log_after_reads wanted.now.delays.now.list
        (following_asked wanted.now.delays.now.list bus.old entry.now wanted.now.tick) bus.old log.old }
    ensures told { let ds = wanted.now.delays.now.list in watch.new ≡ W.noted (told ds []
        (uses ds [] (unused bus.old wanted.now.tick) (followings entry.now wanted.now.tick))) watch.old }
{
    if !entry.follows {
        return;
    }
    let w = entry.own.first + u32::from(entry.own.len);
    request_inside(bus, log, watch, wanted, w);
    request_inside(bus, log, watch, wanted, w + 1);
}

// Requests the word `w` if it lies in storage.
#[inline(always)]
fn request_inside<W: Watch>(
    bus: &mut Bus,
    log: &mut Log,
    watch: &mut W,
    wanted: &Wanted<'_>,
    w: u32,
)
    requires room { IsBusWithin (2 ^ 64 - 512) bus.old }
    requires early { wanted.now.tick ≤ 2 ^ 64 - 512 }
    ensures after { bus.new ≡ request_inside_of wanted.now.delays.now.list bus.old w wanted.now.tick }
    ensures log { log.new
        ≡ log_after_reads wanted.now.delays.now.list (inside_asked bus.old w wanted.now.tick) bus.old log.old }
    ensures told { let ds = wanted.now.delays.now.list in watch.new ≡ W.noted (told ds []
        (uses ds [] (unused bus.old wanted.now.tick) (inside_wish w wanted.now.tick))) watch.old }
{
    if w >= WORDS {
        return;
    }
    let wish = Wish {
        role: Role::Following,
        w,
        from: wanted.tick,
    };
    bus.request(log, watch, wanted.delays, wish);
}
