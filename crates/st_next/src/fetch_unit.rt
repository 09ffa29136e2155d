//! The fetch unit: the entry (instruction) that is prepared next, as far as it is known while older
//! ones are in flight. docs/timetable.md has the rules, docs/inside.md the calls. `plan_before`
//! requests instruction words until one is written by an entry that completes at `due` or later;
//! `prepare` completes the preparation at its tick P; `plan` does both for a state without entries
//! in flight. `st_ahead` calls `new`, `restart`, `plan_before` and `prepare`, and sets `place`;
//! `st_plain` calls `new` and `plan` for the ledger; `st_account` keeps a unit.
//!
//! Proved: for every state before the entry that agrees with the known part (`IsStateBefore`,
//! specs/Known.antt) what is known stays that state's entry with its A and P (`IsNext`,
//! specs/Progress.antt); `prepare` gives its plan (`IsPlanAtItsTick`, specs/Going.antt). Laws
//! (specs/Laws.antt): `ReadsSoFarComeFirst`, `EntriesArePlannedInTime`.
//!
//! Pinned, by these definitions, docs/timetable.md, vectors/timetable.txt and these crates:
//! clauses, fields, order of requests. Free: inlining, and the shortcut `spelled`, whose gain is
//! measured only.
ghost use Rattle.std.specs.Prelude.{◌≡◌, ℕ, ◌+◌, ◌-◌, ◌<◌, ◌≤◌, true, false, max, take, map, List, [], ◌∷◌, ◌++◌, Option, IfSome, is_none, get_or, if◌then◌else◌};
ghost use Rattle.st_bits.specs.Indicators.{IsIndicatorIfAny};
ghost use Rattle.st_bits.specs.Storage.{words_of_storage};
ghost use Rattle.st_fetch.specs.Planned.{tick_of};
ghost use Rattle.st_state.specs.Machine.{IsMachine, word};
ghost use Rattle.st_prep.specs.Fetch.{index_words as index_words_of, place_of as place_by};
ghost use Rattle.st_prep.specs.Plan.{plan as plan_of, needs as needs_of, decode_context};
ghost use Rattle.st_prep.specs.Ranges.{HasFields, IsPlace, IsFetched, IsFetching, IsPrepared};
ghost use Rattle.st_prep.specs.Reading.{fetched_plain, is_execute};
ghost use Rattle.st_prep.specs.declared.entries.Fetching.TheVariants.{Found};
ghost use Rattle.st_format.specs.Formats.{decoded_entry, instruction_of, spelled_as};
ghost use Rattle.st_rows.specs.Asked.{word_asked, formed_asked};
ghost use Rattle.st_rows.specs.Notes.{log_after_reads};
ghost use Rattle.st_rows.specs.Ranges.{IsEntryInTime};
ghost use Rattle.st_rows.specs.Rows.{wanted_from, tick_a, bus_a, tick_p};
ghost use Rattle.st_rows.specs.Supplies.{told};
ghost use Rattle.st_rows.specs.Uses.{use_of};
ghost use Rattle.st_rows.specs.Words.{fetch_word};
ghost use Rattle.st_rows.specs.declared.uses.Role.TheVariants.{Instruction};
ghost use Rattle.st_segment.specs.Alone.{words_of_run};
ghost use Rattle.st_segment.specs.Entries.{entry as entry_of, side_to_read as side_to_read_of};
ghost use Rattle.st_next.specs.Words.{words_alone, run_with_word as with_word_of};
ghost use Rattle.st_next.specs.Progress.{IsUnread, IsKnown, IsNextReady};
ghost use Rattle.st_next.specs.Going.{given_so_far, IsIssueInTime, IsEarly, GoesOnTo, AdvancesTo, IsReadFurther, IsPreparedBy, IsPlanAtItsTick, as_entry, prepared_as};
ghost use Rattle.st_next.specs.Told.{formed_told, IsToldFurther};

use st_banks::Delays;
use st_format::{Decoded, Format, FullOp, decode_as, format_of};
use st_prep::{
    Fetched, Fetching as Given, Needs, Place, Prepared, change_by_side, fetch_on, halves_known,
    is_execute_format, place_of, prepare_without_side, side_word,
};
use st_rows::{
    Bus, Entry, Fetching, Formed, IssueState, Log, TimedEntry, Timing, Wanted, Watch, WordRun,
};
use st_segment::{side_to_read, words_to_read, words_to_write};
use st_state::State;
use std::snapshot::Snapshot;

/// The entry that is prepared next, to the extent that it is known.
#[derive(Drop)]
pub struct FetchUnit {
    /// The place of the entry.
    pub place: Place,
    /// The bus after the instruction words requested so far, their latest answer, and the latest
    /// completion of their writers; for a planned entry, the bus after its index-side word.
    pub words: Fetching,
    /// Whether all of the entry is known but its index-side word. The fields below are valid only
    /// for a planned entry, except for the instruction words in `entry`.
    pub planned: bool,
    /// The fetched instruction, which only clauses read.
    pub fetched: Snapshot<Fetched>,
    /// The index-side word that is to be read, and whether the entry is serializing.
    pub needs: Needs,
    /// The prepared entry; before `prepare`, with 0 as the content of its index-side word.
    pub prepared: Prepared,
    /// The entry as the timetable sees it. Its own instruction words and those of the target of EX
    /// are the ones requested so far.
    pub entry: Entry,
    /// A and P: the ticks at which the address is formed and the entry is prepared.
    pub formed: Formed,
}

/// The input to the planning of the next entry: the delays and the number of levels, the committed
/// state, the issue state before the entry, and the index words with all speculative changes.
#[derive(Clone, Copy)]
pub struct PlanContext<'a, 'b> {
    /// The delays and the number of levels of the machine.
    pub timing: Timing<'a>,
    /// The committed state, whose words are the known contents.
    pub state: &'a State,
    /// The issue state before the entry.
    pub issue: &'b IssueState,
    /// The index words with the speculative changes of all levels.
    pub index: &'b [u64; 16],
}

// An instruction whose half-words and format are known.
#[derive(Clone, Copy)]
struct Spelled {
    format: Format,
    first: u32,
    second: u32,
}

// What a call of `advance` did.
#[derive(Clone, Copy, Debug, PartialEq, Eq)]
enum Advance {
    // It requested the next word.
    Asked,
    // Nothing: the next word, one of the target of EX, awaits the previous entry.
    Waits,
    // It prepared the entry, of which all words are known.
    Prepared,
}

impl FetchUnit {
    /// The entry at a place, with no word requested, on this bus.
    pub fn new(place: Place, bus: Bus) -> FetchUnit
        ensures place { result.place ≡ place }
        ensures unread { IsUnread bus result }
    {
        FetchUnit {
            place,
            words: Fetching::new(bus),
            planned: false,
            fetched: Snapshot::of(&Fetched::default()),
            needs: Needs::default(),
            prepared: Prepared::default(),
            entry: Entry::default(),
            formed: Formed::default(),
        }
    }

    /// Moves to the entry at another place, with no word requested. The bus stays as it is.
    pub fn restart(&mut self, place: Place)
        ensures place { self.new.place ≡ place }
        ensures unread { IsUnread self.old.words.bus self.new }
    {
        self.place = place;
        self.entry.own = WordRun::default();
        self.entry.target = WordRun::default();
        self.words.restart();
        self.planned = false;
    }

    // The word address of word `k` of those requested so far; 0 if there is no word `k`.
    fn word_at(&self, k: u8) -> u32
        requires words { IsEntryInTime (words_alone self.now.entry.own self.now.entry.target) }
        ensures value { k < self.now.entry.own.len + self.now.entry.target.len → result
            ≡ get_or (words_of_run self.now.entry.own ++ words_of_run self.now.entry.target) k 0 }
        ensures inside { result < words_of_storage }
    {
        if k < self.entry.own.len {
            return self.entry.own.first + u32::from(k);
        }
        let behind = k - self.entry.own.len;
        if behind < self.entry.target.len {
            return self.entry.target.first + u32::from(behind);
        }
        0
    }

    // The contents of the words requested so far.
    fn contents(&self, state: &State) -> [u64; 4]
        requires words { IsEntryInTime (words_alone self.now.entry.own self.now.entry.target) }
        ensures { take (self.now.entry.own.len + self.now.entry.target.len) result
            ≡ map (word state.now) (words_of_run self.now.entry.own ++ words_of_run self.now.entry.target) }
    {
        [
            state.word(self.word_at(0)),
            state.word(self.word_at(1)),
            state.word(self.word_at(2)),
            state.word(self.word_at(3)),
        ]
    }

    // The next word to read, or the fetched instruction, by the words requested so far.
    #[inline(always)]
    fn given(&self, x: &[u64; 16], state: &State) -> Given
        requires place { IsPlace self.now.place }
        requires words { IsEntryInTime (words_alone self.now.entry.own self.now.entry.target) }
        ensures value { result ≡ given_so_far x.now state.now self.now }
        ensures shape { IsFetching result }
    {
        let so_far = self.entry.own.len + self.entry.target.len;
        if so_far == 0 {
            return fetch_on(&self.place, x, &[], state);
        }
        if so_far == 1 {
            return fetch_on(&self.place, x, &[state.word(self.word_at(0))], state);
        }
        let contents = self.contents(state);
        let so_far = usize::from(so_far);
        fetch_on(&self.place, x, &contents[..so_far], state)
    }

    // Requests one of the entry's own words.
    #[inline(always)]
    fn ask_own<W: Watch>(
        &mut self,
        w: u32,
        issue: &IssueState,
        delays: &Delays,
        log: &mut Log,
        watch: &mut W,
    )
        requires words { self.old.entry.own.len ≤ 16 }
        requires room { IsEarly issue.now self.old.words }
        requires storage { 32 ≤ w }
        ensures next { self.new ≡ record self.old {
          words = fetch_word delays.now.list issue.now.past self.old.words w
              (wanted_from issue.now);
          entry = record self.old.entry { own = with_word_of self.old.entry.own w };
        } }
        ensures log { log.new ≡ log_after_reads delays.now.list (word_asked
            (tick_of self.old.words.bus.held.words w) w
            (max (max (wanted_from issue.now) self.old.words.answered) self.old.words.awaited))
            self.old.words.bus log.old }
        ensures told { let ds = delays.now.list in let past = issue.now.past in watch.new
            ≡ W.noted (told ds past (use_of ds past self.old.words (record {
              role = Instruction;
              w = w;
              from = wanted_from issue.now;
            }) ∷ [])) watch.old }
    {
        let wanted = Wanted {
            tick: issue.wanted_from(),
            delays,
            past: &issue.past,
        };
        self.words.word(log, watch, &wanted, w);
        self.entry.own = with_word(self.entry.own, w);
    }

    // Requests a word of the target of EX, which awaits the completion of the previous entry.
    fn ask_target<W: Watch>(
        &mut self,
        w: u32,
        issue: &IssueState,
        delays: &Delays,
        log: &mut Log,
        watch: &mut W,
    )
        requires words { self.old.entry.target.len ≤ 16 }
        requires room { IsEarly issue.now self.old.words }
        requires storage { 32 ≤ w }
        ensures next { self.new ≡ record self.old {
          words = fetch_word delays.now.list issue.now.past self.old.words w
              (max (wanted_from issue.now) issue.now.c);
          entry = record self.old.entry { target = with_word_of self.old.entry.target w };
        } }
        ensures log { log.new ≡ log_after_reads delays.now.list (word_asked
            (tick_of self.old.words.bus.held.words w) w
            (max (max (max (wanted_from issue.now) issue.now.c) self.old.words.answered)
            self.old.words.awaited)) self.old.words.bus log.old }
        ensures told { let ds = delays.now.list in let past = issue.now.past in watch.new
            ≡ W.noted (told ds past (use_of ds past self.old.words (record {
              role = Instruction;
              w = w;
              from = max (wanted_from issue.now) issue.now.c;
            }) ∷ [])) watch.old }
    {
        let wanted = Wanted {
            tick: issue.wanted_from().max(issue.c),
            delays,
            past: &issue.past,
        };
        self.words.word(log, watch, &wanted, w);
        self.entry.target = with_word(self.entry.target, w);
    }

    // Whether the entry awaits a completion at the tick `due` or later, to the extent that the words
    // so far show it: that of a writer of one of them, or of a serializing previous entry.
    fn is_waiting(&self, issue: &IssueState, due: u64) -> bool
        ensures yes { result ≡ true →
            due ≤ max self.now.words.awaited (if issue.now.serial then issue.now.c else 0) }
        ensures no { result ≡ false →
            max self.now.words.awaited (if issue.now.serial then issue.now.c else 0) < due }
    {
        if self.words.awaited >= due {
            return true;
        }
        if !issue.serial {
            return false;
        }
        issue.c >= due
    }

    /// Requests the words of the entry in order, and plans the entry after the last one, by the
    /// facts that are known before the completion at the tick `due`. It stops after a word whose
    /// writer completes at `due` or later. It also stops if the previous entry completes at `due`
    /// or later, and is serializing or is awaited by the target of EX. A later call continues
    /// there. Returns whether the entry is planned. For every state before the entry, known facts
    /// stay true; if the entry is not planned, nothing more can be known before `due`.
    #[inline(always)]
    pub fn plan_before<W: Watch>(
        &mut self,
        due: u64,
        context: &PlanContext<'_, '_>,
        log: &mut Log,
        watch: &mut W,
    ) -> bool
        requires known { let b = context.now in let t = b.timing in let f = b.issue.now in
            max self.old.words.awaited (if f.serial then f.c else 0) < due →
            IsKnown t.delays.now.list t.levels (due - 1) f b.index.now b.state.now self.old }
        requires issue { IsIssueInTime context.now.issue.now }
        requires unplanned { self.old.planned ≡ false }

        ensures next { let b = context.now in let t = b.timing in GoesOnTo t.delays.now.list
            t.levels (due - 1) b.issue.now b.index.now b.state.now self.old self.new due }
        ensures further { let b = context.now in IsReadFurther
            b.timing.delays.now.list b.issue.now self.old self.new log.old log.new }
        ensures told { let b = context.now in IsToldFurther W.noted
            b.timing.delays.now.list b.issue.now self.old self.new watch.old watch.new }
        ensures planned { result ≡ self.new.planned }
        ensures still { let f = context.now.issue.now in
            due ≤ max self.old.words.awaited (if f.serial then f.c else 0) →
            (self.new ≡ self.old) × (log.new ≡ log.old) }
    {
        let issue = context.issue;
        if self.is_waiting(issue, due) {
            return false;
        }
        if !self.prepare_own_before(due, context, log, watch) {
            return false;
        }
        let next = TimedEntry {
            entry: &self.entry,
            timing: &context.timing,
        };
        self.formed = issue.form(&next, &mut self.words, log, watch);
        self.planned = true;
        true
    }

    /// Plans the next entry of a state after an issue state, or the table instruction of an
    /// interrupt by the indicator in `table`, and completes its preparation. The entry that was
    /// known before is forgotten. The index words of `context` are those of its state.
    pub fn plan<W: Watch>(
        &mut self,
        table: Option<u8>,
        context: &PlanContext<'_, '_>,
        log: &mut Log,
        watch: &mut W,
    )
        requires indicator { IsIndicatorIfAny table }
        requires index { context.now.index.now ≡ index_words_of context.now.state.now }
        requires issue { IsIssueInTime context.now.issue.now }

        // The entry, prepared.
        ensures machine { IsMachine context.now.state.now }
        ensures prepared { self.new.prepared ≡ plan_of context.now.state.now table }
        ensures ranges { IsPrepared self.new.prepared }
        ensures entry { self.new.entry ≡ entry_of table context.now.state.now }
        ensures in_time { IsEntryInTime self.new.entry }
        ensures needs { let s = context.now.state.now in
            self.new.needs ≡ needs_of (decode_context s (place_by s table)) }
        ensures side { self.new.entry.side ≡ side_to_read_of self.new.needs.index_read }

        // Its A and P, and its reads until A.
        ensures address { let b = context.now in self.new.formed.a
            ≡ tick_a b.timing.delays.now.list b.issue.now (entry_of table b.state.now) }
        ensures tick { let b = context.now in self.new.formed.p ≡ tick_p
            b.timing.delays.now.list b.timing.levels b.issue.now (entry_of table b.state.now) }
        ensures bus { let b = context.now in self.new.words.bus
            ≡ bus_a b.timing.delays.now.list b.issue.now (entry_of table b.state.now) }
        ensures log { let b = context.now in let ds = b.timing.delays.now.list in
            log.new ≡ log_after_reads ds (formed_asked ds b.issue.now (entry_of table b.state.now))
            b.issue.now.bus log.old }
        ensures told { let b = context.now in let ds = b.timing.delays.now.list in watch.new
            ≡ W.noted (formed_told ds b.issue.now (entry_of table b.state.now)) watch.old }
    {
        self.words.bus = context.issue.bus;
        self.restart(place_of(context.state, table));
        self.plan_before(u64::MAX, context, log, watch);
        self.prepare(context.index, context.state);
    }

    // Prepares the entry without its index-side word, and returns whether its words are known.
    // Usually no word is requested yet, so the first request is inlined.
    #[inline(always)]
    fn prepare_own_before<W: Watch>(
        &mut self,
        due: u64,
        context: &PlanContext<'_, '_>,
        log: &mut Log,
        watch: &mut W,
    ) -> bool
        requires known { let b = context.now in let t = b.timing in IsKnown
            t.delays.now.list t.levels (due - 1) b.issue.now b.index.now b.state.now self.old }
        requires issue { IsIssueInTime context.now.issue.now }
        requires unplanned { self.old.planned ≡ false }
        requires soon { self.old.words.awaited < due }

        ensures next { let b = context.now in let t = b.timing in GoesOnTo t.delays.now.list
            t.levels (due - 1) b.issue.now b.index.now b.state.now self.old self.new
            (if result then 0 else due) }
        ensures further { let b = context.now in IsReadFurther
            b.timing.delays.now.list b.issue.now self.old self.new log.old log.new }
        ensures told { let b = context.now in IsToldFurther W.noted
            b.timing.delays.now.list b.issue.now self.old self.new watch.old watch.new }
        ensures unplanned { self.new.planned ≡ false }
        ensures prepared { result ≡ true → IsPreparedBy (due - 1) context.now.index.now
            context.now.state.now self.new }
    {
        self.begin(context, log, watch);
        self.prepare_before(due, context, log, watch)
    }

    // Requests the first word, if none is requested yet and it is one of the entry's own. Of the
    // state it needs what is known once the writers of the words so far have completed.
    #[inline(always)]
    fn begin<W: Watch>(&mut self, context: &PlanContext<'_, '_>, log: &mut Log, watch: &mut W)
        requires known { let b = context.now in let t = b.timing in IsKnown t.delays.now.list
            t.levels self.old.words.awaited b.issue.now b.index.now b.state.now self.old }
        requires issue { IsIssueInTime context.now.issue.now }
        requires unplanned { self.old.planned ≡ false }

        ensures next { let b = context.now in let t = b.timing in GoesOnTo t.delays.now.list
            t.levels self.old.words.awaited b.issue.now b.index.now b.state.now self.old
            self.new 0 }
        ensures further { let b = context.now in IsReadFurther
            b.timing.delays.now.list b.issue.now self.old self.new log.old log.new }
        ensures told { let b = context.now in IsToldFurther W.noted
            b.timing.delays.now.list b.issue.now self.old self.new watch.old watch.new }
        ensures unplanned { self.new.planned ≡ false }
    {
        if self.entry.own.len != 0 || self.entry.target.len != 0 {
            return;
        }
        match self.given(context.index, context.state) {
            Given::Next {
                word,
                target: false,
            } => {
                self.ask_own(word, context.issue, context.timing.delays, log, watch);
            }
            _ => {}
        }
    }

    // Prepares the entry without its index-side word, from any number of words requested so far.
    // Functions with no other caller are inlined in it.
    fn prepare_before<W: Watch>(
        &mut self,
        due: u64,
        context: &PlanContext<'_, '_>,
        log: &mut Log,
        watch: &mut W,
    ) -> bool
        requires known { let b = context.now in let t = b.timing in IsKnown
            t.delays.now.list t.levels (due - 1) b.issue.now b.index.now b.state.now self.old }
        requires issue { IsIssueInTime context.now.issue.now }
        requires unplanned { self.old.planned ≡ false }

        ensures next { let b = context.now in let t = b.timing in GoesOnTo t.delays.now.list
            t.levels (due - 1) b.issue.now b.index.now b.state.now self.old self.new
            (if result then 0 else due) }
        ensures further { let b = context.now in IsReadFurther
            b.timing.delays.now.list b.issue.now self.old self.new log.old log.new }
        ensures told { let b = context.now in IsToldFurther W.noted
            b.timing.delays.now.list b.issue.now self.old self.new watch.old watch.new }
        ensures unplanned { self.new.planned ≡ false }
        ensures prepared { result ≡ true → IsPreparedBy (due - 1) context.now.index.now
            context.now.state.now self.new }
    {
        'words: loop {
            if self.words.awaited >= due {
                return false;
            }
            if let Some(spelled) = self.spelled(context.state) {
                self.prepare_spelled(spelled, context.index, context.state);
                return true;
            }
            match self.advance(due, context, log, watch) {
                Advance::Asked => {}
                Advance::Waits => return false,
                Advance::Prepared => return true,
            }
        }
    }

    // Requests the next word of the entry, or prepares the entry without its index-side word, if
    // all of its words are known. `prepare_before` calls it for entries that `spelled` does not
    // find.
    #[inline(never)]
    fn advance<W: Watch>(
        &mut self,
        due: u64,
        context: &PlanContext<'_, '_>,
        log: &mut Log,
        watch: &mut W,
    ) -> Advance
        requires known { let b = context.now in let t = b.timing in IsKnown
            t.delays.now.list t.levels (due - 1) b.issue.now b.index.now b.state.now self.old }
        requires issue { IsIssueInTime context.now.issue.now }
        requires unplanned { self.old.planned ≡ false }
        requires soon { self.old.words.awaited < due }

        ensures next { let b = context.now in let t = b.timing in AdvancesTo t.delays.now.list
            t.levels b.issue.now b.index.now b.state.now self.old self.new due result }
        ensures further { let b = context.now in IsReadFurther
            b.timing.delays.now.list b.issue.now self.old self.new log.old log.new }
        ensures told { let b = context.now in IsToldFurther W.noted
            b.timing.delays.now.list b.issue.now self.old self.new watch.old watch.new }
        ensures unplanned { self.new.planned ≡ false }
    {
        let PlanContext {
            timing,
            state,
            issue,
            index: x,
        } = *context;
        let delays = timing.delays;
        match self.given(x, state) {
            Given::Next {
                word,
                target: false,
            } => {
                self.ask_own(word, issue, delays, log, watch);
                Advance::Asked
            }
            Given::Next { word, target: true } => {
                if issue.c >= due {
                    return Advance::Waits;
                }
                self.ask_target(word, issue, delays, log, watch);
                Advance::Asked
            }
            Given::Found(fetched) => {
                self.prepare_found(fetched, x, state);
                Advance::Prepared
            }
        }
    }

    /// Prepares a planned entry finally, at its P: with the content of its index-side word.
    #[inline(always)]
    pub fn prepare(&mut self, x: &[u64; 16], state: &State)
        requires planned { self.old.planned ≡ true }
        requires ready { IsNextReady x.now state.now self.old }
        ensures value { IsPlanAtItsTick x.now state.now self.old self.new.prepared }
        ensures ranges { IsPrepared self.new.prepared }
        ensures rest { self.new ≡ record self.old { prepared = self.new.prepared } }
    {
        if self.needs.index_read.is_none() {
            return;
        }
        let read = side_word(state, self.place.table, self.needs.index_read);
        change_by_side(&mut self.prepared, x, read);
    }

    // The instruction with its format, if its own words so far contain all of it and it is not EX.
    // This is a shortcut for `given` that each entry takes: without it a simulated instruction
    // costs 400 more host instructions in tight, 280 in mixed and 250 in various, the jobs of
    // `bench/count`.
    fn spelled(&self, state: &State) -> Option<Spelled>
        requires place { IsPlace self.now.place }
        requires words { IsEntryInTime (words_alone self.now.entry.own self.now.entry.target) }
        ensures found { IfSome result (λ r. (x : List ℕ) → given_so_far x state.now self.now
            ≡ Found (fetched_plain (decoded_entry r.first r.second))) }
        ensures format { IfSome result (λ r. spelled_as r.format r.first r.second
            ≡ instruction_of r.first r.second) }
    {
        let halves = self.halves(state)?;
        spelled_unless_execute(halves.0, halves.1)
    }

    // The half-words of the instruction, if its own words so far contain all of it.
    fn halves(&self, state: &State) -> Option<(u32, u32)>
        requires place { IsPlace self.now.place }
        requires words { IsEntryInTime (words_alone self.now.entry.own self.now.entry.target) }
        ensures { IfSome result (λ r. (x : List ℕ) → is_execute (instruction_of r.0 r.1) ≡ false →
            given_so_far x state.now self.now
            ≡ Found (fetched_plain (decoded_entry r.0 r.1))) }
    {
        if self.entry.target.len != 0 {
            return None;
        }
        let first = self.entry.own.first;
        if self.entry.own.len == 1 {
            return halves_known(self.place.address, &[state.word(first)], state);
        }
        if self.entry.own.len == 2 {
            let contents = [state.word(first), state.word(first + 1)];
            return halves_known(self.place.address, &contents, state);
        }
        None
    }

    // Prepares the entry with this fetched instruction, without its index-side word.
    #[inline(never)]
    fn prepare_found(&mut self, fetched: Fetched, x: &[u64; 16], state: &State)
        requires place { IsPlace self.old.place }
        requires fetched { IsFetched fetched }
        ensures value { self.new ≡ prepared_as fetched x.now state.now self.old }
    {
        self.fetched = Snapshot::of(&fetched);
        self.prepared.place = self.place;
        self.needs = prepare_without_side(&mut self.prepared, &fetched, x, state);
        self.show(fetched.fault.is_none());
    }

    // Prepares the entry with this instruction, without its index-side word. In the branches of
    // frequent instructions the format is known, and is not tested again: 300 of the host
    // instructions that `spelled` gains in tight, 180 in mixed and 150 in various.
    fn prepare_spelled(&mut self, spelled: Spelled, x: &[u64; 16], state: &State)
        requires place { IsPlace self.old.place }
        requires format { spelled_as spelled.format spelled.first spelled.second
            ≡ instruction_of spelled.first spelled.second }
        ensures value { self.new ≡ prepared_as (fetched_plain
            (decoded_entry spelled.first spelled.second)) x.now
            state.now self.old }
    {
        let Spelled {
            format,
            first,
            second,
        } = spelled;
        match format {
            Format::Index(op) => {
                self.prepare_own(decode_as(Format::Index(op), first, second), x, state)
            }
            Format::Branch(op) => {
                self.prepare_own(decode_as(Format::Branch(op), first, second), x, state)
            }
            Format::Whole(FullOp::Variable(op)) => {
                let format = Format::Whole(FullOp::Variable(op));
                self.prepare_own(decode_as(format, first, second), x, state)
            }
            _ => self.prepare_own(decode_as(format, first, second), x, state),
        }
    }

    // Prepares the entry with this instruction and no target, without its index-side word.
    #[inline(always)]
    fn prepare_own(&mut self, own: Decoded, x: &[u64; 16], state: &State)
        requires place { IsPlace self.old.place }
        requires fields { HasFields own.instr }
        ensures value { self.new ≡ prepared_as (fetched_plain own) x.now state.now self.old }
    {
        let fetched = Fetched {
            instr: own,
            target: None,
            fault: None,
        };
        self.fetched = Snapshot::of(&fetched);
        self.prepared.place = self.place;
        self.needs = prepare_without_side(&mut self.prepared, &fetched, x, state);
        self.show(true);
    }

    // Sets the entry of the timetable to the prepared one; `allowed` says whether its words may be
    // fetched.
    fn show(&mut self, allowed: bool)
        requires { allowed ≡ is_none self.old.fetched.value.fault }
        ensures { self.new ≡ record self.old { entry = as_entry self.old } }
    {
        let entry = &mut self.entry;
        let prepared = &self.prepared;
        entry.side = side_to_read(self.needs.index_read);
        entry.reads = words_to_read(prepared.reads);
        entry.writes = words_to_write(prepared.writes);
        entry.cost = prepared.cost;
        entry.serial = prepared.serial;
        entry.follows = self.place.table.is_none() && allowed;
    }
}

// The instruction of two half-words, with its format; None if it is EX.
fn spelled_unless_execute(first: u32, second: u32) -> Option<Spelled>
    ensures same { IfSome result (λ r. (r.first ≡ first) × (r.second ≡ second)) }
    ensures format { IfSome result (λ r. spelled_as r.format first second
        ≡ instruction_of first second) }
    ensures plain { IfSome result (λ r. is_execute (instruction_of first second) ≡ false) }
{
    let format = format_of(first, second);
    if is_execute_format(format) {
        return None;
    }
    Some(Spelled {
        format,
        first,
        second,
    })
}

// A run with one more word.
fn with_word(run: WordRun, w: u32) -> WordRun
    requires { run.len ≤ 16 }
    ensures { result ≡ with_word_of run w }
{
    let first = if run.len == 0 { w } else { run.first };
    WordRun {
        first,
        len: run.len + 1,
    }
}
