//! The random number generator of a deck: a linear congruential generator of 64 bits. deck.rt
//! creates it from the seed; deck.rt and statement.rt draw. docs/deck.md has the rule. No other
//! crate sees it.
//!
//! Proved, by the clauses of `draw`: a draw makes exactly one step, `next_number` of
//! specs/Deck.antt (`step`), and returns `below` of the new state (`value`), which is less than the
//! bound (`in_range`). Not proved: how random the numbers are.
//!
//! Pinned, by `next_number`, docs/deck.md and vectors/soak.txt: the two constants, since others
//! change every deck. Free: the form of the body.

ghost use Rattle.std.specs.Prelude.{◌≡◌, ◌<◌};
ghost use Rattle.st_gen.specs.Deck.{next_number, below};

// The factor of a step, Knuth's for 64 bits; pinned by `next_number`.
const MULTIPLIER: u64 = 6_364_136_223_846_793_005;

// The summand of a step; pinned by `next_number`.
const INCREMENT: u64 = 1_442_695_040_888_963_407;

// A linear congruential generator with its current state.
#[derive(Drop)]
pub(crate) struct Generator {
    // The state, at first the seed.
    pub(crate) x: u64,
}

impl Generator {
    // Draws a number below the bound, from the high bits of the next state.
    #[tactic(auto, unfolding(crate::specs::Deck::next_number))]
    pub(crate) fn draw(&mut self, bound: u32) -> u32
        requires { 0 < bound }
        ensures step { self.new.x ≡ next_number self.old.x }
        ensures value { result ≡ below bound self.new.x }
        ensures in_range { result < bound }
    {
        self.x = self.x.wrapping_mul(MULTIPLIER).wrapping_add(INCREMENT);
        ((self.x >> 33) % u64::from(bound)) as u32
    }
}
