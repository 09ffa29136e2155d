//! The limits of control cards' requests, except those that `st_bits` defines. control_cards.rt and
//! keywords.rt refuse what is beyond them, lists of `Controls` have these capacities, and
//! `st_object` uses MOST_NUMBER. docs/strap.md names the limits.
//!
//! Proved: nothing here; specs/Controls.antt and specs/Limits.antt name the constants. Pinned: the
//! figures, by the law `ControlsInFigures` (specs/Laws.antt of `st_laws`), docs/strap.md and
//! vectors/controls.txt. Free: a limit, which is this project's choice. Its change changes that
//! law, that page, vectors/controls.txt and model/cards.py, and needs new proofs here and in the
//! crates that keep dumps, snapshots or steps.

/// The most parts of storage that may be dumped.
pub const MOST_DUMPS: usize = 16;

/// The most snapshots that may be requested.
pub const MOST_SNAPS: usize = 64;

/// The most instructions that `/BACK` steps back.
pub const MOST_BACK: u64 = 64;

/// The greatest number on a control card, of 12 digits.
pub const MOST_NUMBER: u64 = 999_999_999_999;
