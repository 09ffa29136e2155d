//! Laws that relate crates which do not depend on each other: for instance that the machine reads
//! the bits that the assembler makes (`EmittedNumbersAreRead`), and that a rule which is defined in
//! two crates is equal in both (`NumbersAgree`). There is no code, and no crate uses this one.
//!
//! Proved: the statements of specs/Laws.antt, by the lemmas of their names in proofs/Laws.antt. The
//! laws whose names end in "InFigures" say constants, registers and indicators in figures, so that
//! a changed constant is noticed.
//!
//! Pinned, by docs/promises.txt: each statement; docs/CLAIMS.md names those that carry a promise.
//! Free: the proofs. A law belongs here if it needs two crates of which neither uses the other.
#![tactic(auto)]
