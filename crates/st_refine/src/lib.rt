//! Laws only, no code that runs: consequences of the calls of the overlapped machine (`st_ahead`),
//! for all machines that are reached by calls within the protocol. docs/inside.md explains them.
//! `st_run` uses the laws for its clauses, `st_causes` for its laws.
//!
//! Proved: the statements in specs/Laws.antt, each with its sentence: for instance completions are
//! steps of sequential execution and come in time (`CompletionsAreSteps`, `CompletionsComeInTime`),
//! flushes restore the index words (`LevelsAreUnwound`), and an opening of a segment follows from
//! the one before (`OpeningsFollow`).
//!
//! Pinned, by docs/promises.txt: each statement, and the protocol (specs/Reached.antt,
//! specs/Openings.antt); docs/CLAIMS.md names those that carry a promise. Free: the proofs; laws
//! may be added. A changed clause of `st_ahead` changes proofs here.
#![tactic(auto, using(st_bits::specs::Storage::words_of_storage_is))]
