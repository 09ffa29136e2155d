//! Tests of calls that no run of a program makes, against values from outside: public calls, and
//! `stretch` over sources and sinks in memory. The tests of the programs are in the folder vectors.
//! A crate with tests is proved twice, with and without them, so these tests have a crate of their
//! own. The gate runs them; no other crate uses this one, and nothing is public.
//!
//! Proved: no law, and nothing of the results of tests. Pinned: expected values, by the pages that
//! the modules name: they are worked out from these by hand or by the folder model, never copied
//! from the program. Free: a new test goes into the module of its subject.
#![tactic(auto, using(st_bits::specs::Storage::words_of_storage_is))]

#[cfg(test)]
mod blank;
#[cfg(test)]
mod devices;
#[cfg(test)]
mod overlapped;
#[cfg(test)]
mod plain;
#[cfg(test)]
mod reads;
#[cfg(test)]
mod snapshots;
#[cfg(test)]
mod worked;
