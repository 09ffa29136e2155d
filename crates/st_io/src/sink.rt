//! The interface of sinks of bytes, and the call that writes a whole piece. docs/edge.md has the
//! rules. Sinks are `StdSink` (a device), `SureSink` (memory, no failures) and `MemSink` (planned
//! failures). `write_line` and `st_draw` call `write_all`.
//!
//! Proved: each implementation proves the clauses of `write`: `Wrote` or `WroteNothing` of
//! specs/Output.antt. From these clauses only, `write_all` is proved to write the whole piece, or
//! after an error a proper prefix (`WroteFront`), never other bytes. The clause `some` gives
//! termination. Not proved: how many writes a device needs; that a device does what it says.
//!
//! Pinned: the clauses of `write` and `write_all`, by docs/edge.md and everything that is generic
//! over a sink; a changed clause of `write` has to be proved in all three sinks. Free: the body of
//! `write_all`, with the proof of its loop in proofs/sink.
ghost use Rattle.std.specs.Prelude.{◌≡◌, ◌<◌, ◌≤◌, [], length, take, MatchResult, IfOk, IsOk};
ghost use Rattle.st_io.specs.Output.{OutputState, Wrote, WroteNothing, WroteFront};

use crate::Failed;

/// A sink of bytes.
pub trait Sink {
    /// The written bytes and the number of failed writes.
    ghost output: { Self → OutputState };

    /// Writes a prefix of the piece and returns its length, at least 1 if the piece is nonempty.
    /// `Failed` changes nothing except the count of faults.
    fn write(&mut self, piece: &[u8]) -> Result<usize, Failed>
        ensures bound { IfOk result (λ n. n ≤ length piece.now) }
        ensures some { IfOk result (λ n. 0 < length piece.now → 0 < n) }
        ensures outcome { MatchResult result
            (λ n. Wrote (output self.old) (output self.new) (take n piece.now))
            (λ _. WroteNothing (output self.old) (output self.new)) };
}

/// Writes the whole piece, by as many writes as needed. An empty piece makes no call. After
/// `Failed` a proper prefix of the piece was written.
pub fn write_all<K: Sink>(k: &mut K, piece: &[u8]) -> Result<(), Failed>
    ensures outcome { MatchResult result
        (λ _. Wrote (K.output k.old) (K.output k.new) piece.now)
        (λ _. WroteFront (K.output k.old) (K.output k.new) piece.now) }
    ensures no_call { piece.now ≡ [] → k.new ≡ k.old }
    ensures empty { piece.now ≡ [] → IsOk result }
{
    let mut rest = piece;
    while !rest.is_empty() {
        let n = k.write(rest)?;
        rest = rest.split_at(n).1;
    }
    Ok(())
}
