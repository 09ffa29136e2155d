//! The interface of sources of bytes, and the call that reads a whole source. docs/edge.md has the
//! rules. Sources are `StdSource` (a device), `SureSource` (memory, no failures) and `MemSource`
//! (planned failures). `st_top`, `st_account` and `st_draw` read a job or a report by `read_all`,
//! each with its own limit.
//!
//! Proved: each implementation proves the clauses of `read`: `Gave` or `GaveNothing` of
//! specs/Input.antt. From these clauses only, `read_all` is proved (`outcome`): all remaining
//! bytes, at most `limit` (`CameWhole`), or an error with its cause (`IsCause`).
//!
//! Pinned, by docs/edge.md, docs/promises.txt and everything that is generic over a source: the
//! clauses of `read` and `read_all`; by docs/edge.md and tests of `st_calls`, by no clause: the
//! size of a read, 4,096. Free: the body of `read_all`, if proofs/source follows its loop.
ghost use Rattle.std.specs.Prelude.{◌≤◌, length, MatchResult, IfOk};
ghost use Rattle.st_io.specs.Input.{InputState, Gave, GaveNothing, CameWhole, IsCause};

use crate::Failed;
use std::alloc::Global;

/// A source of bytes.
pub trait Source {
    /// The remaining bytes, the number of bytes read and the number of failed reads.
    ghost input: { Self → InputState };

    /// Reads the next bytes into the front of the buffer and returns their number. It returns 0 for
    /// a nonempty buffer only at the end, and the end persists. `Failed` changes nothing except the
    /// count of faults.
    fn read(&mut self, buf: &mut [u8]) -> Result<usize, Failed>
        ensures bound { IfOk result (λ n. n ≤ length buf.new) }
        ensures outcome { MatchResult result
            (λ n. Gave (input self.old) (input self.new) buf.new n)
            (λ _. GaveNothing (input self.old) (input self.new)) };
}

/// The reason why a source was not read to its end.
#[derive(Clone, Copy, Debug, PartialEq, Eq)]
pub enum ReadError {
    /// The source has more bytes than the limit: one more than the limit was read.
    TooLong,
    /// A read failed: the source's count of faults increased.
    Failed,
    /// An allocation of memory failed.
    NoMemory,
}

// The number of bytes that one read requests.
const PIECE: usize = 4096;

/// Reads a whole source of at most `limit` bytes. Each read requests 4,096 bytes, or one byte more
/// than the rest of the limit if that is less.
pub fn read_all<S: Source>(alloc: Global, s: &mut S, limit: u32) -> Result<Vec<u8>, ReadError>
    ensures outcome { MatchResult result
        (λ all. CameWhole (S.input s.old) (S.input s.new) limit all.items)
        (λ e. IsCause (S.input s.old) (S.input s.new) limit e) }
{
    let limit = limit as usize;
    let mut all = Vec::new(alloc);
    let mut buffer = [0; PIECE];
    // Proofs name the loop by its label.
    'reading: loop {
        let room = PIECE.min(limit + 1 - all.len());
        let piece = &mut buffer[..room];
        let Ok(n) = s.read(piece) else {
            return Err(ReadError::Failed);
        };
        if n == 0 {
            return Ok(all);
        }
        if all.len() + n > limit {
            return Err(ReadError::TooLong);
        }
        if all.extend_from_slice(&piece[..n]).is_err() {
            return Err(ReadError::NoMemory);
        }
    }
}
