//! Sources and sinks over the readers and writers of the standard library: the boundary to real
//! devices. The `main` of `stretch`, `ledger` and `chart` creates them, and tests of `st_calls`.
//! docs/edge.md has the rules.
//!
//! Proved: each call passes on exactly the bytes of one call of the device (`passes_on`), and
//! counts an error as a fault; counts stop at 2^64 - 1. specs/Devices.antt has the views that
//! contracts see (`device_input`, `device_output`). Not proved: what a device does with the bytes;
//! the contracts of the standard library are about this.
//!
//! Pinned, by the traits `Source` and `Sink`, by docs/promises.txt and each of these `main`: the
//! clauses. Free: the private fields and the bodies.
ghost use Rattle.std.specs.Prelude.{◌≡◌, ◌<◌, ◌≤◌, length, take, MatchResult, IfOk, OnErr, None};
ghost use Rattle.std.specs.Io.KnownBytes.{ReadConsumes, WriteAppends};
ghost use Rattle.st_io.specs.Count.{count_after};
ghost use Rattle.st_io.specs.Input.{Gave, GaveNothing};
ghost use Rattle.st_io.specs.Output.{Wrote, WroteNothing};
ghost use Rattle.st_io.specs.Devices.{device_input, device_output, reader_of, writer_of};

use crate::{Failed, Sink, Source, count_fault};
use std::io::{Read, Write};

/// A source over a reader. Contracts know only the number of its bytes. Each read is one call of
/// the reader, and each error of the reader, of any kind, is a fault.
#[derive(Debug, Drop)]
pub struct StdSource<R> {
    reader: R,
    // The number of bytes read; the count saturates.
    taken: u64,
    // The number of failed reads.
    faults: u64,
}

impl<R: Read> StdSource<R> {
    /// A source over a reader, before the first read.
    pub fn new(reader: R) -> StdSource<R>
        ensures reader { reader_of result ≡ reader }
        ensures counts { device_input result ≡ record { left = None; taken = 0; faults = 0 } }
    {
        StdSource {
            reader,
            taken: 0,
            faults: 0,
        }
    }
}

impl<R: Read> Source for StdSource<R> {
    // The state of a source in the clauses of `Source`.
    ghost input = { device_input };

    /// Reads by one call of the reader.
    fn read(&mut self, buf: &mut [u8]) -> Result<usize, Failed>
        ensures bound { IfOk result (λ n. n ≤ length buf.new) }
        ensures outcome { MatchResult result
            (λ n. Gave (device_input self.old) (device_input self.new) buf.new n)
            (λ _. GaveNothing (device_input self.old) (device_input self.new)) }
        ensures faults { OnErr result
            ((device_input self.new).faults ≡ count_after (device_input self.old).faults 1) }

        // A read returns exactly the bytes that the reader returned.
        ensures passes_on { ReadConsumes
            (R.remaining (reader_of self.old)) (R.remaining (reader_of self.new)) result buf.new }
    {
        let Ok(n) = self.reader.read(buf) else {
            return Err(count_fault(&mut self.faults));
        };
        self.taken = self.taken.saturating_add(n as u64);
        Ok(n)
    }
}

/// A sink over a writer. Contracts do not know its bytes. Each write is one call of the writer.
/// Each error of the writer, of any kind, is a fault, and so is a result of 0 for a nonempty piece.
#[derive(Debug, Drop)]
pub struct StdSink<W> {
    writer: W,
    // The number of failed writes.
    faults: u64,
}

impl<W: Write> StdSink<W> {
    /// A sink over a writer, before the first write.
    pub fn new(writer: W) -> StdSink<W>
        ensures writer { writer_of result ≡ writer }
        ensures count { device_output result ≡ record { written = None; faults = 0 } }
    {
        StdSink { writer, faults: 0 }
    }
}

impl<W: Write> Sink for StdSink<W> {
    // The state of a sink in the clauses of `Sink`.
    ghost output = { device_output };

    /// Writes by one call of the writer.
    fn write(&mut self, piece: &[u8]) -> Result<usize, Failed>
        ensures bound { IfOk result (λ n. n ≤ length piece.now) }
        ensures some { IfOk result (λ n. 0 < length piece.now → 0 < n) }
        ensures outcome { MatchResult result
            (λ n. Wrote (device_output self.old) (device_output self.new) (take n piece.now))
            (λ _. WroteNothing (device_output self.old) (device_output self.new)) }
        ensures faults { OnErr result
            ((device_output self.new).faults ≡ count_after (device_output self.old).faults 1) }

        // A write takes exactly the bytes that the writer took.
        ensures passes_on { WriteAppends
            (W.contents (writer_of self.old)) (W.contents (writer_of self.new)) result piece.now }
    {
        match self.writer.write(piece) {
            Ok(n) if n > 0 || piece.is_empty() => Ok(n),
            _ => Err(count_fault(&mut self.faults)),
        }
    }
}
