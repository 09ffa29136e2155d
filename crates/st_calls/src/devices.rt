//! Tests of properties of the devices of `st_io` that no clause states: how often a reader or a
//! writer is called, how many bytes each call requests or hands over, and that the readers and
//! writers of the standard library can be used. The gate runs them.
//!
//! Proved: nothing of these properties, only that calls keep their preconditions. Pinned: the
//! numbers, 4,096 bytes a read and one byte past the limit, by docs/edge.md and source.rt of
//! `st_io`; a change of the piece size there changes them here. Free: further cases.
ghost use Rattle.st_io.specs.Memory.{sure_input};

use st_io::{Failed, ReadError, Sink, Source, StdSink, StdSource, SureSource, read_all, write_all};
use std::io;
use std::io::{ErrorKind, Read, Write};
use std::test::Fail;

// A source that records how many bytes each read requests. Contracts see the source within
// (`input`), whose reads prove the clauses of `Source`.
#[derive(Drop)]
struct Asking {
    // The source that is read.
    source: SureSource,
    // The number of bytes that each read requests, in order.
    asked: Vec<usize>,
}

impl Source for Asking {
    ghost input = { λ s. sure_input s.source };

    fn read(&mut self, buf: &mut [u8]) -> Result<usize, Failed> {
        let _ = self.asked.push(buf.len());
        self.source.read(buf)
    }
}

#[test]
fn a_read_asks_for_a_piece_or_for_one_byte_past_the_limit(rt: HostRuntime) -> Result<(), Fail> {
    let bytes = vec![in rt.alloc(); 7; 10_000]?;
    let mut source = Asking {
        source: SureSource::new(bytes),
        asked: Vec::new(rt.alloc()),
    };
    let all = read_all(rt.alloc(), &mut source, 10_000)?;
    let asked = [4_096, 4_096, 1_809, 1];
    assert_eq!(rt;
        (all.len(), source.asked.as_slice()),
        (10_000, asked.as_slice())
    );
    Ok(())
}

// A reader whose first call fails, and whose later calls give the byte `A`.
#[derive(Drop)]
struct Waking {
    calls: u32,
}

impl Read for Waking {
    fn read(&mut self, buf: &mut [u8]) -> io::Result<usize> {
        self.calls = self.calls.saturating_add(1);
        if self.calls == 1 {
            return Err(io::Error::from(ErrorKind::Interrupted));
        }
        match buf.first_mut() {
            None => Ok(0),
            Some(first) => {
                *first = b'A';
                Ok(1)
            }
        }
    }
}

#[test]
fn an_error_is_answered_and_not_tried_again(rt: HostRuntime) -> Result<(), Fail> {
    let mut reader = Waking { calls: 0 };
    let mut source = StdSource::new(&mut reader);
    let mut buffer = [0; 2];
    assert_eq!(rt; source.read(&mut buffer), Err(Failed));
    assert_eq!(rt; source.read(&mut buffer), Ok(1));
    drop(source);
    assert_eq!(rt; (reader.calls, buffer), (2, [b'A', 0]));

    let mut reader = Waking { calls: 0 };
    let mut source = StdSource::new(&mut reader);
    assert_eq!(rt;
        read_all(rt.alloc(), &mut source, 3),
        Err(ReadError::Failed)
    );
    drop(source);
    assert_eq!(rt; reader.calls, 1);
    Ok(())
}

// A writer that takes at most three bytes a call, and records how many bytes it was given.
#[derive(Drop)]
struct Counting {
    // The number of bytes of each call, in order.
    handed: Vec<usize>,
}

impl Write for Counting {
    fn write(&mut self, buf: &[u8]) -> io::Result<usize> {
        let _ = self.handed.push(buf.len());
        Ok(buf.len().min(3))
    }

    fn flush(&mut self) -> io::Result<()> {
        Ok(())
    }
}

#[test]
fn a_piece_is_handed_over_whole_and_once(rt: HostRuntime) -> Result<(), Fail> {
    let handed = Vec::new(rt.alloc());
    let mut writer = Counting { handed };
    let mut sink = StdSink::new(&mut writer);
    assert_eq!(rt; sink.write(b"SEVENTY"), Ok(3));
    write_all(&mut sink, b"SEVENTY")?;
    drop(sink);
    assert_eq!(rt; writer.handed.as_slice(), [7, 7, 4, 1].as_slice());
    Ok(())
}

#[test]
fn the_readers_and_writers_of_the_library_are_reached(rt: HostRuntime) -> Result<(), Fail> {
    let mut source = StdSource::new(b"A,B".as_slice());
    let read = read_all(rt.alloc(), &mut source, 3)?;
    assert_eq!(rt; read.as_slice(), b"A,B".as_slice());

    // The slice is full after two bytes.
    let mut written = [0; 2];
    let mut sink = StdSink::new(written.as_mut_slice());
    assert_eq!(rt; sink.write(b""), Ok(0));
    assert_eq!(rt; write_all(&mut sink, b"ABC"), Err(Failed));
    drop(sink);
    assert_eq!(rt; written, [b'A', b'B']);
    Ok(())
}
