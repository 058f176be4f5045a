// A reader and a writer that fail at calls that they are told: each error is one fault, and no other call is.
use byte_ports::{Failed, Sink, Source, StdSink, StdSource};
use std::alloc::Global;
use std::io;
use std::io::{ErrorKind, Read, Write};
use std::test::Fail;

/// What a call does: it moves so many bytes, or gives an error of this kind.
#[derive(Clone, Copy)]
enum Act {
    Moves(usize),
    Fails(ErrorKind),
}

/// A reader, and a writer, that do these acts call by call, and then nothing more. It counts its calls.
#[derive(Drop)]
struct Told<'a> {
    acts: &'a [Act],
    calls: usize,
}

impl<'a> Told<'a> {
    /// What the next call moves.
    fn next(&mut self) -> io::Result<usize> {
        let act = self.acts.get(self.calls).copied().unwrap_or(Act::Moves(0));
        self.calls = self.calls.saturating_add(1);
        match act {
            Act::Moves(count) => Ok(count),
            Act::Fails(kind) => Err(io::Error::from(kind)),
        }
    }
}

impl<'a> Read for Told<'a> {
    fn read(&mut self, into: &mut [u8]) -> io::Result<usize> {
        let count = self.next()?;
        Ok(count.min(into.len()))
    }
}

impl<'a> Write for Told<'a> {
    fn write(&mut self, piece: &[u8]) -> io::Result<usize> {
        let count = self.next()?;
        Ok(count.min(piece.len()))
    }

    fn flush(&mut self) -> io::Result<()> {
        Ok(())
    }
}

const ACTS: [Act; 9] = [
    Act::Moves(2),
    Act::Fails(ErrorKind::Interrupted),
    Act::Fails(ErrorKind::Interrupted),
    Act::Moves(1),
    Act::Fails(ErrorKind::BrokenPipe),
    Act::Fails(ErrorKind::WouldBlock),
    Act::Fails(ErrorKind::TimedOut),
    Act::Fails(ErrorKind::Other),
    Act::Moves(3),
];

/// The answer of a call, and the faults and the calls of the reader or the writer after it.
type Row = (Result<usize, Failed>, u64, usize);

const READS: [Row; 8] = [
    (Ok(2), 0, 1),
    (Ok(1), 0, 4),
    (Err(Failed), 1, 5),
    (Err(Failed), 2, 6),
    (Err(Failed), 3, 7),
    (Err(Failed), 4, 8),
    (Ok(3), 4, 9),
    (Ok(0), 4, 10),
];

/// What stands in the row after so many reads and one more.
fn after_reads(count: usize) -> Row {
    let told = Told {
        acts: ACTS.as_slice(),
        calls: 0,
    };
    let mut source = StdSource::new(told);
    let mut into = [0u8; 4];
    for _ in 0..count {
        let _ = source.read(&mut into);
    }
    let answer = source.read(&mut into);
    let (reader, faults) = source.into_parts();
    (answer, faults, reader.calls)
}

/// What stands in the row after so many writes of these bytes and one more.
fn after_writes(count: usize, last: &[u8]) -> Row {
    let told = Told {
        acts: ACTS.as_slice(),
        calls: 0,
    };
    let mut sink = StdSink::new(told);
    for _ in 0..count {
        let _ = sink.write(b"abcd");
    }
    let answer = sink.write(last);
    let (writer, faults) = sink.into_parts();
    (answer, faults, writer.calls)
}

#[test]
fn errors_alone_are_faults(rt: HostRuntime) -> Result<(), Fail> {
    for count in 0..READS.len() {
        assert_eq!(rt; after_reads(count), READS[count]);
    }
    Ok(())
}

/// As of reads, but that a write of bytes that takes none is a fault.
#[test]
fn errors_and_writes_of_nothing_are_faults(rt: HostRuntime) -> Result<(), Fail> {
    for count in 0..READS.len() {
        let wanted = match READS[count] {
            (Ok(0), _, calls) => (Err(Failed), 5, calls),
            row => row,
        };
        assert_eq!(rt; after_writes(count, b"abcd"), wanted);
    }
    assert_eq!(rt; after_writes(READS.len(), b""), (Ok(0), 5, 11));
    Ok(())
}
