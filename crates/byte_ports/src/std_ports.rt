// The ports of the system: they count faults and empty reads, and tell no bytes.
ghost use Rattle.std.specs.Prelude.{◌≡◌, ◌<◌, ◌≤◌, length, None, IfOk};
ghost use Rattle.std.specs.Io.{ReadsAtMost, WritesAtMost};
ghost use Rattle.std.specs.Io.KnownBytes.{ReadConsumes, WriteAppends};
ghost use Rattle.byte_ports.specs.Causes.{CountsEmpty, CountsErrors, HasCause, IsCounted};

use crate::{Failed, Sink, Source};
use std::io;
use std::io::{ErrorKind, Read, Write};

/// One read. An error that is no interruption is counted.
fn read_once<R: Read>(reader: &mut R, faults: &mut u64, into: &mut [u8]) -> io::Result<usize>
    ensures bound { ReadsAtMost result into.new }
    ensures bytes { ReadConsumes (R.remaining reader.old) (R.remaining reader.new) result into.new }
    ensures counted { CountsErrors faults.old faults.new result }
    ensures later { faults.old ≤ faults.new }
{
    match reader.read(into) {
        Ok(count) => Ok(count),
        Err(error) => {
            if error.kind() != ErrorKind::Interrupted {
                *faults = faults.saturating_add(1);
            }
            Err(error)
        }
    }
}

/// A read that is tried again where a signal interrupts it. The tries are counted, so that it ends.
fn read_again<R: Read>(reader: &mut R, faults: &mut u64, into: &mut [u8]) -> Result<usize, Failed>
    ensures bound { ReadsAtMost result into.new }
    ensures bytes { ReadConsumes (R.remaining reader.old) (R.remaining reader.new) result into.new }
    ensures cause { HasCause faults.old faults.new result }
    ensures counted { IsCounted faults.old faults.new result }
{
    for _ in 0..u64::MAX {
        match read_once(reader, faults, into) {
            Ok(count) => return Ok(count),
            Err(error) => {
                if error.kind() != ErrorKind::Interrupted {
                    return Err(Failed);
                }
            }
        }
    }
    *faults = faults.saturating_add(1);
    Err(Failed)
}

/// One write. An error that is no interruption is counted.
fn write_once<W: Write>(writer: &mut W, faults: &mut u64, piece: &[u8]) -> io::Result<usize>
    ensures bound { WritesAtMost result piece.now }
    ensures bytes { WriteAppends (W.contents writer.old) (W.contents writer.new) result piece.now }
    ensures counted { CountsErrors faults.old faults.new result }
    ensures later { faults.old ≤ faults.new }
{
    match writer.write(piece) {
        Ok(count) => Ok(count),
        Err(error) => {
            if error.kind() != ErrorKind::Interrupted {
                *faults = faults.saturating_add(1);
            }
            Err(error)
        }
    }
}

/// A write that is tried again where a signal interrupts it. The tries are counted, so that it ends.
fn write_again<W: Write>(writer: &mut W, faults: &mut u64, piece: &[u8]) -> Result<usize, Failed>
    ensures bound { WritesAtMost result piece.now }
    ensures bytes { WriteAppends (W.contents writer.old) (W.contents writer.new) result piece.now }
    ensures cause { HasCause faults.old faults.new result }
    ensures counted { IsCounted faults.old faults.new result }
{
    for _ in 0..u64::MAX {
        match write_once(writer, faults, piece) {
            Ok(count) => return Ok(count),
            Err(error) => {
                if error.kind() != ErrorKind::Interrupted {
                    return Err(Failed);
                }
            }
        }
    }
    *faults = faults.saturating_add(1);
    Err(Failed)
}

/// A source over a reader of the system. It tells no bytes: it passes on what the reader gave, and counts its
/// faults and its empty reads.
///
/// A read that a signal interrupts is tried again, and each other error of the reader is one fault. A reader
/// tells no errors, so no clause says which of them are tried again: tests do.
#[derive(Drop)]
pub struct StdSource<R: Read + Drop> {
    inner: R,
    faults: u64,
    empty: u64,
}

impl<R: Read + Drop> StdSource<R> {
    /// Reads from this reader. There was no fault and no empty read yet.
    pub fn new(inner: R) -> StdSource<R>
        ensures unread { result.inner ≡ inner }
        ensures faults { result.faults ≡ 0 }
        ensures empty { result.empty ≡ 0 }
    {
        StdSource {
            inner,
            faults: 0,
            empty: 0,
        }
    }

    /// The reader, and how many faults there were so far.
    pub fn into_parts(self) -> (R, u64)
        ensures reader { result.0 ≡ self.inner }
        ensures faults { result.1 ≡ self.faults }
    {
        let StdSource {
            inner,
            faults,
            empty: _,
        } = self;
        (inner, faults)
    }
}

impl<R: Read + Drop> Source for StdSource<R> {
    ghost left = { λ s. None };

    ghost faults = { λ s. s.faults };

    ghost empty_reads = { λ s. s.empty };

    fn read(&mut self, into: &mut [u8]) -> Result<usize, Failed>
        ensures bound { ReadsAtMost result into.new }
        ensures bytes { ReadConsumes None None result into.new }
        ensures cause { HasCause self.old.faults self.new.faults result }
        ensures counted { IsCounted self.old.faults self.new.faults result }
        ensures empty { CountsEmpty self.old.empty self.new.empty result }

        // What the reader gave is passed on, and its error.
        ensures passed { ReadConsumes (R.remaining self.old.inner) (R.remaining self.new.inner) result into.new }
    {
        let count = read_again(&mut self.inner, &mut self.faults, into)?;
        if count == 0 {
            self.empty = self.empty.saturating_add(1);
        }
        Ok(count)
    }
}

/// A sink over a writer of the system. It tells no bytes: it passes on what the writer took, and counts its
/// faults. A write that took nothing of a piece that has bytes is one.
///
/// A write that a signal interrupts is tried again, and each other error of the writer is one fault. A writer
/// tells no errors, so no clause says which of them are tried again: tests do.
#[derive(Drop)]
pub struct StdSink<W: Write + Drop> {
    inner: W,
    faults: u64,
}

impl<W: Write + Drop> StdSink<W> {
    /// Writes to this writer. There was no fault yet.
    pub fn new(inner: W) -> StdSink<W>
        ensures unwritten { result.inner ≡ inner }
        ensures faults { result.faults ≡ 0 }
    {
        StdSink { inner, faults: 0 }
    }

    /// The writer, and how many faults there were so far.
    pub fn into_parts(self) -> (W, u64)
        ensures writer { result.0 ≡ self.inner }
        ensures faults { result.1 ≡ self.faults }
    {
        let StdSink { inner, faults } = self;
        (inner, faults)
    }
}

impl<W: Write + Drop> Sink for StdSink<W> {
    ghost taken = { λ s. None };

    ghost faults = { λ s. s.faults };

    fn write(&mut self, piece: &[u8]) -> Result<usize, Failed>
        ensures bound { WritesAtMost result piece.now }
        ensures some { IfOk result (λ count. 0 < length piece.now → 0 < count) }
        ensures bytes { WriteAppends None None result piece.now }
        ensures cause { HasCause self.old.faults self.new.faults result }
        ensures counted { IsCounted self.old.faults self.new.faults result }

        // What the writer took is told, and its error.
        ensures passed { WriteAppends (W.contents self.old.inner) (W.contents self.new.inner) result piece.now }
    {
        let count = write_again(&mut self.inner, &mut self.faults, piece)?;
        if count > 0 || piece.is_empty() {
            return Ok(count);
        }
        self.faults = self.faults.saturating_add(1);
        Err(Failed)
    }
}
