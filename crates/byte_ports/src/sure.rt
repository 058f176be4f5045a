// A source and a sink that never fail.
ghost use Rattle.std.specs.Prelude.{◌≡◌, ◌<◌, ◌≤◌, length, min, vec_len, drop, Ok, Some, None};
ghost use Rattle.std.specs.Io.{ReadsAtMost};
ghost use Rattle.std.specs.Io.KnownBytes.{ReadConsumes};
ghost use Rattle.byte_ports.specs.Causes.{CountsEmpty, HasCause, IsCounted};

use crate::ports::move_front;
use crate::{Failed, Sink, Source};

/// Bytes in memory whose reads never fail: its count of faults is always 0.
#[derive(Drop)]
pub struct SureSource {
    bytes: Vec<u8>,
    at: usize,
    piece: usize,
    empty: u64,
    ghost within: { at ≤ vec_len bytes },
    ghost moves: { 0 < piece },
}

impl SureSource {
    /// Gives these bytes, at most `piece` of them a call.
    pub fn new(bytes: Vec<u8>, piece: usize) -> SureSource
        requires { 0 < piece }
        ensures left { ⟦<SureSource as Source>⟧.left result ≡ Some bytes.items }
        ensures piece { result.piece ≡ piece }
    {
        SureSource {
            bytes,
            at: 0,
            piece,
            empty: 0,
        }
    }
}

impl Source for SureSource {
    ghost left = { λ s. Some (drop s.at s.bytes.items) };

    ghost faults = { λ s. 0 };

    ghost empty_reads = { λ s. s.empty };

    fn read(&mut self, into: &mut [u8]) -> Result<usize, Failed>
        ensures bound { ReadsAtMost result into.new }
        ensures bytes { ReadConsumes (Some (drop self.old.at self.old.bytes.items)) (Some (drop self.new.at self.new.bytes.items)) result into.new }
        ensures cause { HasCause 0 0 result }
        ensures counted { IsCounted 0 0 result }
        ensures empty { CountsEmpty self.old.empty self.new.empty result }

        // It gives what is left and finds room, but at most a piece.
        ensures moved { result ≡ Ok (min (min (length (drop self.old.at self.old.bytes.items)) (length into.old)) self.old.piece) }
        ensures piece { self.new.piece ≡ self.old.piece }
    {
        let count = move_front(&self.bytes[self.at..], into, self.piece);
        self.at += count;
        if count == 0 {
            self.empty = self.empty.saturating_add(1);
        }
        Ok(count)
    }
}

/// Takes all bytes, keeps none and tells none: its count of faults is always 0.
#[derive(Clone, Copy, Debug, PartialEq, Eq)]
pub struct SureSink;

impl Sink for SureSink {
    ghost taken = { λ s. None };

    ghost faults = { λ s. 0 };

    fn write(&mut self, piece: &[u8]) -> Result<usize, Failed> {
        Ok(piece.len())
    }
}
