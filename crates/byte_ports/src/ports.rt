// A source and a sink, by their bytes and by the count of their faults.
ghost use Rattle.std.specs.Prelude.{ℕ, ◌≡◌, ◌<◌, List, length, take, IfOk, OnOk, OnErr, min};
ghost use Rattle.std.specs.declared.option.Option.{Option};
ghost use Rattle.std.specs.Io.{ReadsAtMost, WritesAtMost};
ghost use Rattle.std.specs.Io.KnownBytes.{Appends, ReadConsumes, WriteAppends};
ghost use Rattle.byte_ports.specs.Causes.{AppendsFront, CountsEmpty, HasCause, IsCounted};

/// A read or a write failed, and the source or the sink has counted it.
#[derive(Clone, Copy, Debug, PartialEq, Eq)]
pub struct Failed;

/// What bytes are read from.
pub trait Source {
    /// The bytes that are still to come, where they are told.
    ghost left: { Self → Option (List ℕ) };

    /// How often a read has failed: it never falls, and stands still at 2 ^ 64 - 1.
    ghost faults: { Self → ℕ };

    /// How often a read has moved nothing, as it does at the end of the input: it never falls, and stands still at 2 ^ 64 - 1.
    ghost empty_reads: { Self → ℕ };

    /// Moves the first bytes that are left into the front of the buffer, and answers how many.
    ///
    /// None are moved only where the buffer is empty or the input is at its end, and that is one empty
    /// read more; else their count stays. `Failed` is one fault more, and nothing was moved then; else
    /// the count of faults stays.
    fn read(&mut self, into: &mut [u8]) -> Result<usize, Failed>
        ensures bound { ReadsAtMost result into.new }
        ensures bytes { ReadConsumes (left self.old) (left self.new) result into.new }
        ensures cause { HasCause (faults self.old) (faults self.new) result }
        ensures counted { IsCounted (faults self.old) (faults self.new) result }
        ensures empty { CountsEmpty (empty_reads self.old) (empty_reads self.new) result };
}

/// What bytes are written to.
pub trait Sink {
    /// The bytes that were taken so far, where they are told.
    ghost taken: { Self → Option (List ℕ) };

    /// How often a write has failed: it never falls, and stands still at 2 ^ 64 - 1.
    ghost faults: { Self → ℕ };

    /// Takes the first bytes of the piece, at least one where it has any, and answers how many.
    ///
    /// To take none of a piece that has bytes is a fault. `Failed` is one fault more, and nothing was
    /// taken then; else the count stays.
    fn write(&mut self, piece: &[u8]) -> Result<usize, Failed>
        ensures bound { WritesAtMost result piece.now }
        ensures some { IfOk result (λ count. 0 < length piece.now → 0 < count) }
        ensures bytes { WriteAppends (taken self.old) (taken self.new) result piece.now }
        ensures cause { HasCause (faults self.old) (faults self.new) result }
        ensures counted { IsCounted (faults self.old) (faults self.new) result };
}

/// Writes all the bytes, going on after a write that took only some of them.
///
/// After `Failed` a front of them was taken, and the sink has counted one fault more; else none.
pub fn write_all_to<K: Sink>(sink: &mut K, bytes: &[u8]) -> Result<(), Failed>
    ensures all { OnOk result (Appends (K.taken sink.old) (K.taken sink.new) bytes.now) }
    ensures front { OnErr result (AppendsFront (K.taken sink.old) (K.taken sink.new) bytes.now) }
    ensures cause { HasCause (K.faults sink.old) (K.faults sink.new) result }
    ensures counted { IsCounted (K.faults sink.old) (K.faults sink.new) result }
{
    let mut done = 0;
    while done < bytes.len() {
        done += sink.write(&bytes[done..])?;
    }
    Ok(())
}

/// Moves the first bytes into the front of the buffer, at most `most` of them, and answers how many.
pub(crate) fn move_front(from: &[u8], into: &mut [u8], most: usize) -> usize
    ensures count { result ≡ min (min (length from.now) (length into.old)) most }
    ensures moved { take result into.new ≡ take result from.now }
{
    let count = from.len().min(into.len()).min(most);
    into[..count].copy_from_slice(&from[..count]);
    count
}
