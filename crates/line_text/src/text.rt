// The text of a line.
ghost use Rattle.std.specs.Prelude.{◌≡◌, ◌<◌, ◌≤◌, ◌++◌, ◌∷◌, [], List, OnErr, OnOk, if◌then◌else◌, is_ok, length, take, ℕ};
ghost use Rattle.std.specs.Io.KnownBytes.{Appends};
ghost use Rattle.byte_ports.specs.Causes.{AppendsFront, HasCause};
ghost use Rattle.line_text.specs.Sending.{AreSent};
ghost use Rattle.line_text.specs.Texts.{AreInOrder, IsCutOff, bytes_of_runs, spread, zero_bytes, zero_entries};

use crate::NoMemory;
use crate::pieces::Pieces;
use crate::zeros::{BLOCK, zeros};
use byte_ports::{Failed, Sink};
use std::alloc::Global;
use std::marker::Model;

/// Of how many entries a run is at most.
const MOST: u128 = 1 << 62;

/// A run of entries 0, each behind a comma: before which of the kept bytes it stands, and how many bytes it has.
#[derive(Clone, Copy, Debug, PartialEq, Eq)]
struct Run {
    end: usize,
    length: u64,
}

/// The text of a line. Contracts see its bytes. A run of many entries 0 takes the room of two numbers, whatever its length.
#[derive(Drop)]
pub struct LineText {
    bytes: Vec<u8>,
    runs: Vec<Run>,
    zeros: u64,
}

impl Model for LineText {
    ghost Value = { List ℕ };

    ghost view = { λ t. spread t.bytes.items 0 t.runs.items };

    ghost invariant = { λ t. AreInOrder 0 t.runs.items (length t.bytes.items) × (t.zeros ≡ bytes_of_runs t.runs.items) };
}

impl LineText {
    /// Nothing is written yet.
    pub fn new(alloc: Global) -> LineText
        ensures { result ≡ [] }
    {
        LineText {
            bytes: Vec::new(alloc),
            runs: Vec::new(alloc),
            zeros: 0,
        }
    }

    /// How many bytes there are.
    pub fn len(&self) -> u128
        ensures { result ≡ length self.now }
    {
        self.bytes.len() as u128 + self.zeros as u128
    }

    /// Takes all bytes away, and keeps the room.
    pub fn clear(&mut self)
        ensures { self.new ≡ [] }
    {
        self.bytes.clear();
        self.runs.clear();
        self.zeros = 0;
    }

    /// Appends a byte, or nothing where there is no memory.
    pub fn push(&mut self, byte: u8) -> Result<(), NoMemory>
        ensures items { self.new ≡ (if is_ok result then self.old ++ byte ∷ [] else self.old) }
    {
        self.bytes.push(byte)?;
        Ok(())
    }

    /// Appends bytes, or nothing where there is no memory.
    pub fn extend_from_slice(&mut self, bytes: &[u8]) -> Result<(), NoMemory>
        ensures items { self.new ≡ (if is_ok result then self.old ++ bytes.now else self.old) }
    {
        self.bytes.extend_from_slice(bytes)?;
        Ok(())
    }

    // Appends so many bytes of entries 0, each behind a comma, or nothing where there is no memory, or where all runs together would
    // have 2 ^ 64 bytes.
    fn push_zero_bytes(&mut self, count: u64) -> Result<(), NoMemory>
        ensures items { self.new ≡ (if is_ok result then self.old ++ zero_bytes count else self.old) }
    {
        if count <= BLOCK as u64 {
            return self.extend_from_slice(zeros(count as usize));
        }
        let Some(zeros) = self.zeros.checked_add(count) else {
            return Err(NoMemory);
        };
        self.runs.push(Run {
            end: self.bytes.len(),
            length: count,
        })?;
        self.zeros = zeros;
        Ok(())
    }

    /// Appends so many entries 0, each behind a comma, or nothing where there is no memory or they are more than 2 ^ 62, or all runs together would have 2 ^ 64 bytes.
    pub fn push_zeros(&mut self, count: u128) -> Result<(), NoMemory>
        ensures ok { OnOk result (self.new ≡ self.old ++ zero_entries count) }
        ensures err { OnErr result (self.new ≡ self.old) }
    {
        if count > MOST {
            return Err(NoMemory);
        }
        self.push_zero_bytes(2 * count as u64)
    }

    /// The same with a comma behind them.
    pub fn push_gap(&mut self, count: u128) -> Result<(), NoMemory>
        ensures ok { OnOk result (self.new ≡ self.old ++ (zero_entries count ++ 44 ∷ [])) }
        ensures err { OnErr result (self.new ≡ self.old) }
    {
        if count > MOST {
            return Err(NoMemory);
        }
        self.push_zero_bytes(2 * count as u64 + 1)
    }

    // Takes bytes away at the end: so many, or as many as stand behind the last run, or as many as that run has.
    fn shorten(&mut self, most: u128)
        requires some { 0 < most }
        requires within { most ≤ length self.old }
        ensures { IsCutOff self.old self.new most }
    {
        let size = self.bytes.len();
        let Some(last) = self.runs.len().checked_sub(1) else {
            self.bytes.truncate(size - most as usize);
            return;
        };
        let run = self.runs[last];
        if run.end < size {
            self.bytes
                .truncate(size - most.min((size - run.end) as u128) as usize);
        } else if u128::from(run.length) <= most {
            self.runs.truncate(last);
            self.zeros -= run.length;
        } else {
            self.runs[last] = Run {
                end: run.end,
                length: run.length - most as u64,
            };
            self.zeros -= most as u64;
        }
    }

    /// Keeps the first bytes, so many. It takes no memory.
    pub fn truncate(&mut self, length: u128)
        ensures { self.new ≡ take length self.old }
    {
        while self.len() > length {
            self.shorten(self.len() - length);
        }
    }

    /// Writes all bytes. It takes no memory. After `Failed` a front of them was taken, and the sink has counted one fault more.
    pub fn write_to<K: Sink>(&self, pieces: &mut Pieces, sink: &mut K) -> Result<(), Failed>
        ensures all { OnOk result (Appends (K.taken sink.old) (K.taken sink.new) self.now) }
        ensures front { OnErr result (AppendsFront (K.taken sink.old) (K.taken sink.new) self.now) }
        ensures cause { HasCause (K.faults sink.old) (K.faults sink.new) result }
    {
        pieces.clear();
        put_spread(&self.bytes, &self.runs, pieces, sink)?;
        pieces.flush(sink)
    }
}

// Puts kept bytes with the runs between them.
fn put_spread<K: Sink>(
    bytes: &[u8],
    runs: &[Run],
    pieces: &mut Pieces,
    sink: &mut K,
) -> Result<(), Failed>
    requires { AreInOrder 0 runs.now (length bytes.now) }
    ensures all { OnOk result (AreSent (K.taken sink.old) (K.taken sink.new) pieces.old pieces.new (spread bytes.now 0 runs.now)) }
    ensures front { OnErr result (AppendsFront (K.taken sink.old) (K.taken sink.new) (pieces.old ++ spread bytes.now 0 runs.now)) }
    ensures cause { HasCause (K.faults sink.old) (K.faults sink.new) result }
{
    let mut start = 0;
    for run in runs {
        match put_run(&bytes[start..run.end], run.length, pieces, sink) {
            Ok(()) => {}
            Err(early) => return Err(early),
        }
        start = run.end;
    }
    pieces.put(sink, &bytes[start..])
}

// Puts bytes and a run behind them.
fn put_run<K: Sink>(
    bytes: &[u8],
    length: u64,
    pieces: &mut Pieces,
    sink: &mut K,
) -> Result<(), Failed>
    ensures all { OnOk result (AreSent (K.taken sink.old) (K.taken sink.new) pieces.old pieces.new (bytes.now ++ zero_bytes length)) }
    ensures front { OnErr result (AppendsFront (K.taken sink.old) (K.taken sink.new) (pieces.old ++ (bytes.now ++ zero_bytes length))) }
    ensures cause { HasCause (K.faults sink.old) (K.faults sink.new) result }
{
    pieces.put(sink, bytes)?;
    pieces.put_zeros(sink, length)
}
