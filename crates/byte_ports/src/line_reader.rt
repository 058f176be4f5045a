// The lines of a source, one after another, each as soon as its newline is read.
ghost use Rattle.std.specs.Prelude.{◌≡◌, ◌<◌, ◌≤◌, ◌+◌, ◌-◌, true, [], ◌∷◌, ◌++◌, length, take, drop, vec_len, vec_capacity, Ok, Err, IfOk, MatchOption, MatchResult, ℕ, List, None, Some, IfSome};
ghost use Rattle.std.specs.declared.option.Option.{Option};
ghost use Rattle.std.specs.Io.{ReadsAtMost};
ghost use Rattle.std.specs.Io.KnownBytes.{Consumes, IsAtEnd, Keeps, ReadConsumes};
ghost use Rattle.byte_ports.specs.Causes.{CountsEmpty, HasCause, IsCounted};
ghost use Rattle.byte_ports.specs.Lines.{Reading, HasNoNewline, NeedsMore, Answers, CountsEnd, CountsFaults, HasFaultCause, goes_on};

use crate::{Failed, NoMemory, Source};
use std::alloc::Global;
use std::marker::Model;

/// How many bytes are asked of a source at a time.
const PIECE: usize = 4096;

/// What a reading of lines came to.
#[derive(Clone, Copy, Debug, PartialEq, Eq)]
pub enum Next {
    /// A line and its newline.
    Line,

    /// The end of the input, and before it bytes behind the last newline.
    Last,

    /// The end of the input, and nothing before it.
    End,

    /// More bytes than may stand in lines, and no newline among those that may.
    Long,
}

/// Why a reading of lines did not come to anything.
#[derive(Clone, Copy, Debug, PartialEq, Eq)]
pub enum LinesStop {
    /// There was no room for the line.
    Memory,

    /// A read failed.
    Fault,
}

/// A reading of lines from a source: the bytes that were taken from it and are in no line yet. Bytes up to a limit may stand in
/// lines, their newlines with them.
#[derive(Drop)]
pub struct Lines {
    /// The last piece that was read, of which the bytes from `start` to `end` are held.
    buffer: Vec<u8>,
    start: usize,
    end: usize,
    /// How many more bytes may stand in lines.
    room: usize,
    is_open: bool,
}

impl Model for Lines {
    ghost Value = { Reading };

    ghost view = { λ s. record {
      held = take (s.end - s.start) (drop s.start s.buffer.items);
      room = s.room;
      is_open = s.is_open;
    } };

    ghost invariant = { λ s. (s.start ≤ s.end) × (s.end ≤ vec_len s.buffer) × (vec_len s.buffer ≡ 4096) };
}

impl Lines {
    /// A reading from whose source nothing was taken yet, where so many bytes may stand in lines.
    pub fn new(alloc: Global, limit: usize) -> Result<Lines, NoMemory>
        ensures { IfOk result (λ lines. lines ≡ record { held = []; room = limit; is_open = true }) }
    {
        Ok(Lines {
            buffer: vec![in alloc; 0; PIECE]?,
            start: 0,
            end: 0,
            room: limit,
            is_open: true,
        })
    }

    /// The next line of the source, in the place of what `line` holds, without its newline.
    ///
    /// No call before this one answered anything but `Line`. The source is read only where no newline is held, and no more once a
    /// read moved nothing; what is read ahead is held for the calls that follow. `Last` and `End` come at the end of the input,
    /// with the bytes behind the last newline or where there are none: one read moved nothing then, and else none did. `Long` comes
    /// exactly where more bytes were taken than may stand in lines, and no newline stands among those that may and are in no line
    /// yet. `Fault` is one fault more of the source. `Memory` comes only where `line` has not the capacity for all bytes that may
    /// still stand in lines.
    pub fn next<S: Source>(&mut self, source: &mut S, line: &mut Vec<u8>) -> Result<Next, LinesStop>
        requires is_open { self.old.is_open ≡ true }
        ensures answer { Answers self.old self.new (S.left source.old) (S.left source.new) line.new.items result }
        ensures is_open { self.new.is_open ≡ goes_on result }
        ensures ahead { length self.new.held ≤ 4096 }
        ensures unread { (NeedsMore self.old → ⊥) → source.new ≡ source.old }
        ensures cause { HasFaultCause (S.faults source.old) (S.faults source.new) result }
        ensures counted { CountsFaults (S.faults source.old) (S.faults source.new) result }
        ensures ended { CountsEnd (S.empty_reads source.old) (S.empty_reads source.new) result }
        ensures memory { result ≡ Err LinesStop.Memory → vec_capacity line.old < self.old.room }
        ensures capacity { vec_capacity line.old ≤ vec_capacity line.new }
    {
        let answer = self.seek(source, line);
        self.is_open = goes_on(&answer);
        answer
    }

    /// The next line, from what is held where a newline is among it.
    fn seek<S: Source>(&mut self, source: &mut S, line: &mut Vec<u8>) -> Result<Next, LinesStop>
        ensures answer { Answers self.old self.new (S.left source.old) (S.left source.new) line.new.items result }
        ensures unread { (NeedsMore self.old → ⊥) → source.new ≡ source.old }
        ensures cause { HasFaultCause (S.faults source.old) (S.faults source.new) result }
        ensures counted { CountsFaults (S.faults source.old) (S.faults source.new) result }
        ensures ended { CountsEnd (S.empty_reads source.old) (S.empty_reads source.new) result }
        ensures memory { result ≡ Err LinesStop.Memory → vec_capacity line.old < self.old.room }
        ensures capacity { vec_capacity line.old ≤ vec_capacity line.new }
    {
        line.clear();
        match self.move_held(line) {
            Some(answer) => answer,
            None => self.read_on(source, line),
        }
    }

    /// The next line, of which these bytes stand in `line` and nothing is held. A piece is read at a time, until one has a newline.
    fn read_on<S: Source>(&mut self, source: &mut S, line: &mut Vec<u8>) -> Result<Next, LinesStop>
        requires empty { self.old.held ≡ [] }
        requires room { length line.old.items ≤ self.old.room }
        requires line { HasNoNewline line.old.items }
        ensures answer { Answers (record self.old { held = line.old.items }) self.new (S.left source.old) (S.left source.new) line.new.items result }
        ensures cause { HasFaultCause (S.faults source.old) (S.faults source.new) result }
        ensures counted { CountsFaults (S.faults source.old) (S.faults source.new) result }
        ensures ended { CountsEnd (S.empty_reads source.old) (S.empty_reads source.new) result }
        ensures memory { result ≡ Err LinesStop.Memory → vec_capacity line.old < self.old.room }
        ensures capacity { vec_capacity line.old ≤ vec_capacity line.new }
    {
        loop {
            let count = match self.fill(source) {
                Ok(count) => count,
                Err(_) => return Err(LinesStop::Fault),
            };
            if count == 0 {
                if line.is_empty() {
                    return Ok(Next::End);
                }
                return Ok(Next::Last);
            }
            match self.move_held(line) {
                Some(answer) => return answer,
                None => {}
            }
        }
    }

    /// Moves the bytes before the next newline behind the line, or all that are held where none of them is a newline. The line has
    /// none yet. What the reading came to is the answer; there is none where the line goes on behind what was held.
    fn move_held(&mut self, line: &mut Vec<u8>) -> Option<Result<Next, LinesStop>>
        requires room { length line.old.items ≤ self.old.room }
        requires line { HasNoNewline line.old.items }
        ensures answer { IfSome result (λ answer. (left : Option (List ℕ)) →
            Answers (record self.old { held = line.old.items ++ self.old.held }) self.new left left line.new.items answer) }
        ensures unread { IfSome result (λ answer. (count : ℕ) → HasFaultCause count count answer × CountsFaults count count answer × CountsEnd count count answer) }
        ensures all { result ≡ None → (line.new.items ≡ line.old.items ++ self.old.held) × (self.new.held ≡ [])
            × HasNoNewline line.new.items × (length line.new.items ≤ self.old.room) × (self.new.room ≡ self.old.room) }
        ensures memory { result ≡ Some (Err LinesStop.Memory) → vec_capacity line.old < self.old.room }
        ensures capacity { vec_capacity line.old ≤ vec_capacity line.new }
    {
        let room = self.room - line.len();
        let held = &self.buffer[self.start..self.end];
        match newline_at(held, room) {
            Some(at) => {
                match line.extend_from_slice(&held[..at]) {
                    Ok(()) => {}
                    Err(_) => return Some(Err(LinesStop::Memory)),
                }
                self.start += at + 1;
                self.room = room - at - 1;
                Some(Ok(Next::Line))
            }
            None if held.len() > room => Some(Ok(Next::Long)),
            None => {
                match line.extend_from_slice(held) {
                    Ok(()) => {}
                    Err(_) => return Some(Err(LinesStop::Memory)),
                }
                self.start = self.end;
                None
            }
        }
    }

    /// Reads a piece, where none is held.
    fn fill<S: Source>(&mut self, source: &mut S) -> Result<usize, Failed>
        ensures bytes { MatchResult result
            (λ count. Consumes (S.left source.old) (S.left source.new) self.new.held × (length self.new.held ≡ count) × (count ≡ 0 → IsAtEnd (S.left source.new)))
            (λ _. Keeps (S.left source.old) (S.left source.new)) }
        ensures room { self.new.room ≡ self.old.room }
        ensures cause { HasCause (S.faults source.old) (S.faults source.new) result }
        ensures counted { IsCounted (S.faults source.old) (S.faults source.new) result }
        ensures empty { CountsEmpty (S.empty_reads source.old) (S.empty_reads source.new) result }
    {
        let read = read_piece(source, &mut self.buffer);
        self.start = 0;
        self.end = read.unwrap_or(0);
        read
    }
}

/// A read into a vector, whose length stays as it is.
fn read_piece<S: Source>(source: &mut S, buffer: &mut Vec<u8>) -> Result<usize, Failed>
    ensures kept { vec_len buffer.new ≡ vec_len buffer.old }
    ensures bound { ReadsAtMost result buffer.new.items }
    ensures bytes { ReadConsumes (S.left source.old) (S.left source.new) result buffer.new.items }
    ensures cause { HasCause (S.faults source.old) (S.faults source.new) result }
    ensures counted { IsCounted (S.faults source.old) (S.faults source.new) result }
    ensures empty { CountsEmpty (S.empty_reads source.old) (S.empty_reads source.new) result }
{
    source.read(buffer)
}

/// A line came, so there may be more.
fn goes_on(answer: &Result<Next, LinesStop>) -> bool
    ensures { result ≡ goes_on answer.now }
{
    matches!(answer, Ok(Next::Line))
}

/// The place of the first newline among the first bytes, so many at most.
fn newline_at(bytes: &[u8], most: usize) -> Option<usize>
    ensures { MatchOption result (HasNoNewline (take most bytes.now)) (λ at. (at < length bytes.now) × (at < most)
        × HasNoNewline (take at bytes.now) × (bytes.now ≡ take at bytes.now ++ 10 ∷ drop (at + 1) bytes.now)) }
{
    for at in 0..bytes.len().min(most) {
        if bytes[at] == b'\n' {
            return Some(at);
        }
    }
    None
}
