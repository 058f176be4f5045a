// A source and a sink in memory, which give and take a few bytes a call and fail at the calls that they are told.
ghost use Rattle.std.specs.Prelude.{◌≡◌, ◌<◌, ◌≤◌, ◌+◌, ◌==◌, ◌&&◌, ◌||◌, ℕ, List, not, min, [], length, vec_len, vec_capacity, drop, Some, IfOk, IfErr, OnErr, MatchResult};
ghost use Rattle.std.specs.Result.{is_err};
ghost use Rattle.std.specs.Io.{ReadsAtMost, WritesAtMost};
ghost use Rattle.std.specs.Io.KnownBytes.{ReadConsumes, WriteAppends};
ghost use Rattle.byte_ports.specs.Causes.{CountsEmpty, HasCause, IsCounted};
ghost use Rattle.risen_counts.specs.Counts.{next_count};
ghost use Rattle.byte_ports.specs.InMemory.{Giving, Taking, is_failing, given, not_given, taken_of, not_taken, taken_count};

use crate::ports::move_front;
use crate::{Failed, NoMemory, Sink, Source};
use std::alloc::Global;
use std::marker::Model;

/// Bytes in memory that are read a few at a time. Its reads take no memory.
#[derive(Drop)]
pub struct MemSource {
    bytes: Vec<u8>,
    at: usize,
    piece: usize,
    failing: Vec<u64>,
    calls: u64,
    faults: u64,
    empty: u64,
}

impl Model for MemSource {
    ghost Value = { Giving };

    ghost view = { λ s. record {
      left = drop s.at s.bytes.items;
      piece = s.piece;
      failing = s.failing.items;
      calls = s.calls;
      faults = s.faults;
      empty = s.empty;
    } };

    ghost invariant = { λ s. (s.at ≤ vec_len s.bytes) × (0 < s.piece) };
}

impl MemSource {
    /// Gives these bytes, at most `piece` of them a call, and fails at the calls with the numbers
    /// in `failing`, counted from 1.
    pub fn new(bytes: Vec<u8>, piece: usize, failing: Vec<u64>) -> MemSource
        requires { 0 < piece }
        ensures { result ≡ record { left = bytes.items; piece = piece; failing = failing.items; calls = 0; faults = 0; empty = 0 } }
    {
        MemSource {
            bytes,
            at: 0,
            piece,
            failing,
            calls: 0,
            faults: 0,
            empty: 0,
        }
    }
}

impl Source for MemSource {
    ghost left = { λ s. Some s.left };

    ghost faults = { λ s. s.faults };

    ghost empty_reads = { λ s. s.empty };

    fn read(&mut self, into: &mut [u8]) -> Result<usize, Failed>
        ensures bound { ReadsAtMost result into.new }
        ensures bytes { ReadConsumes (Some self.old.left) (Some self.new.left) result into.new }
        ensures cause { HasCause self.old.faults self.new.faults result }
        ensures counted { IsCounted self.old.faults self.new.faults result }
        ensures empty { CountsEmpty self.old.empty self.new.empty result }

        // It fails exactly at the calls that it was told.
        ensures fails { is_err result ≡ is_failing self.old.failing (next_count self.old.calls) }
        ensures moved { IfOk result (λ count. count ≡ min (min (length self.old.left) (length into.old)) self.old.piece) }
        ensures after { MatchResult result (λ count. self.new ≡ given self.old count) (λ _. self.new ≡ not_given self.old) }
    {
        self.calls = self.calls.saturating_add(1);
        if self.failing.contains(&self.calls) {
            self.faults = self.faults.saturating_add(1);
            return Err(Failed);
        }
        let count = move_front(&self.bytes[self.at..], into, self.piece);
        self.at += count;
        if count == 0 {
            self.empty = self.empty.saturating_add(1);
        }
        Ok(count)
    }
}

/// Memory that bytes are written to. Its room is taken when it is made, and its writes take none.
#[derive(Drop)]
pub struct MemSink {
    bytes: Vec<u8>,
    room: usize,
    piece: usize,
    failing: Vec<u64>,
    calls: u64,
    faults: u64,
}

impl Model for MemSink {
    ghost Value = { Taking };

    ghost view = { λ s. record {
      taken = s.bytes.items;
      room = s.room;
      piece = s.piece;
      failing = s.failing.items;
      calls = s.calls;
      faults = s.faults;
    } };

    ghost invariant = { λ s. (vec_len s.bytes + s.room ≤ vec_capacity s.bytes) × (0 < s.piece) };
}

impl MemSink {
    /// Takes `room` bytes in all, at most `piece` of them a call, and fails at the calls with the
    /// numbers in `failing`, counted from 1. A write that finds no room left is a counted fault too.
    pub fn new(
        alloc: Global,
        room: usize,
        piece: usize,
        failing: Vec<u64>,
    ) -> Result<MemSink, NoMemory>
        requires { 0 < piece }
        ensures { IfOk result (λ sink. sink ≡ record { taken = []; room = room; piece = piece; failing = failing.items; calls = 0; faults = 0 }) }
    {
        Ok(MemSink {
            bytes: Vec::with_capacity(alloc, room)?,
            room,
            piece,
            failing,
            calls: 0,
            faults: 0,
        })
    }

    /// What was taken.
    pub fn bytes(&self) -> &[u8]
        ensures { result.now ≡ self.now.taken }
    {
        &self.bytes
    }
}

impl Sink for MemSink {
    ghost taken = { λ s. Some s.taken };

    ghost faults = { λ s. s.faults };

    fn write(&mut self, piece: &[u8]) -> Result<usize, Failed>
        ensures bound { WritesAtMost result piece.now }
        ensures some { IfOk result (λ count. 0 < length piece.now → 0 < count) }
        ensures bytes { WriteAppends (Some self.old.taken) (Some self.new.taken) result piece.now }
        ensures cause { HasCause self.old.faults self.new.faults result }
        ensures counted { IsCounted self.old.faults self.new.faults result }

        // It fails exactly at the calls that it was told, and where it has no room for any byte of the piece.
        ensures fails { is_err result ≡ (is_failing self.old.failing (next_count self.old.calls) || (self.old.room == 0 && not (length piece.now == 0))) }
        ensures moved { IfOk result (λ count. count ≡ taken_count self.old piece.now) }
        ensures after { MatchResult result (λ count. self.new ≡ taken_of self.old piece.now count) (λ _. self.new ≡ not_taken self.old) }
    {
        self.calls = self.calls.saturating_add(1);
        let is_full = self.room == 0 && !piece.is_empty();
        if is_full || self.failing.contains(&self.calls) {
            self.faults = self.faults.saturating_add(1);
            return Err(Failed);
        }
        let count = piece.len().min(self.piece).min(self.room);
        self.bytes.extend_from_slice(&piece[..count]).unwrap();
        self.room -= count;
        Ok(count)
    }
}
