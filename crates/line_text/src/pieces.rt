// Bytes on their way to a sink.
ghost use Rattle.std.specs.Prelude.{◌≡◌, ◌≤◌, ◌+◌, ◌++◌, [], IfOk, List, OnErr, OnOk, length, take, vec_len, ℕ};
ghost use Rattle.std.specs.Io.KnownBytes.{Appends};
ghost use Rattle.byte_ports.specs.Causes.{AppendsFront, HasCause};
ghost use Rattle.line_text.specs.Sending.{AreSent};
ghost use Rattle.line_text.specs.Texts.{zero_bytes};

use crate::NoMemory;
use crate::zeros::{BLOCK, zeros};
use byte_ports::{Failed, Sink, write_all_to};
use std::alloc::Global;
use std::marker::Model;

/// How many bytes are written at a time.
const PIECE: usize = 32_768;

/// Bytes on their way to a sink: many small ones are gathered and written as one piece. Contracts see those that are held.
#[derive(Drop)]
pub struct Pieces {
    bytes: Vec<u8>,
    held: usize,
}

impl Model for Pieces {
    ghost Value = { List ℕ };

    ghost view = { λ p. take p.held p.bytes.items };

    ghost invariant = { λ p. (p.held ≤ 32768) × (vec_len p.bytes ≡ 32768) };
}

impl Pieces {
    /// Nothing is held. The room for a piece is taken here, and no other call takes memory.
    pub fn new(alloc: Global) -> Result<Pieces, NoMemory>
        ensures { IfOk result (λ pieces. pieces ≡ []) }
    {
        Ok(Pieces {
            bytes: vec![in alloc; 0; PIECE]?,
            held: 0,
        })
    }

    /// Holds nothing any more.
    pub fn clear(&mut self)
        ensures { self.new ≡ [] }
    {
        self.held = 0;
    }

    // Holds these bytes too, for which there is room.
    fn hold(&mut self, bytes: &[u8])
        requires { length self.old + length bytes.now ≤ 32768 }
        ensures { self.new ≡ self.old ++ bytes.now }
    {
        let end = self.held + bytes.len();
        self.bytes[self.held..end].copy_from_slice(bytes);
        self.held = end;
    }

    /// Writes what is held. After `Failed` a front of it was taken, and the sink has counted one fault more.
    pub fn flush<K: Sink>(&mut self, sink: &mut K) -> Result<(), Failed>
        ensures all { OnOk result (Appends (K.taken sink.old) (K.taken sink.new) self.old × (self.new ≡ [])) }
        ensures front { OnErr result (AppendsFront (K.taken sink.old) (K.taken sink.new) self.old) }
        ensures cause { HasCause (K.faults sink.old) (K.faults sink.new) result }
    {
        write_all_to(sink, &self.bytes[..self.held])?;
        self.held = 0;
        Ok(())
    }

    /// Holds these bytes behind what is held, or writes that before, where there is no room, and them too, where they are more than a
    /// piece. After `Failed` a front of both was taken, and the sink has counted one fault more.
    pub fn put<K: Sink>(&mut self, sink: &mut K, bytes: &[u8]) -> Result<(), Failed>
        ensures all { OnOk result (AreSent (K.taken sink.old) (K.taken sink.new) self.old self.new bytes.now) }
        ensures front { OnErr result (AppendsFront (K.taken sink.old) (K.taken sink.new) (self.old ++ bytes.now)) }
        ensures cause { HasCause (K.faults sink.old) (K.faults sink.new) result }
    {
        if bytes.len() > PIECE - self.held {
            self.flush(sink)?;
            if bytes.len() > PIECE {
                return write_all_to(sink, bytes);
            }
        }
        self.hold(bytes);
        Ok(())
    }

    /// The same of so many bytes of entries 0, each behind a comma.
    pub fn put_zeros<K: Sink>(&mut self, sink: &mut K, count: u64) -> Result<(), Failed>
        ensures all { OnOk result (AreSent (K.taken sink.old) (K.taken sink.new) self.old self.new (zero_bytes count)) }
        ensures front { OnErr result (AppendsFront (K.taken sink.old) (K.taken sink.new) (self.old ++ zero_bytes count)) }
        ensures cause { HasCause (K.faults sink.old) (K.faults sink.new) result }
    {
        for _ in 0..count / BLOCK as u64 {
            match self.put(sink, zeros(BLOCK)) {
                Ok(()) => {}
                Err(early) => return Err(early),
            }
        }
        self.put(sink, zeros((count % BLOCK as u64) as usize))
    }
}
