// The lines of a script, each done as soon as it is read.
ghost use Rattle.std.specs.Prelude.{◌≡◌, ℕ, ◌<◌, ◌≤◌, List, codes, [], ◌++◌, true, vec_capacity, IfErr, OnOk, OnErr, IfSome, None, Some, Err};
ghost use Rattle.std.specs.Io.KnownBytes.{Appends};
ghost use Rattle.byte_ports.specs.Causes.{HasCause, AppendsFront};
ghost use Rattle.risen_counts.specs.Counts.{Rose};
ghost use Rattle.session_lang.specs.Lines.{Line};
ghost use Rattle.session_values.specs.Names.{no_names};
ghost use Rattle.session_top.specs.Meaning.{refusal_word, error_line, Done};
ghost use Rattle.basis_core.specs.Views.{run_of, state_of, variables_of};
ghost use Rattle.basis_steps.specs.Steps.{Replays};
ghost use Rattle.run_endings.specs.Stops.{IsStop};
ghost use Rattle.session_top.specs.Limits.{limits_in, limits_of};
ghost use Rattle.session_top.specs.Parts.{ErrorEnds, LineStops, StopEnds};
ghost use Rattle.session_top.specs.Run.{Meant, ScriptStops};

use crate::SCRIPT_LIMIT;
use crate::early::{Early, Kept, Refusal};
use crate::engines::{Engines, engine_of};
use crate::stops::write_stop_line;
use basis_core::BasisState;
use byte_ports::{Failed, Lines, LinesStop, Next, Sink, Source, write_all_to};
use command_words::Request;
use degree_engine::DegreeEngine;
use f4_engine::F4Engine;
use groebner_iface::OpStop;
use itoa::Buffer;
use line_text::{LineText, Pieces};
use module_vectors::KeptTrail;
use script_parse::Kind;
use session_lang::{Session, Step};
use std::alloc::Global;
use std::mem::replace;
use std::sync::Wait;
use std::thread::Threads;
use worker_gate::{Gate, SharedGate};

/// The end of the error line of a refusal.
fn error_end(refusal: Refusal) -> &'static [u8]
    ensures { result.now ≡ codes " " ++ refusal_word refusal ++ codes "\n" }
{
    match refusal {
        Refusal::OfLine(Kind::Syntax) => b" syntax\n",
        Refusal::OfLine(Kind::Numeral) => b" numeral\n",
        Refusal::OfLine(Kind::Ring) => b" ring\n",
        Refusal::OfLine(Kind::Modulus) => b" modulus\n",
        Refusal::OfLine(Kind::Name) => b" name\n",
        Refusal::OfLine(Kind::OfKind) => b" kind\n",
        Refusal::OfLine(Kind::Rank) => b" rank\n",
        Refusal::OfLine(Kind::Degree) => b" degree\n",
        Refusal::OfLine(Kind::Leads) => b" leads\n",
        Refusal::OfLine(Kind::Large) => b" large\n",
        Refusal::OfLine(Kind::Infinite) => b" infinite\n",
        Refusal::OfLine(Kind::Homogeneous) => b" homogeneous\n",
        Refusal::OfLine(Kind::Many) => b" many\n",
        Refusal::Length => b" length\n",
    }
}

/// Writes the error line of a refusal. It takes no memory.
fn write_error_line<K: Sink>(sink: &mut K, number: u32, refusal: Refusal) -> Result<(), Failed>
    ensures all { OnOk result (Appends (K.taken sink.old) (K.taken sink.new) (error_line number refusal)) }
    ensures front { OnErr result (AppendsFront (K.taken sink.old) (K.taken sink.new) (error_line number refusal)) }
    ensures cause { HasCause (K.faults sink.old) (K.faults sink.new) result }
{
    let mut digits = Buffer::new();
    write_all_to(sink, b"error ")?;
    write_all_to(sink, digits.format(number).as_bytes())?;
    write_all_to(sink, error_end(refusal))
}

/// Writes the error line of a refusal, and tells how the run ends.
fn refuse<K: Sink>(sink: &mut K, number: u32, refusal: Refusal) -> Early
    ensures says { ErrorEnds (K.taken sink.old) (K.taken sink.new) number refusal result }
    ensures write { result ≡ Early.WriteFault → Rose (K.faults sink.old) (K.faults sink.new) }
    ensures later { K.faults sink.old ≤ K.faults sink.new }
{
    match write_error_line(sink, number, refusal) {
        Ok(()) => Early::Refused(number),
        Err(_) => Early::WriteFault,
    }
}

/// A kept state replays its history. It does nothing: its contract is the law.
fn replays(state: &Option<BasisState>)
    ensures { IfSome state.now (λ s. let n = variables_of s in Replays (run_of n s) (state_of n s)) }
{
    if let Some(state) = state {
        state.kept();
    }
}

/// Takes out what an engine keeps of the last run that stopped. A new engine with the same budget, workers, helpers, update,
/// worth of a thread and gate stands in its place.
fn take_stop(engine: &mut F4Engine) -> Kept
    ensures state { result.state ≡ engine.old.state }
    ensures trail { result.trail ≡ engine.old.trail }
    ensures kept { IsStop engine.old.pairs engine.old.workers engine.old.update engine.old.state engine.old.trail }
    ensures replays { IfSome engine.old.state (λ s. let n = variables_of s in Replays (run_of n s) (state_of n s)) }
{
    let fresh = F4Engine::new(
        engine.pairs(),
        engine.workers(),
        engine.helpers(),
        engine.update(),
        engine.thread(),
        engine.gate().shared(),
    );
    let (state, trail) = replace(engine, fresh).into_stop();
    replays(&state);
    Kept { state, trail }
}

/// Writes the stop line of what is kept, and tells how the run ends.
fn stop<K: Sink>(sink: &mut K, number: u32, kept: Kept) -> Early
    ensures says { StopEnds (K.taken sink.old) (K.taken sink.new) number kept.state kept.trail result }
    ensures write { result ≡ Early.WriteFault → Rose (K.faults sink.old) (K.faults sink.new) }
    ensures later { K.faults sink.old ≤ K.faults sink.new }
{
    match write_stop_line(sink, &kept) {
        Ok(()) => Early::Stopped(number, kept),
        Err(_) => Early::WriteFault,
    }
}

/// The end of a run of lines at a basis run that stopped, of which the engine keeps what it can tell.
fn stop_at_run<K: Sink>(sink: &mut K, number: u32, engine: &mut F4Engine) -> Early
    ensures says { StopEnds (K.taken sink.old) (K.taken sink.new) number engine.old.state engine.old.trail result }
    ensures kept { IsStop engine.old.pairs engine.old.workers engine.old.update engine.old.state engine.old.trail }
    ensures replays { IfSome engine.old.state (λ s. let n = variables_of s in Replays (run_of n s) (state_of n s)) }
    ensures write { result ≡ Early.WriteFault → Rose (K.faults sink.old) (K.faults sink.new) }
    ensures later { K.faults sink.old ≤ K.faults sink.new }
{
    stop(sink, number, take_stop(engine))
}

/// The same at a division by a reduced basis, or a product of a list that is made, that stopped.
fn stop_at_division<K: Sink>(sink: &mut K, number: u32, trail: KeptTrail) -> Early
    ensures says { StopEnds (K.taken sink.old) (K.taken sink.new) number None (Some trail) result }
    ensures write { result ≡ Early.WriteFault → Rose (K.faults sink.old) (K.faults sink.new) }
    ensures later { K.faults sink.old ≤ K.faults sink.new }
{
    let kept = Kept {
        state: None,
        trail: Some(trail),
    };
    stop(sink, number, kept)
}

/// What a run of lines works with from line to line.
pub struct Desk {
    engine: DegreeEngine<Engines, F4Engine>,
    session: Session,
    /// The text of a line, until it is written.
    out: LineText,
    /// Its bytes on their way to the sink.
    pieces: Pieces,
}

// By hand, so that each drop of one is a call.
impl Drop for Desk {
    fn drop(self) {
        let Desk {
            engine: _,
            session: _,
            out: _,
            pieces: _,
        } = self;
    }
}

/// A desk at which nothing has a name yet, whose basis runs are as the request says, by workers and helpers that pass this gate.
fn set_desk(
    alloc: Global,
    request: Request,
    thread: usize,
    gate: SharedGate,
    pieces: Pieces,
) -> Desk
    requires workers { 0 < request.workers }
    requires helpers { 0 < request.helpers }
    ensures names { result.session ≡ no_names }
    ensures limits { limits_in result.engine.direct ≡ limits_of request }
{
    Desk {
        engine: engine_of(request, thread, gate),
        session: Session::new(alloc),
        out: LineText::new(alloc),
        pieces,
    }
}

/// Does a line and writes its text, its error line or its stop line.
fn do_line<R: Threads + Wait + Sync, K: Sink>(
    rt: &R,
    alloc: Global,
    desk: &mut Desk,
    sink: &mut K,
    number: u32,
    line: &[u8],
) -> Result<(), Early>
    ensures done { OnOk result ((text : List ℕ) × Line desk.old.session line.now desk.new.session text × Appends (K.taken sink.old) (K.taken sink.new) text) }
    ensures limits { OnOk result (limits_in desk.new.engine.direct ≡ limits_in desk.old.engine.direct) }
    ensures stops { IfErr result (LineStops (K.taken sink.old) (K.taken sink.new) (limits_in desk.old.engine.direct) desk.old.session line.now number) }
    ensures write { result ≡ Err Early.WriteFault → Rose (K.faults sink.old) (K.faults sink.new) }
    ensures later { K.faults sink.old ≤ K.faults sink.new }
{
    desk.out.clear();
    match desk
        .session
        .step(rt, alloc, &mut desk.engine, line, &mut desk.out)
    {
        Ok(Step::Done) => match desk.out.write_to(&mut desk.pieces, sink) {
            Ok(()) => Ok(()),
            Err(_) => Err(Early::WriteFault),
        },
        Ok(Step::Refused(kind)) => Err(refuse(sink, number, Refusal::OfLine(kind))),
        Err(OpStop::Memory) => Err(Early::NoMemory(number)),
        Err(OpStop::Pairs) => Err(stop_at_run(sink, number, &mut desk.engine.direct)),
        Err(OpStop::Degree) => Err(stop_at_run(sink, number, &mut desk.engine.direct)),
        Err(OpStop::Trail(trail)) => Err(stop_at_division(sink, number, trail)),
    }
}

/// Does the lines of a source at a desk at which nothing has a name yet, each as soon as it is read. Its text is written before
/// more is read. The room for the longest line was taken ahead.
fn do_all<R: Threads + Wait + Sync, S: Source, K: Sink>(
    rt: &R,
    alloc: Global,
    desk: &mut Desk,
    lines: &mut Lines,
    line: &mut Vec<u8>,
    source: &mut S,
    sink: &mut K,
) -> Result<(), Early>
    requires names { desk.old.session ≡ no_names }
    requires lines { lines.old ≡ record { held = []; room = SCRIPT_LIMIT; is_open = true } }
    requires line { SCRIPT_LIMIT ≤ vec_capacity line.old }
    ensures done { OnOk result (Meant (S.left source.old) (S.left source.new) (K.taken sink.old) (K.taken sink.new) Done) }
    ensures stops { IfErr result (ScriptStops (S.left source.old) (S.left source.new) (K.taken sink.old) (K.taken sink.new) (limits_in desk.old.engine.direct)) }
    ensures read { result ≡ Err Early.ReadFault → Rose (S.faults source.old) (S.faults source.new) }
    ensures write { result ≡ Err Early.WriteFault → Rose (K.faults sink.old) (K.faults sink.new) }
    ensures begun { result ≡ Err (Early.NoMemory 0) → ⊥ }
    ensures read_later { S.faults source.old ≤ S.faults source.new }
    ensures write_later { K.faults sink.old ≤ K.faults sink.new }
{
    let mut number: u32 = 0;
    loop {
        let next = match lines.next(source, line) {
            Ok(next) => next,
            Err(LinesStop::Fault) => return Err(Early::ReadFault),
            Err(LinesStop::Memory) => return Err(Early::NoMemory(0)),
        };
        match next {
            Next::Line => {
                number += 1;
                match do_line(rt, alloc, desk, sink, number, line) {
                    Ok(()) => {}
                    Err(early) => return Err(early),
                }
            }
            Next::Last => return do_line(rt, alloc, desk, sink, number + 1, line),
            Next::End => return Ok(()),
            Next::Long => return Err(refuse(sink, 0, Refusal::Length)),
        }
    }
}

/// Does the lines of a source, each basis run as the request says, by workers and helpers that pass this gate.
pub fn do_lines<R: Threads + Wait + Sync, S: Source, K: Sink>(
    rt: &R,
    alloc: Global,
    request: Request,
    thread: usize,
    gate: SharedGate,
    source: &mut S,
    sink: &mut K,
) -> Result<(), Early>
    requires workers { 0 < request.workers }
    requires helpers { 0 < request.helpers }
    ensures done { OnOk result (Meant (S.left source.old) (S.left source.new) (K.taken sink.old) (K.taken sink.new) Done) }
    ensures stops { IfErr result (ScriptStops (S.left source.old) (S.left source.new) (K.taken sink.old) (K.taken sink.new) (limits_of request)) }
    ensures read { result ≡ Err Early.ReadFault → Rose (S.faults source.old) (S.faults source.new) }
    ensures write { result ≡ Err Early.WriteFault → Rose (K.faults sink.old) (K.faults sink.new) }
    ensures begun { result ≡ Err (Early.NoMemory 0) → (source.new ≡ source.old) × (sink.new ≡ sink.old) }
    ensures read_later { S.faults source.old ≤ S.faults source.new }
    ensures write_later { K.faults sink.old ≤ K.faults sink.new }
{
    let mut lines = match Lines::new(alloc, SCRIPT_LIMIT) {
        Ok(lines) => lines,
        Err(_) => return Err(Early::NoMemory(0)),
    };
    let mut line = match Vec::with_capacity(alloc, SCRIPT_LIMIT) {
        Ok(line) => line,
        Err(_) => return Err(Early::NoMemory(0)),
    };
    let pieces = match Pieces::new(alloc) {
        Ok(pieces) => pieces,
        Err(_) => return Err(Early::NoMemory(0)),
    };
    let mut desk = set_desk(alloc, request, thread, gate, pieces);
    let result = do_all(rt, alloc, &mut desk, &mut lines, &mut line, source, sink);
    drop(desk);
    result
}
