// The run of a script: from the bytes of a source to the bytes of a sink.
ghost use Rattle.std.specs.Prelude.{◌≡◌, ◌<◌, ◌≤◌, map, string_bytes, Err, IfErr, OnOk};
ghost use Rattle.risen_counts.specs.Counts.{Rose};
ghost use Rattle.command_words.specs.declared.words.Command.TheVariants.{Run};
ghost use Rattle.session_top.specs.Limits.{limits_of};
ghost use Rattle.session_top.specs.Meaning.{Done};
ghost use Rattle.session_top.specs.Parts.{ended_as};
ghost use Rattle.session_top.specs.Run.{Meant, ScriptStops};
ghost use Rattle.session_top.specs.Scripts.{script_before, script_behind};
ghost use Rattle.session_top.specs.Told.{RunTold, ScriptTold, plain};

use crate::early::Early;
use crate::generated::do_generated;
use crate::lines::do_lines;
use basis_core::BasisState;
use byte_ports::{Sink, Source, write_all_to};
use command_words::{Command, Request, WordStop, read_words};
use module_vectors::KeptTrail;
use session_lang::one_result;
use std::alloc::Global;
use std::sync::Wait;
use std::thread::Threads;
use worker_gate::{Gate, SharedGate};

// So many additions take about a millisecond, which is worth a thread.
const THREAD: usize = 1_000_000;

/// How a run ended.
pub struct Ended {
    /// 0: all lines were done and, of a script that is read, the input was read to its end. 1: a line was refused, or the script
    /// is too long. 2: the words are not of the form. 3: a read failed. 4: a write failed. 5: memory
    /// ran out. 6: a basis run met its budget of pairs. 7: a product of degree above 65,535, by the
    /// ring's weights, was needed.
    pub status: u8,

    /// The line that was refused (0 for the length of the script) or that stopped, or under status 5
    /// the line that was being done (0 where none had begun); else 0.
    pub line: u32,

    /// Under status 6 the state of the run that met its budget; under 7 that of the run in which the
    /// product was met, if it had begun.
    pub kept: Option<BasisState>,

    /// Under status 7 how the product was met.
    pub trail: Option<KeptTrail>,
}

// By hand, so that each drop of one is a call.
impl Drop for Ended {
    fn drop(self) {
        let Ended {
            status: _,
            line: _,
            kept: _,
            trail: _,
        } = self;
    }
}

/// An ending with this status and line, of which nothing is kept.
fn plain_ending(status: u8, line: u32) -> Ended
    ensures { result ≡ plain status line }
{
    Ended {
        status,
        line,
        kept: None,
        trail: None,
    }
}

/// How a run of a script is told.
fn ending_of(run: Result<(), Early>) -> Ended
    ensures { result ≡ ended_as run }
{
    match run {
        Ok(()) => plain_ending(0, 0),
        Err(Early::Refused(line)) => plain_ending(1, line),
        Err(Early::ReadFault) => plain_ending(3, 0),
        Err(Early::WriteFault) => plain_ending(4, 0),
        Err(Early::NoMemory(line)) => plain_ending(5, line),
        Err(Early::Stopped(line, kept)) => {
            let (kept, trail) = kept.into_parts();
            Ended {
                status: if trail.is_some() { 7 } else { 6 },
                line,
                kept,
                trail,
            }
        }
    }
}

/// Runs the script of the request, each basis run as it says, by workers and helpers that pass this gate.
fn run_script<R: Threads + Wait + Sync, S: Source, K: Sink>(
    rt: &R,
    alloc: Global,
    request: Request,
    thread: usize,
    gate: SharedGate,
    source: &mut S,
    sink: &mut K,
) -> Result<(), Early>
    requires workers { 0 < request.workers }
    requires helpers { 0 < request.helpers }
    ensures done { OnOk result (Meant (script_before request.command (S.left source.old)) (script_behind request.command (S.left source.new))
        (K.taken sink.old) (K.taken sink.new) Done) }
    ensures stops { IfErr result (ScriptStops (script_before request.command (S.left source.old)) (script_behind request.command (S.left source.new))
        (K.taken sink.old) (K.taken sink.new) (limits_of request)) }
    ensures read { result ≡ Err Early.ReadFault → Rose (S.faults source.old) (S.faults source.new) }
    ensures write { result ≡ Err Early.WriteFault → Rose (K.faults sink.old) (K.faults sink.new) }
    ensures unread { (request.command ≡ Run → ⊥) → source.new ≡ source.old }
    ensures begun { result ≡ Err (Early.NoMemory 0) → (source.new ≡ source.old) × (sink.new ≡ sink.old) }
    ensures read_later { S.faults source.old ≤ S.faults source.new }
    ensures write_later { K.faults sink.old ≤ K.faults sink.new }
{
    match request.command {
        Command::Run => do_lines(rt, alloc, request, thread, gate, source, sink),
        Command::Large(seed) => do_generated(rt, alloc, request, thread, gate, seed, sink),
    }
}

/// Does what a request asks for, as `run` does after the words, and tells how it ended: a pass over the rows of a matrix has one
/// helper more for each `thread` additions, up to the request's number.
pub fn run_request<R: Threads + Wait + Sync, S: Source, K: Sink>(
    rt: &R,
    alloc: Global,
    request: Request,
    thread: usize,
    gate: SharedGate,
    source: &mut S,
    sink: &mut K,
) -> Ended
    requires workers { 0 < request.workers }
    requires helpers { 0 < request.helpers }
    ensures told { ScriptTold (script_before request.command (S.left source.old)) (script_behind request.command (S.left source.new))
        (K.taken sink.old) (K.taken sink.new) (limits_of request) result }
    ensures read { result.status ≡ 3 → Rose (S.faults source.old) (S.faults source.new) }
    ensures write { result.status ≡ 4 → Rose (K.faults sink.old) (K.faults sink.new) }
    ensures unread { (request.command ≡ Run → ⊥) → source.new ≡ source.old }
    ensures begun { result.status ≡ 5 → result.line ≡ 0 → (source.new ≡ source.old) × (sink.new ≡ sink.old) }
{
    // A script has one meaning, because each line has one result.
    one_result();
    ending_of(run_script(rt, alloc, request, thread, gate, source, sink))
}

/// Runs the script that the source gives, or with the command `large` the generated script of its seed, as the words ask, and
/// writes its text into the sink.
///
/// Each line is done as soon as its newline is read, and its text is written before more is read; so after a read that failed the
/// text of each line that was whole is there. The bytes behind the last newline are a line once the input is at its end. A refused
/// line writes its error line, and one that stops its stop line, and both end the run. Words that are not of the form write `error
/// words`, and nothing is read then; nor is anything read with `large`. Basis runs take as many pairs each as the words say, by as
/// many workers, which pass the gate with each job, and as many helpers for a job, which pass it with each row that they claim.
pub fn run<R: Threads + Wait + Sync, S: Source, K: Sink, G: Gate + Sync>(
    rt: &R,
    alloc: Global,
    words: &[String],
    source: &mut S,
    sink: &mut K,
    gate: &G,
) -> Ended
    ensures { RunTold (map string_bytes words.now)
        (record {
          source = source.old;
          left = S.left source.old;
          taken = K.taken sink.old;
          read_faults = S.faults source.old;
          write_faults = K.faults sink.old;
        })
        (record {
          source = source.new;
          left = S.left source.new;
          taken = K.taken sink.new;
          read_faults = S.faults source.new;
          write_faults = K.faults sink.new;
        })
        result }
{
    match read_words(alloc, words) {
        Ok(request) => run_request(rt, alloc, request, THREAD, gate.shared(), source, sink),
        Err(WordStop::Memory) => plain_ending(5, 0),
        Err(WordStop::Words) => match write_all_to(sink, b"error words\n") {
            Ok(()) => plain_ending(2, 0),
            Err(_) => plain_ending(4, 0),
        },
    }
}
