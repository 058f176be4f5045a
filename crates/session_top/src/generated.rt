// The generated script, done as one that is read.
ghost use Rattle.std.specs.Prelude.{◌≡◌, ◌<◌, ◌≤◌, [], Some, IfErr, OnOk, Err};
ghost use Rattle.risen_counts.specs.Counts.{Rose};
ghost use Rattle.large_script.specs.Script.{script_of};
ghost use Rattle.session_top.specs.Limits.{limits_of};
ghost use Rattle.session_top.specs.Meaning.{Done};
ghost use Rattle.session_top.specs.Run.{Meant, ScriptStops};

use crate::early::Early;
use crate::lines::do_lines;
use byte_ports::{Sink, SureSource};
use command_words::Request;
use large_script::large_script;
use std::alloc::Global;
use std::sync::Wait;
use std::thread::Threads;
use worker_gate::SharedGate;

/// Does the lines of the generated script of a seed, which is read from memory, each basis run as the request says, by workers
/// and helpers that pass this gate.
pub fn do_generated<R: Threads + Wait + Sync, K: Sink>(
    rt: &R,
    alloc: Global,
    request: Request,
    thread: usize,
    gate: SharedGate,
    seed: u32,
    sink: &mut K,
) -> Result<(), Early>
    requires workers { 0 < request.workers }
    requires helpers { 0 < request.helpers }
    ensures done { OnOk result (Meant (Some (script_of seed)) (Some []) (K.taken sink.old) (K.taken sink.new) Done) }
    ensures stops { IfErr result (ScriptStops (Some (script_of seed)) (Some []) (K.taken sink.old) (K.taken sink.new) (limits_of request)) }
    ensures read { result ≡ Err Early.ReadFault → ⊥ }
    ensures write { result ≡ Err Early.WriteFault → Rose (K.faults sink.old) (K.faults sink.new) }
    ensures begun { result ≡ Err (Early.NoMemory 0) → sink.new ≡ sink.old }
    ensures later { K.faults sink.old ≤ K.faults sink.new }
{
    let script = match large_script(alloc, seed) {
        Ok(script) => script,
        Err(_) => return Err(Early::NoMemory(0)),
    };
    let mut source = SureSource::new(script, usize::MAX);
    do_lines(rt, alloc, request, thread, gate, &mut source, sink)
}
