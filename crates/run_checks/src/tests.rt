// Runs over ports in memory: faults in mid-stream, what is kept of a stop, and a gate that workers pass.
use basis_core::BasisState;
use byte_ports::{MemSink, MemSource};
use command_words::read_words;
use module_vectors::{KeptTrail, TrailStart};
use session_top::{Ended, run, run_request};
use std::alloc::Global;
use std::sync::Wait;
use std::test::Fail;
use std::thread::Threads;
use worker_gate::{Gate, HeldGate, OpenGate, Point};

/// What is told of a trail: its start, how many generators, members and products it has, and the two degrees at its end.
type TrailTold = (&'static str, usize, usize, usize, u128, u128);

/// What is told of an ending: of a kept state its budget, and how many pairs are taken and queued.
#[derive(Clone, Copy, Debug, PartialEq, Eq)]
struct Told {
    status: u8,
    line: u32,
    state: Option<(u64, u64, usize)>,
    trail: Option<TrailTold>,
}

/// Words, a script, the ports and what is told of the run. Behind the script stand so many blanks, and then the tail. Each call
/// of a port moves so many bytes at most. The calls with these numbers fail, which count from 1.
#[derive(Clone, Copy)]
struct Case {
    words: &'static str,
    script: &'static str,
    blanks: usize,
    tail: &'static str,
    piece: usize,
    failing_read: u64,
    failing_write: u64,
    text: &'static str,
    told: Told,
}

/// An ending of which nothing is kept.
fn plain(status: u8, line: u32) -> Told {
    Told {
        status,
        line,
        state: None,
        trail: None,
    }
}

/// A stop at the third line by a budget of one pair, of which one is taken and one is queued.
fn budget_stop() -> Told {
    Told {
        status: 6,
        line: 3,
        state: Some((1, 1, 1)),
        trail: None,
    }
}

/// A stop at this line by a degree.
fn degree_stop(line: u32, state: Option<(u64, u64, usize)>, trail: TrailTold) -> Told {
    Told {
        status: 7,
        line,
        state,
        trail: Some(trail),
    }
}

/// A run over wide ports of which no call fails.
fn calm(words: &'static str, script: &'static str, text: &'static str, told: Told) -> Case {
    Case {
        words,
        script,
        blanks: 0,
        tail: "",
        piece: 5000,
        failing_read: 0,
        failing_write: 0,
        text,
        told,
    }
}

/// A run over ports that move a byte at a time, and of which these calls fail.
fn faulty(script: &'static str, read: u64, write: u64, text: &'static str, told: Told) -> Case {
    Case {
        words: "p run --pairs 1",
        script,
        blanks: 0,
        tail: "",
        piece: 1,
        failing_read: read,
        failing_write: write,
        text,
        told,
    }
}

/// A run over ports that move so many bytes at a time, and of which this read fails.
fn cut_off(script: &'static str, piece: usize, read: u64, text: &'static str, told: Told) -> Case {
    Case {
        words: "p run",
        script,
        blanks: 0,
        tail: "",
        piece,
        failing_read: read,
        failing_write: 0,
        text,
        told,
    }
}

/// A run of a long script: 19 bytes, so many blanks, and the tail.
fn long(blanks: usize, tail: &'static str, text: &'static str, told: Told) -> Case {
    Case {
        words: "p run",
        script: "ring 5 x lex\nshow x",
        blanks,
        tail,
        piece: 5000,
        failing_read: 0,
        failing_write: 0,
        text,
        told,
    }
}

/// A script of 35 bytes, whose text has 19. Its lines end at bytes 13, 20, 29 and 35.
const LINES: &str = "ring 7 x lex\nshow x\nshow x+1\nshow y";

/// A script of 20 bytes.
const SHOW: &str = "ring 5 x lex\nshow x\n";

const BASIS: &str = "ring 101 x,y grevlex\nideal I = x^2+y, x*y\ngb I\n";

/// How many cases there are.
const CASES: usize = 25;

/// Each case by its number: words that are not of the form; a script without a fault that is met, with a read that fails, with
/// a write that fails, and with one that fails within the stop line; a run that meets its budget; each kind of stop by a
/// degree: in a run where a tail is divided, in one where a pair is worked on, before a run has a state, in a division, and in
/// a division by weights; reads that fail behind whole lines; and scripts of as many bytes as count, and of one more, with a
/// newline at the last byte that counts, and with one behind it.
fn case_of(number: usize) -> Case {
    match number {
        0 => calm("p", "", "error words\n", plain(2, 0)),
        1 => calm("p large x", "", "error words\n", plain(2, 0)),
        2 => faulty(LINES, 37, 20, "x\nx+1\nerror 4 name\n", plain(1, 4)),
        3 => faulty(LINES, 1, 20, "", plain(3, 0)),
        4 => faulty(LINES, 36, 20, "x\nx+1\n", plain(3, 0)),
        5 => faulty(LINES, 37, 1, "", plain(4, 0)),
        6 => faulty(LINES, 37, 3, "x\n", plain(4, 0)),
        7 => faulty(LINES, 37, 19, "x\nx+1\nerror 4 name", plain(4, 0)),
        8 => faulty(BASIS, 0, 5, "stop", plain(4, 0)),
        9 => calm(
            "p run --pairs 1",
            BASIS,
            "stop pairs 1 queued 1\n",
            budget_stop(),
        ),
        10 => calm(
            "p run --pairs 9",
            "ring 101 a,b,c lex\nideal D = a-b^1000, b-c^1000\ngb D\n",
            "stop degree 65935\n",
            degree_stop(3, Some((9, 0, 0)), ("term", 2, 2, 65, 64935, 1000)),
        ),
        11 => calm(
            "p run --pairs 5",
            "ring 101 a,b,c lex\nideal H = b^2-c^1000, a*b-b^999\ngb H\n",
            "stop degree 65870\n",
            degree_stop(3, Some((5, 1, 0)), ("pair", 2, 2, 67, 64870, 1000)),
        ),
        12 => calm(
            "p run",
            "ring 101 b,c lex\nideal G = b-c^1000, b^1000\n\ngb G\n",
            "stop degree 65935\n",
            degree_stop(4, None, ("term", 2, 1, 65, 64935, 1000)),
        ),
        13 => calm(
            "p run",
            "ring 101 b,c lex\nideal D = b-c^1000\ngb D\nnf D b^1000\n",
            "gb D 1\nb+100*c^1000\nstop degree 65935\n",
            degree_stop(4, None, ("term", 0, 1, 65, 64935, 1000)),
        ),
        14 => calm(
            "p run",
            "ring 101 b,c lex weights 1,200\nideal D = b-c^5\ngb D\nnf D b^1000\n",
            "gb D 1\nb+100*c^5\nstop degree 65935\n",
            degree_stop(4, None, ("term", 0, 1, 65, 64935, 1000)),
        ),
        15 => cut_off(SHOW, 20, 2, "x\n", plain(3, 0)),
        16 => cut_off(SHOW, 1, 0, "x\n", plain(0, 0)),
        17 => cut_off(LINES, 1, 20, "", plain(3, 0)),
        18 => cut_off(LINES, 1, 21, "x\n", plain(3, 0)),
        19 => cut_off(LINES, 25, 2, "x\n", plain(3, 0)),
        20 => cut_off("", 1, 1, "", plain(3, 0)),
        21 => long(1_048_557, "", "x\n", plain(0, 0)),
        22 => long(1_048_558, "", "error 0 length\n", plain(1, 0)),
        23 => long(1_048_556, "\nshow x+1", "x\nerror 0 length\n", plain(1, 0)),
        _ => long(1_048_557, "\nshow x+1", "error 0 length\n", plain(1, 0)),
    }
}

fn told_of_state(state: &BasisState) -> (u64, u64, usize) {
    (state.budget(), state.taken(), state.queued().len())
}

fn told_of_trail(trail: &KeptTrail) -> TrailTold {
    let start = match trail.start {
        TrailStart::Pair(_, _) => "pair",
        TrailStart::Term => "term",
        TrailStart::Product => "product",
    };
    let before = match trail.products.last() {
        Some(step) => step.1.degree(),
        None => 0,
    };
    (
        start,
        trail.generators.len(),
        trail.members.len(),
        trail.products.len(),
        before,
        trail.last.degree(),
    )
}

fn told_of(ended: &Ended) -> Told {
    Told {
        status: ended.status,
        line: ended.line,
        state: ended.kept.as_ref().map(told_of_state),
        trail: ended.trail.as_ref().map(told_of_trail),
    }
}

fn words_of(alloc: Global, case: &Case) -> Result<Vec<String>, Fail> {
    let mut words = Vec::new(alloc);
    for word in case.words.split(' ') {
        words.push(String::from_str(alloc, word)?)?;
    }
    Ok(words)
}

fn source_of(alloc: Global, case: &Case) -> Result<MemSource, Fail> {
    let failing = [case.failing_read].to_vec(alloc)?;
    let mut script = case.script.as_bytes().to_vec(alloc)?;
    for _ in 0..case.blanks {
        script.push(b' ')?;
    }
    script.extend_from_slice(case.tail.as_bytes())?;
    Ok(MemSource::new(script, case.piece.max(1), failing))
}

fn sink_of(alloc: Global, case: &Case) -> Result<MemSink, Fail> {
    let failing = [case.failing_write].to_vec(alloc)?;
    Ok(MemSink::new(alloc, 1000, case.piece.max(1), failing)?)
}

/// Runs a script over these ports.
fn run_over<R: Threads + Wait + Sync, G: Gate + Sync>(
    rt: &R,
    alloc: Global,
    words: &[String],
    source: &mut MemSource,
    sink: &mut MemSink,
    gate: &G,
) -> Told {
    told_of(&run(rt, alloc, words, source, sink, gate))
}

/// Runs a case over its ports: what it writes into the sink, and what is told of its ending.
fn run_into<R: Threads + Wait + Sync, G: Gate + Sync>(
    rt: &R,
    alloc: Global,
    case: &Case,
    sink: &mut MemSink,
    gate: &G,
) -> Result<Told, Fail> {
    let words = words_of(alloc, case)?;
    let mut source = source_of(alloc, case)?;
    Ok(run_over(rt, alloc, &words, &mut source, sink, gate))
}

/// Runs a case. Is its text written, and what is told of its ending?
fn run_case<R: Threads + Wait + Sync, G: Gate + Sync>(
    rt: &R,
    alloc: Global,
    case: &Case,
    gate: &G,
) -> Result<(bool, Told), Fail> {
    let mut sink = sink_of(alloc, case)?;
    let told = run_into(rt, alloc, case, &mut sink, gate)?;
    Ok((sink.bytes() == case.text.as_bytes(), told))
}

/// The number of the first case that has another text or another ending.
fn first_other<R: Threads + Wait + Sync>(rt: &R, alloc: Global) -> Result<Option<usize>, Fail> {
    for number in 0..CASES {
        let case = case_of(number);
        let (is_written, told) = run_case(rt, alloc, &case, &OpenGate)?;
        if !is_written || told != case.told {
            return Ok(Some(number));
        }
    }
    Ok(None)
}

/// The text of the basis, of 21 bytes.
const TEXT: &str = "gb I 3\nx^2+y\nx*y\ny^2\n";

/// A run on the basis over ports that move a byte at a time, where these calls fail: how many bytes of its text are written, and
/// its status. Other bytes than those of the text count as too many.
fn ending_at<R: Threads + Wait + Sync>(
    rt: &R,
    alloc: Global,
    read: u64,
    write: u64,
) -> Result<(usize, u8), Fail> {
    let mut case = faulty(BASIS, read, write, TEXT, plain(0, 0));
    case.words = "p run";
    let mut sink = sink_of(alloc, &case)?;
    let told = run_into(rt, alloc, &case, &mut sink, &OpenGate)?;
    if TEXT.as_bytes().starts_with(sink.bytes()) {
        Ok((sink.bytes().len(), told.status))
    } else {
        Ok((usize::MAX, told.status))
    }
}

/// The first call whose failing read ends otherwise: nothing is written before the last line is whole, and all of it then.
fn first_wrong_read<R: Threads + Wait + Sync>(rt: &R, alloc: Global) -> Result<Option<u64>, Fail> {
    for call in 1..=49 {
        let wanted = match call {
            49 => (21, 0),
            48 => (21, 3),
            _ => (0, 3),
        };
        if ending_at(rt, alloc, call, 0)? != wanted {
            return Ok(Some(call));
        }
    }
    Ok(None)
}

/// The first call whose failing write ends otherwise: the bytes before it are written.
fn first_wrong_write<R: Threads + Wait + Sync>(rt: &R, alloc: Global) -> Result<Option<u64>, Fail> {
    for before in 0..22 {
        let wanted = if before == 21 { (21, 0) } else { (before, 4) };
        let call = before as u64 + 1;
        if ending_at(rt, alloc, 0, call)? != wanted {
            return Ok(Some(call));
        }
    }
    Ok(None)
}

#[test]
fn each_call_of_a_port_may_fail(rt: HostRuntime) -> Result<(), Fail> {
    assert_eq!(rt; first_wrong_read(&rt, rt.alloc())?, None);
    assert_eq!(rt; first_wrong_write(&rt, rt.alloc())?, None);
    Ok(())
}

#[test]
fn runs_are_told(rt: HostRuntime) -> Result<(), Fail> {
    assert_eq!(rt; first_other(&rt, rt.alloc())?, None);
    Ok(())
}

/// Runs a case with a thread for each addition of a pass, so that helpers share the smallest rows. Is its text written, and what is
/// told of its ending?
fn run_shared<R: Threads + Wait + Sync, G: Gate>(
    rt: &R,
    alloc: Global,
    case: &Case,
    gate: &G,
) -> Result<(bool, Told), Fail> {
    let words = words_of(alloc, case)?;
    let mut source = source_of(alloc, case)?;
    let mut sink = sink_of(alloc, case)?;
    let Ok(request) = read_words(alloc, &words) else {
        return Ok((false, plain(2, 0)));
    };
    let told = told_of(&run_request(rt, alloc, request, 0, gate.shared(), &mut source, &mut sink));
    Ok((sink.bytes() == case.text.as_bytes(), told))
}

/// Is a script run as told under a gate that holds the first at this point, and does another come by there?
fn is_met<R: Threads + Wait + Sync>(
    rt: &R,
    alloc: Global,
    point: Point,
    case: &Case,
) -> Result<bool, Fail> {
    let gate = HeldGate::new(alloc, point)?;
    let (is_written, told) = run_case(rt, alloc, case, &gate)?;
    Ok(is_written && told == case.told && gate.met() && !gate.ran_out())
}

/// The first of two workers that has taken a pair waits until the other has taken one.
#[test]
fn workers_pass_the_gate(rt: HostRuntime) -> Result<(), Fail> {
    let case = calm(
        "p run --workers 2",
        "ring 101 x,y grevlex\nideal T = x^2, x*y, y^2\nsize T\n",
        "size T 3\n2 3\n",
        plain(0, 0),
    );
    assert!(rt; is_met(&rt, rt.alloc(), Point::JobTaken, &case)?);
    Ok(())
}

/// The first of two helpers that has claimed the lead column of a row waits until the other has claimed one.
#[test]
fn helpers_pass_the_gate(rt: HostRuntime) -> Result<(), Fail> {
    let case = calm("p run --workers 1 --helpers 2", BASIS, TEXT, plain(0, 0));
    let gate = HeldGate::new(rt.alloc(), Point::RowClaimed)?;
    let (is_written, told) = run_shared(&rt, rt.alloc(), &case, &gate)?;
    assert!(rt; is_written);
    assert!(rt; told == case.told);
    assert!(rt; gate.met());
    assert!(rt; !gate.ran_out());
    Ok(())
}

/// A module of which matrices have work for two helpers: passes with millions of additions.
const LARGE: &str =
    "ring 32003 a,b,c,d,e grevlex\nmodule N 2 = [(a+b+c+d+e)^3,(a-b)^3], [(b+2*c)^3,(c+d-3*e)^3], [(a+d)^3,(b+4*e)^3], [(2*a-e)^3,(b-c+d)^3]\nsize N\n";

/// Its text.
const LARGE_TEXT: &str = "size N 48\n3 4\n4 3\n5 6\n6 11\n7 8\n8 8\n9 5\n10 3\n";

/// Do two helpers of a matrix claim columns, by the program's own numbers, under a gate that holds nobody? None where the text is
/// another.
fn two_claim<R: Threads + Wait + Sync>(
    rt: &R,
    alloc: Global,
    words: &'static str,
) -> Result<Option<bool>, Fail> {
    let case = calm(words, LARGE, LARGE_TEXT, plain(0, 0));
    let gate = HeldGate::for_turns(alloc, Point::RowClaimed, 0)?;
    let (is_written, told) = run_case(rt, alloc, &case, &gate)?;
    if is_written && told == case.told {
        Ok(Some(gate.met()))
    } else {
        Ok(None)
    }
}

/// A matrix with enough work has both helpers, and with `--helpers 1` one alone, however many workers there are.
#[test]
fn helpers_share_a_large_matrix(rt: HostRuntime) -> Result<(), Fail> {
    assert_eq!(rt;
        two_claim(&rt, rt.alloc(), "p run --workers 1 --helpers 2")?,
        Some(true)
    );
    assert_eq!(rt;
        two_claim(&rt, rt.alloc(), "p run --workers 1 --helpers 1")?,
        Some(false)
    );
    assert_eq!(rt;
        two_claim(&rt, rt.alloc(), "p run --workers 2 --helpers 1")?,
        Some(false)
    );
    Ok(())
}

/// The first words with which the basis has another text or another ending, where helpers share the smallest rows.
fn first_other_words<R: Threads + Wait + Sync>(
    rt: &R,
    alloc: Global,
) -> Result<Option<&'static str>, Fail> {
    for words in [
        "p run --workers 1 --helpers 1",
        "p run --workers 1 --helpers 2",
        "p run --workers 1 --helpers 16",
        "p run --workers 2 --helpers 2",
    ] {
        let case = calm(words, BASIS, TEXT, plain(0, 0));
        let (is_written, told) = run_shared(rt, alloc, &case, &OpenGate)?;
        if !is_written || told != case.told {
            return Ok(Some(words));
        }
    }
    Ok(None)
}

#[test]
fn helpers_change_no_text(rt: HostRuntime) -> Result<(), Fail> {
    assert_eq!(rt; first_other_words(&rt, rt.alloc())?, None);
    Ok(())
}
