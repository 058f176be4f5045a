//! The program: its words, standard input and standard output, handed to the call that does all the
//! work. It ends with the status of the run: 0 all done, 1 a refusal, 2 wrong words, 3 a failed read,
//! 4 a failed write, 5 want of memory, 6 a basis run met its budget of pairs, 7 a product of degree
//! above 65,535, by the ring's weights, was needed.
#![tactic(auto)]

use byte_ports::{StdSink, StdSource};
use session_top::run;
use std::alloc::{AllocError, Global};
use std::env::{Env, FillError};
use std::io;
use std::process::ExitCode;
use worker_gate::OpenGate;

/// The text of these bytes; the empty text where they are not UTF-8.
fn text_of(alloc: Global, bytes: Vec<u8>) -> String {
    match String::from_utf8(bytes) {
        Ok(text) => text,
        Err(_) => String::new(alloc),
    }
}

/// The word with this number, counted from 0, if it has at most so many bytes.
fn word_within<E: Env>(
    env: &E,
    alloc: Global,
    i: usize,
    room: usize,
) -> Result<Result<String, FillError>, AllocError> {
    let mut bytes = Vec::new(alloc);
    bytes.resize(room, 0u8)?;
    match env.arg(i, &mut bytes) {
        Ok(len) => {
            bytes.truncate(len);
            Ok(Ok(text_of(alloc, bytes)))
        }
        Err(error) => Ok(Err(error)),
    }
}

/// The word with this number, counted from 0, or `None` behind the last one. A word that is not UTF-8
/// becomes the empty word.
fn word_at<E: Env>(env: &E, alloc: Global, i: usize) -> Result<Option<String>, AllocError> {
    let mut room = 256usize;
    for _ in 0..usize::BITS {
        match word_within(env, alloc, i, room)? {
            Ok(word) => return Ok(Some(word)),
            Err(FillError::NotPresent) => return Ok(None),
            Err(FillError::TooLong) => room = room.saturating_mul(2),
        }
    }
    Err(AllocError)
}

/// The words of the command, the program's name first.
fn words_of<E: Env>(env: &E, alloc: Global) -> Result<Vec<String>, AllocError> {
    let mut words = Vec::new(alloc);
    for i in 0..usize::MAX {
        match word_at(env, alloc, i)? {
            Some(word) => words.push(word)?,
            None => break,
        }
    }
    Ok(words)
}

fn main(rt: HostRuntime) -> ExitCode {
    let alloc = rt.alloc();
    let Ok(words) = words_of(&rt, alloc) else {
        return ExitCode::from(5);
    };
    let mut source = StdSource::new(rt.reader());
    let mut sink = StdSink::new(io::writer(&rt));
    let ended = run(&rt, alloc, &words, &mut source, &mut sink, &OpenGate);
    ExitCode::from(ended.status)
}
