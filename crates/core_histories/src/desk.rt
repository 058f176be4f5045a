// What the lines of the input do.
use crate::described::{write_state, write_turn};
use crate::driving::{busy, drive};
use crate::matrices::compare_jobs;
use crate::play::{Play, begin};
use crate::sizes::{measure_jobs, solve_jobs};
use check_texts::Sheet;
use queue_updates::Update;
use std::alloc::Global;
use std::mem::replace;
use std::thread::Threads;

/// The texts of a ring and of its generators, each behind the one before and a `;`, the rank, how many helpers reduce a matrix,
/// and what is queued as members come.
#[derive(Drop)]
pub struct Input {
    pub ring: String,
    pub rank: u128,
    pub generators: String,
    pub helpers: u32,
    pub update: Update,
}

/// What is kept from line to line.
#[derive(Drop)]
pub struct Desk {
    input: Input,
    play: Option<Play>,
}

// The numbers of a line; 0 for each that is not there.
fn numbers_of(text: &str) -> (u64, u64) {
    let (first, second) = text.split_once(' ').unwrap_or((text, ""));
    (
        first.parse::<u64>().unwrap_or(0),
        second.parse::<u64>().unwrap_or(0),
    )
}

fn small(n: u64) -> u32 {
    u32::try_from(n).unwrap_or(u32::MAX)
}

// Writes a text behind what is there; no text where there is no memory.
fn set(text: &mut String, more: &str) {
    if text.push_str(more).is_err() {
        text.clear();
    }
}

fn write_begun(alloc: Global, sheet: &mut Sheet, play: &Option<Play>) {
    if let Some(play) = play {
        write_state(alloc, sheet, play.state());
    }
}

impl Input {
    // `ring P VARIABLE{,VARIABLE} ORDER`
    fn set_ring(&mut self, text: &str) {
        self.ring.clear();
        set(&mut self.ring, text);
        self.rank = 1;
        self.generators.clear();
    }

    // `generator VECTOR`
    fn add_generator(&mut self, text: &str) {
        if !self.generators.is_empty() {
            set(&mut self.generators, ";");
        }
        set(&mut self.generators, text);
    }
}

impl Desk {
    /// No ring is stated.
    pub fn new(alloc: Global) -> Desk {
        Desk {
            input: Input {
                ring: String::new(alloc),
                rank: 1,
                generators: String::new(alloc),
                helpers: 1,
                update: Update::Plain,
            },
            play: None,
        }
    }

    // `begin WORKERS BUDGET`
    fn begin(&mut self, alloc: Global, sheet: &mut Sheet, text: &str) {
        let (workers, budget) = numbers_of(text);
        let play = begin(alloc, sheet, &self.input, budget, small(workers), None);
        write_begun(alloc, sheet, &play);
        drop(replace(&mut self.play, play));
    }

    // `take WORKER MOST`, `put WORKER`, `end WORKER`, `stop WORKER`
    fn event<R: Threads + Sync>(
        &mut self,
        rt: &R,
        alloc: Global,
        sheet: &mut Sheet,
        word: &str,
        text: &str,
    ) {
        let (worker, most) = numbers_of(text);
        let worker = small(worker);
        let Some(play) = &mut self.play else {
            return;
        };
        let turn = match word {
            "take" => play.take(rt, alloc, worker, most),
            "put" => play.put(alloc, worker),
            "end" => play.end(worker),
            "stop" => play.stop(worker),
            _ => return,
        };
        write_turn(sheet, play, worker, turn);
        write_state(alloc, sheet, play.state());
    }

    // `busy TAKES PUTS`
    fn busy<R: Threads + Sync>(&self, rt: &R, alloc: Global, sheet: &mut Sheet, text: &str) {
        let (takes, puts) = numbers_of(text);
        busy(rt, alloc, sheet, &self.input, small(takes), small(puts));
    }

    // `jobs COUNT MOST`
    fn jobs<R: Threads + Sync>(&self, rt: &R, alloc: Global, sheet: &mut Sheet, text: &str) {
        let (count, most) = numbers_of(text);
        compare_jobs(rt, alloc, sheet, &self.input, small(count), most);
    }

    // `solve COUNT MOST`, `divide COUNT MOST`, `sizes COUNT MOST`
    fn one_way<R: Threads + Sync>(
        &self,
        rt: &R,
        alloc: Global,
        sheet: &mut Sheet,
        word: &str,
        text: &str,
    ) {
        let (count, most) = numbers_of(text);
        let input = &self.input;
        match word {
            "sizes" => measure_jobs(rt, alloc, sheet, input, small(count), most),
            "solve" => solve_jobs(
                rt,
                alloc,
                sheet,
                input,
                small(count),
                most,
                Some(input.helpers),
            ),
            _ => solve_jobs(rt, alloc, sheet, input, small(count), most, None),
        }
    }

    /// Does a line, and writes it with what it answers.
    pub fn line<R: Threads + Sync>(
        &mut self,
        rt: &R,
        alloc: Global,
        sheet: &mut Sheet,
        line: &str,
    ) {
        sheet.text(line);
        sheet.text("\n");
        let (word, text) = line.split_once(' ').unwrap_or((line, ""));
        match word {
            "ring" => self.input.set_ring(text),
            "rank" => self.input.rank = u128::from(numbers_of(text).0),
            "helpers" => self.input.helpers = small(numbers_of(text).0),
            "update" => {
                self.input.update = match numbers_of(text).0 {
                    0 => Update::Plain,
                    _ => Update::Gebauer,
                }
            }
            "generator" => self.input.add_generator(text),
            "begin" => self.begin(alloc, sheet, text),
            "drive" => drive(rt, alloc, sheet, &self.input),
            "jobs" => self.jobs(rt, alloc, sheet, text),
            "busy" => self.busy(rt, alloc, sheet, text),
            "solve" | "divide" | "sizes" => self.one_way(rt, alloc, sheet, word, text),
            _ => self.event(rt, alloc, sheet, word, text),
        }
    }
}
