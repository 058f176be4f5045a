// The words of the command, read by clap.
ghost use Rattle.std.specs.Prelude.{◌≡◌, ◌≤◌, IfOk, OnOk, Err, codes, map, string_bytes, false};
ghost use Rattle.clap.specs.Matches.{found_of, one_text};
ghost use Rattle.clap.specs.Kinds.{FailsBy};
ghost use Rattle.clap.specs.Faults.{fault_of};
ghost use Rattle.clap.specs.Simple.{app_of, subcommand_rows_of, subcommand_of};
ghost use Rattle.clap.specs.Walk.{rule_of};
ghost use Rattle.clap.specs.declared.builder.command.Command.TheViews.{out-Command};
ghost use Rattle.command_words.specs.Command.{command_named, number_rule, seed_rule, update_numbered, with_options, words_app, IsForm, number_or, request_of, HasSeedWithin};

use clap::builder::ValueParser;
use clap::error::ErrorKind;
use clap::{Arg, ArgAction, ArgMatches, Error};
use queue_updates::Update;
use std::alloc::{AllocError, Global};

/// What the program is to do.
#[derive(Clone, Copy, Debug, PartialEq, Eq)]
pub enum Command {
    /// Run the script that the source gives.
    Run,

    /// Run the script that is generated from this seed, at most 2,147,483,647.
    Large(u32),
}

/// What the words ask for.
#[derive(Clone, Copy, Debug, PartialEq, Eq)]
pub struct Request {
    pub command: Command,

    /// How many workers share the pairs of a basis run, from 1 to 16.
    pub workers: u32,

    /// How many helpers reduce one matrix, from 1 to 16.
    pub helpers: u32,

    /// How many pairs one basis run may take, at most 1,000,000,000.
    pub pairs: u64,

    /// What a basis run queues as members come.
    pub update: Update,
}

/// Why the words gave no request.
#[derive(Clone, Copy, Debug, PartialEq, Eq)]
pub enum WordStop {
    /// Memory ran out.
    Memory,

    /// The words are not of the form.
    Words,
}

/// One option with a number in these bounds, set at most once.
fn number_option<'a>(alloc: Global, name: &'a str, least: u64, most: u64) -> Arg<'a>
    ensures rule { rule_of result ≡ number_rule name.entry.now least most }
    ensures local { result.global ≡ false }
{
    Arg::new(alloc, name)
        .long(name)
        .action(ArgAction::Set)
        .value_parser(ValueParser::Unsigned(least, most))
}

/// The seed: a number at its place, which may not be left out.
fn seed_argument<'a>(alloc: Global) -> Arg<'a>
    ensures rule { rule_of result ≡ seed_rule }
    ensures local { result.global ≡ false }
{
    Arg::new(alloc, "seed")
        .action(ArgAction::Set)
        .value_parser(ValueParser::Unsigned(0, 2_147_483_647))
        .required(true)
}

/// The subcommand with the four options.
fn with_options<'a>(
    alloc: Global,
    command: clap::Command<'a>,
) -> Result<clap::Command<'a>, AllocError>
    requires local { (out-Command command).has_globals ≡ false }
    ensures app { IfOk result (λ r. app_of r ≡ with_options (app_of command.entry)) }
    ensures local { IfOk result (λ r. (out-Command r).has_globals ≡ false) }
{
    let counted = command
        .arg(number_option(alloc, "workers", 1, 16))?
        .arg(number_option(alloc, "helpers", 1, 16))?;
    let whole = counted
        .arg(number_option(alloc, "pairs", 0, 1_000_000_000))?
        .arg(number_option(alloc, "update", 0, 1))?;
    Ok(whole)
}

/// Reads the words after the program's name: `run`, or `large` and its seed, with their options.
fn parse<'a>(alloc: Global, words: &'a [String]) -> Result<ArgMatches<'a>, Error>
    ensures exact { FailsBy (fault_of words_app (map string_bytes words.now)) result }
    ensures matches { IfOk result (λ m. subcommand_rows_of m ≡ subcommand_of words_app (map string_bytes words.now)) }
{
    let run = with_options(alloc, clap::Command::new(alloc, "run"))?;
    let seeded = clap::Command::new(alloc, "large").arg(seed_argument(alloc))?;
    let large = with_options(alloc, seeded)?;
    let command = clap::Command::new(alloc, "groebner")
        .subcommand(run)?
        .subcommand(large)?
        .subcommand_required(true);
    command.try_get_matches_from(words)
}

/// The number of an option, or its default.
fn number_of(matches: &ArgMatches<'_>, id: &str, least: u64, most: u64, default: u64) -> u64
    requires low { least ≤ default }
    requires high { default ≤ most }
    ensures number { result ≡ number_or least most default (one_text (found_of matches.now) id.now) }
    ensures least { least ≤ result }
    ensures most { result ≤ most }
{
    match matches.get_one::<u64>(id) {
        Some(number) if least <= number && number <= most => number,
        _ => default,
    }
}

/// The command that a subcommand asks for.
fn command_of(name: &str, matches: &ArgMatches<'_>) -> Command
    ensures command { result ≡ command_named name.now (one_text (found_of matches.now) (codes "seed")) }
    ensures seed { HasSeedWithin 2147483647 result }
{
    if name == "large" {
        Command::Large(number_of(matches, "seed", 0, 2_147_483_647, 0) as u32)
    } else {
        Command::Run
    }
}

/// The update with this number.
fn update_of(number: u64) -> Update
    ensures { result ≡ update_numbered number }
{
    if number == 0 {
        Update::Plain
    } else {
        Update::Gebauer
    }
}

/// Reads the words: the program's name, which is not looked at, then `run`, or `large` and a seed, with the options
/// `--workers N`, `--helpers N`, `--pairs N` and `--update N`, each set at most once.
///
/// The defaults are two workers, two helpers, 1,000,000 pairs and update 0. `Words` comes only where the words
/// are not of this form, and then no request does; want of memory may come instead of either.
pub fn read_words(alloc: Global, words: &[String]) -> Result<Request, WordStop>
    ensures request { IfOk result (λ request. request ≡ request_of (map string_bytes words.now)) }
    ensures form { OnOk result (IsForm (map string_bytes words.now)) }
    ensures words { result ≡ Err WordStop.Words → IsForm (map string_bytes words.now) → ⊥ }
    ensures seed { IfOk result (λ request. HasSeedWithin 2147483647 request.command) }
    ensures workers { IfOk result (λ request. (1 ≤ request.workers) × (request.workers ≤ 16)) }
    ensures helpers { IfOk result (λ request. (1 ≤ request.helpers) × (request.helpers ≤ 16)) }
    ensures pairs { IfOk result (λ request. request.pairs ≤ 1000000000) }
{
    match parse(alloc, words) {
        Err(error) => match error.kind() {
            ErrorKind::OutOfMemory => Err(WordStop::Memory),
            _ => Err(WordStop::Words),
        },
        Ok(matches) => match matches.subcommand() {
            Some((name, chosen)) => Ok(Request {
                command: command_of(name, chosen),
                workers: number_of(chosen, "workers", 1, 16, 2) as u32,
                helpers: number_of(chosen, "helpers", 1, 16, 2) as u32,
                pairs: number_of(chosen, "pairs", 0, 1_000_000_000, 1_000_000),
                update: update_of(number_of(chosen, "update", 0, 1, 0)),
            }),
            None => Ok(Request {
                command: Command::Run,
                workers: 2,
                helpers: 2,
                pairs: 1_000_000,
                update: Update::Plain,
            }),
        },
    }
}
