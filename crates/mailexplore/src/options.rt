//! The arguments of the program.
use crate::failure::Failure;
use clap::{Arg, ArgMatches};
use mb_explore::Limits;
use std::alloc::{AllocError, Global};

/// How many steps are tried, unless the arguments say.
const STEPS: u64 = 100_000;

/// How many reports are listed at most, unless the arguments say.
const OUTCOMES: u64 = 1_000;

/// What is asked for.
#[derive(Drop)]
pub(crate) struct Options {
    /// Where the search stops.
    pub(crate) limits: Limits,
    /// How many reports are printed at most.
    pub(crate) show: u64,
    /// The words that a line of the report is to have, if one report is searched.
    pub(crate) find: Option<String>,
    /// The order of steps that is made, if one is asked for.
    pub(crate) schedule: Option<String>,
}

/// Reads the words, of which the first is the program's own path. Without matches the failure has clap's text: of `--help`, of `--version`,
/// or of what is wrong.
pub(crate) fn options_of(alloc: Global, words: &[String]) -> Result<Options, Failure> {
    let matches = command(alloc)?.try_get_matches_from(words)?;
    Ok(options_in(alloc, &matches)?)
}

/// The command line of the program.
fn command<'a>(alloc: Global) -> Result<clap::Command<'a>, AllocError> {
    clap::Command::new(alloc, "mailexplore")
        .version("0.4.0")
        .about("Prints each report that some order of the steps of a small scenario leads to")
        .arg(steps_argument(alloc)?)?
        .arg(outcomes_argument(alloc)?)?
        .arg(show_argument(alloc)?)?
        .arg(find_argument(alloc)?)?
        .arg(schedule_argument(alloc)?)
}

fn steps_argument<'a>(alloc: Global) -> Result<Arg<'a>, AllocError> {
    Arg::new(alloc, "steps")
        .long("steps")
        .value_name("N")
        .help("The search stops after so many steps; 100000, if nothing is said")
        .value_parser(clap::value_parser!(u64))
        .overrides_with("steps")
}

fn outcomes_argument<'a>(alloc: Global) -> Result<Arg<'a>, AllocError> {
    Arg::new(alloc, "outcomes")
        .long("outcomes")
        .value_name("N")
        .help("At most so many reports are listed; 1000, if nothing is said")
        .value_parser(clap::value_parser!(u64))
        .overrides_with("outcomes")
}

fn show_argument<'a>(alloc: Global) -> Result<Arg<'a>, AllocError> {
    Arg::new(alloc, "show")
        .long("show")
        .value_name("K")
        .help("At most so many of the listed reports are printed; all, if nothing is said")
        .value_parser(clap::value_parser!(u64))
        .overrides_with("show")
}

fn find_argument<'a>(alloc: Global) -> Result<Arg<'a>, AllocError> {
    Arg::new(alloc, "find")
        .long("find")
        .value_name("LINE")
        .help("Only the report with such a line to which the fewest steps lead, as 'a state 7'")
        .overrides_with("find")
}

fn schedule_argument<'a>(alloc: Global) -> Result<Arg<'a>, AllocError> {
    Arg::new(alloc, "schedule")
        .long("schedule")
        .value_name("STEPS")
        .help("Only the report after these steps, as 'run guardian send 0'")
        .overrides_with("schedule")
}

/// What these matches say.
fn options_in(alloc: Global, matches: &ArgMatches<'_>) -> Result<Options, AllocError> {
    Ok(Options {
        limits: Limits {
            steps: matches.get_one::<u64>("steps").unwrap_or(STEPS),
            outcomes: matches.get_one::<u64>("outcomes").unwrap_or(OUTCOMES) as usize,
        },
        show: matches.get_one::<u64>("show").unwrap_or(u64::MAX),
        find: text_in(alloc, matches, "find")?,
        schedule: text_in(alloc, matches, "schedule")?,
    })
}

/// The text of an argument, if it was given.
fn text_in(
    alloc: Global,
    matches: &ArgMatches<'_>,
    name: &str,
) -> Result<Option<String>, AllocError> {
    match matches.get_str(name) {
        Some(text) => Ok(Some(String::from_str(alloc, text)?)),
        None => Ok(None),
    }
}
