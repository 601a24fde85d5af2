//! The arguments of the program.
use crate::refusal::Failure;
use clap::{Arg, ArgAction, ArgMatches};
use mb_trace::EntryKinds;
use mb_trace_forms::TraceFormat;
use std::alloc::{AllocError, Global};

/// How a run is shown.
#[derive(Drop)]
pub(crate) struct Options {
    /// The file that has the scenario; the standard input where none is named.
    pub(crate) file: Option<String>,
    /// In which form.
    pub(crate) format: TraceFormat,
    /// The names of the actors whose entries are shown; all where there is none.
    pub(crate) actors: Vec<String>,
    /// Which kinds of entries.
    pub(crate) only: EntryKinds,
    /// How many entries at most.
    pub(crate) limit: u64,
    /// How many of the newest entries each actor's journal keeps at least, if it is not to keep all.
    pub(crate) last: Option<u32>,
}

static FORMATS: [&str; 4] = ["text", "json", "svg", "html"];

static KINDS: [&str; 3] = ["user", "system", "failures"];

/// Reads the words, of which the first is the program's own path. Without matches the failure has clap's text: of `--help`, of `--version`,
/// or of what is wrong.
pub(crate) fn options_of(alloc: Global, words: &[String]) -> Result<Options, Failure> {
    let matches = command(alloc)?.try_get_matches_from(words)?;
    Ok(options_in(alloc, &matches)?)
}

/// The command line of the program.
fn command<'a>(alloc: Global) -> Result<clap::Command<'a>, AllocError> {
    clap::Command::new(alloc, "mailtrace")
        .version("0.4.0")
        .about("Runs a scenario, and shows what came to each actor and what became of it")
        .arg(Arg::new(alloc, "FILE").help("The scenario; the standard input, if no file is named"))?
        .arg(format_argument(alloc)?)?
        .arg(actor_argument(alloc))?
        .arg(only_argument(alloc)?)?
        .arg(limit_argument(alloc)?)?
        .arg(last_argument(alloc)?)
}

fn format_argument<'a>(alloc: Global) -> Result<Arg<'a>, AllocError> {
    Arg::new(alloc, "format")
        .long("format")
        .value_name("FORMAT")
        .help(
            "The form: lines of text, a line of JSON for each entry, a sequence diagram, or a page",
        )
        .value_parser(FORMATS.as_slice())
        .default_value("text")
        .overrides_with("format")
}

fn actor_argument<'a>(alloc: Global) -> Arg<'a> {
    Arg::new(alloc, "actor")
        .long("actor")
        .value_name("NAME")
        .help("Only the entries of this actor; may be given more than once")
        .action(ArgAction::Append)
}

fn only_argument<'a>(alloc: Global) -> Result<Arg<'a>, AllocError> {
    Arg::new(alloc, "only")
        .long("only")
        .value_name("KIND")
        .help("Only entries of envelopes, of system messages, or of failures")
        .value_parser(KINDS.as_slice())
        .overrides_with("only")
}

fn limit_argument<'a>(alloc: Global) -> Result<Arg<'a>, AllocError> {
    Arg::new(alloc, "limit")
        .long("limit")
        .value_name("N")
        .help("At most so many entries")
        .value_parser(clap::value_parser!(u64))
        .overrides_with("limit")
}

fn last_argument<'a>(alloc: Global) -> Result<Arg<'a>, AllocError> {
    Arg::new(alloc, "last")
        .long("last")
        .value_name("N")
        .help("At least the last N entries of each actor, which alone are kept, as text")
        .value_parser(clap::value_parser!(u32))
        .overrides_with("last")?
        .conflicts_with("format")?
        .conflicts_with("limit")
}

/// What these matches say.
fn options_in(alloc: Global, matches: &ArgMatches<'_>) -> Result<Options, AllocError> {
    let file = match matches.get_str("FILE") {
        Some(path) => Some(String::from_str(alloc, path)?),
        None => None,
    };
    let mut actors = Vec::new(alloc);
    for name in matches.get_strs("actor").unwrap_or(&[]) {
        actors.push(String::from_str(alloc, name)?)?;
    }
    Ok(Options {
        file,
        format: format_of(matches.get_str("format")),
        actors,
        only: only_of(matches.get_str("only")),
        limit: matches.get_one::<u64>("limit").unwrap_or(u64::MAX),
        last: matches.get_one::<u32>("last"),
    })
}

fn format_of(word: Option<&str>) -> TraceFormat {
    match word {
        Some("json") => TraceFormat::Json,
        Some("svg") => TraceFormat::Svg,
        Some("html") => TraceFormat::Html,
        _ => TraceFormat::Text,
    }
}

fn only_of(word: Option<&str>) -> EntryKinds {
    match word {
        Some("user") => EntryKinds::User,
        Some("system") => EntryKinds::System,
        Some("failures") => EntryKinds::Failures,
        _ => EntryKinds::All,
    }
}
