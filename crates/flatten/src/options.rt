// What the arguments ask for.
ghost use Rattle.std.specs.Prelude.{◌≡◌, ◌&&◌, if◌then◌else◌, false, map, codes, string_bytes, IfOk};
ghost use Rattle.clap.specs.Words.{app_of, first_value, found_of, one_text, rule_of};
ghost use Rattle.flatten.specs.Options.{Makers, records_rule, cut_rule, strict_rule, command, Asked, ParsedAs};

use clap::{Arg, ArgAction, ArgMatches, Command, value_parser};
use limits::{MAX_COLUMNS, MAX_ROWS};
use std::alloc::{AllocError, Global};

// The cells of the largest tile: more records are never used.
const MOST_RECORDS: usize = MAX_ROWS * MAX_COLUMNS;

static CUT_NAMES: [&str; 2] = ["paths", "push"];

const ABOUT: &str =
    "Reads a tile file from standard input, and prints its lowest cheapest grid: rows, columns, top, rounds and energy \
on one line, and then the heights, a line for each row. For a file with a fault it prints the word refused, the number of the fault, \
its section, its place and its inner number.";

const STATUSES: &str =
    "Status: 0 where the answer is printed, and where this help is; 1 where reading or writing fails; 2 where the \
arguments are not understood; 3 with --strict where the file is refused.";

/// The cut makers.
#[derive(Clone, Copy)]
pub enum Cut {
    Paths,
    Push,
}

/// What the arguments ask for.
#[derive(Clone, Copy)]
pub struct Options {
    pub records: usize,
    pub cut: Cut,
    // Does the status tell that a file is refused?
    pub strict: bool,
}

fn records_argument<'a>(alloc: Global) -> Arg<'a>
    ensures rule { rule_of result ≡ records_rule }
    ensures own { result.global ≡ false }
{
    Arg::new(alloc, "records")
        .long("records")
        .value_name("N")
        .value_parser(value_parser!(usize))
        .default_value("1024")
        .help(
            "How many records there are, and so the most cells that a tile may have; more than 4096 count as 4096",
        )
}

fn cut_argument<'a>(alloc: Global) -> Arg<'a>
    ensures rule { (makers : Makers) × (rule_of result ≡ cut_rule makers) }
    ensures own { result.global ≡ false }
{
    Arg::new(alloc, "cut")
        .long("cut")
        .value_name("MAKER")
        .value_parser(CUT_NAMES.as_slice())
        .default_value("push")
        .help(
            "How the cuts are made: along augmenting paths, or by push-relabel, which is faster; the heights are the same",
        )
}

fn strict_argument<'a>(alloc: Global) -> Arg<'a>
    ensures rule { rule_of result ≡ strict_rule }
    ensures own { result.global ≡ false }
{
    Arg::new(alloc, "strict")
        .long("strict")
        .action(ArgAction::SetTrue)
        .help("Ends with status 3 where the file is refused")
}

// The arguments that there are.
fn command_line<'a>(alloc: Global) -> Result<Command<'a>, AllocError>
    ensures { IfOk result (λ line. (makers : Makers) × (app_of line ≡ command makers)) }
{
    let line = Command::new(alloc, "flatten")
        .about(ABOUT)
        .after_help(STATUSES)
        .arg(records_argument(alloc))?
        .arg(cut_argument(alloc))?
        .arg(strict_argument(alloc))?;
    Ok(line)
}

impl Options {
    // What the values of the arguments come to.
    fn of(matches: &ArgMatches) -> Options
        ensures { Asked (one_text (found_of matches.now) (codes "records")) (first_value (found_of matches.now) (codes "cut")) (one_text (found_of matches.now) (codes "strict")) result }
    {
        let records = matches.get_one::<usize>("records");
        Options {
            records: records.unwrap_or(MOST_RECORDS).min(MOST_RECORDS),
            cut: match matches.get_str("cut") {
                Some("paths") => Cut::Paths,
                _ => Cut::Push,
            },
            strict: matches.get_flag("strict"),
        }
    }

    /// What the words of a command line ask for, of which the first is the program's name; or an error that says what is wrong with
    /// them, or the help that they ask for.
    pub fn parse(alloc: Global, words: &[String]) -> Result<Options, clap::Error>
        ensures { ParsedAs (map (λ word. string_bytes word) words.now) result }
    {
        let line = command_line(alloc)?;
        let matches = line.try_get_matches_from(words)?;
        Ok(Options::of(&matches))
    }

    /// The status of a file that is refused, or is not.
    pub fn status(self, refused: bool) -> u8
        ensures { result ≡ (if self.strict && refused then 3 else 0) }
    {
        if self.strict && refused { 3 } else { 0 }
    }
}
