//! The command line.
ghost use Rattle.std.specs.Prelude.{◌≡◌, false, ℕ, IfOk, map};
ghost use Rattle.std.specs.List.{AllByRecursion};
ghost use Rattle.clap.specs.Kinds.{FailsBy};
ghost use Rattle.clap.specs.Faults.{fault_of};
ghost use Rattle.clap.specs.Matches.{found_of};
ghost use Rattle.clap.specs.Simple.{app_of, shape_of, subcommand_of, subcommand_rows_of};
ghost use Rattle.clap.specs.Walk.{rows_of, rule_of};
ghost use Rattle.shell_command_line.specs.Asked.{AsksFor, HasClient, IsGivenCount, IsGivenNumber, MayAskFor, MayCount, NamesCount};
ghost use Rattle.shell_command_line.specs.CommandLine.{IsLocal, check, command_line, compact, counting, dc, draw, dump, explain, flag_option, halves, load, naming, numbering, on_store, plain_run, pool, run, stat, subcommands, tc};

use crate::help::{
    CHECKED, CLIENTS, COMPACTED, CONTINUING, CREATING, DRAWN, DUMPED, EXPLAINED, INTERACTIVE,
    KEEPING, LINES, LOADED, MEASURED, PLAYED, READING, SCRIPT, SERVED, STORING, STRICT, THE_STORE,
    VERSION,
};
use clap::builder::ValueParser;
use clap::{Arg, ArgAction, ArgMatches, Command, Error};
use std::alloc::{AllocError, Global};
use std::convert::AsStr;

/// What the command line asks for.
#[derive(Debug, Clone, Copy, PartialEq, Eq)]
pub enum Task<'a> {
    /// A script is read from standard input and run, also on behind a line in which memory or a device failed where it
    /// continues. The node is that of the store in this folder where one is named, else a new one in memory; where it is
    /// to be read only, nothing is written to the store, and where it may be created, it is made if it isn't there. A
    /// strict run tells how many lines were refused; an interactive one runs each line as soon as it was read; one that keeps
    /// the log doesn't write it anew where it has grown long.
    Run {
        continues: bool,
        store: Option<&'a str>,
        reads_only: bool,
        creates: bool,
        strict: bool,
        interactive: bool,
        keeps_log: bool,
    },
    /// The log of the store in this folder is written anew, with just the records that stand.
    Compact {
        store: Option<&'a str>,
    },
    /// The store in this folder is looked at, and nothing of it is changed.
    Check {
        store: Option<&'a str>,
    },
    /// The rows of the store in this folder are printed, and nothing of it is changed.
    Dump {
        store: Option<&'a str>,
    },
    /// Rows are read from standard input, as they are printed, and put into the store in this folder; it may be created.
    Load {
        store: Option<&'a str>,
        creates: bool,
    },
    /// The rows of the store in this folder are measured, and nothing of it is changed.
    Stat {
        store: Option<&'a str>,
    },
    /// Requests come in on standard input, and are served; replies go to standard output. The log of leaves is in the store
    /// in this folder where one is named, else in memory.
    Dc {
        store: Option<&'a str>,
    },
    /// The script in this file is played by the transaction component of the store in this folder; its requests go to
    /// standard output, and replies come in on standard input.
    Tc {
        store: Option<&'a str>,
        script: Option<&'a str>,
    },
    /// So many clients, each with a session of its own, play so many rounds on threads, at an engine with so many locks.
    Pool {
        sessions: usize,
        rounds: u64,
        locks: u64,
    },
    /// A script is read from standard input and explained, of its lines just line `at` where there is a number.
    Explain {
        at: Option<u64>,
    },
    /// A script is read from standard input and drawn, of its events just the `last` ones where there is a number.
    Draw {
        last: Option<u64>,
    },
}

/// The greatest number of a line or of events that may be asked for.
const MOST_NUMBER: u64 = (1 << 48) - 1;

/// What these words ask for, the first of them the program's name. Refused just where they have a fault or ask for
/// help, with the kind of that, or where memory runs out.
pub fn choose<'a, S: AsStr>(alloc: Global, words: &'a [S]) -> Result<Task<'a>, Error>
    ensures task { IfOk result (AsksFor (subcommand_of command_line (map S.text words.now))) }
    ensures client { IfOk result HasClient }
    ensures fault { FailsBy (fault_of command_line (map S.text words.now)) result }
{
    match command_line(alloc)?.try_get_matches_from(words) {
        Ok(matches) => Ok(task_of(&matches)),
        Err(fault) => Err(fault),
    }
}

// What the words asked for that have these matches.
fn task_of<'a>(matches: &ArgMatches<'a>) -> Task<'a>
    requires { MayAskFor (subcommand_rows_of matches.now) }
    ensures asks { AsksFor (subcommand_rows_of matches.now) result }
    ensures client { HasClient result }
{
    if let Some(asked) = matches.subcommand_matches("pool") {
        return Task::Pool {
            sessions: number_of(asked, "sessions") as usize,
            rounds: number_of(asked, "rounds"),
            locks: number_of(asked, "locks"),
        };
    }
    if let Some(asked) = matches.subcommand_matches("explain") {
        return Task::Explain {
            at: number_if(asked, "at"),
        };
    }
    if let Some(asked) = matches.subcommand_matches("draw") {
        return Task::Draw {
            last: number_if(asked, "last"),
        };
    }
    if let Some(asked) = matches.subcommand_matches("compact") {
        return Task::Compact {
            store: asked.get_str("store"),
        };
    }
    if let Some(asked) = matches.subcommand_matches("check") {
        return Task::Check {
            store: asked.get_str("store"),
        };
    }
    if let Some(asked) = matches.subcommand_matches("dump") {
        return Task::Dump {
            store: asked.get_str("store"),
        };
    }
    if let Some(asked) = matches.subcommand_matches("load") {
        return Task::Load {
            store: asked.get_str("store"),
            creates: asked.get_flag("create"),
        };
    }
    if let Some(asked) = matches.subcommand_matches("stat") {
        return Task::Stat {
            store: asked.get_str("store"),
        };
    }
    if let Some(asked) = matches.subcommand_matches("dc") {
        return Task::Dc {
            store: asked.get_str("store"),
        };
    }
    if let Some(asked) = matches.subcommand_matches("tc") {
        return Task::Tc {
            store: asked.get_str("store"),
            script: asked.get_str("script"),
        };
    }
    match matches.subcommand_matches("run") {
        Some(asked) => Task::Run {
            continues: asked.get_flag("continue"),
            store: asked.get_str("store"),
            reads_only: asked.get_flag("read-only"),
            creates: asked.get_flag("create"),
            strict: asked.get_flag("strict"),
            interactive: asked.get_flag("interactive"),
            keeps_log: asked.get_flag("keep-log"),
        },
        None => unreachable!(),
    }
}

// The number that an option is, by the words or by its default.
fn number_of(asked: &ArgMatches<'_>, option: &str) -> u64
    requires { (most : ℕ) × NamesCount (rows_of (found_of asked.now)) option.now most }
    ensures { IsGivenNumber (rows_of (found_of asked.now)) option.now result }
{
    match asked.get_one(option) {
        Some(number) => number,
        None => unreachable!(),
    }
}

// The number that an option is, where the words give it.
fn number_if(asked: &ArgMatches<'_>, option: &str) -> Option<u64>
    requires { MayCount (rows_of (found_of asked.now)) option.now }
    ensures { IsGivenCount (rows_of (found_of asked.now)) option.now result }
{
    match asked.get_one(option) {
        Some(number) => Some(number),
        None => None,
    }
}

/// The program and its subcommands.
fn command_line<'a>(alloc: Global) -> Result<Command<'a>, AllocError>
    ensures { IfOk result (λ program. app_of program ≡ command_line) }
{
    let subcommands = subcommands(alloc)?;
    let halves = halves(alloc)?;
    Command::new(alloc, "undo_shell")
        .about("A database kernel in two components that undoes by logged compensations")
        .version(VERSION)
        .after_help(LINES)
        .subcommand_required(true)
        .subcommands(subcommands)?
        .subcommands(halves)
}

// What the program may be told to do. (A command is large, and each way out on which one is dropped is dear to check: so
// they stand in a vector.)
fn subcommands<'a>(alloc: Global) -> Result<Vec<Command<'a>>, AllocError>
    ensures local { IfOk result (λ commands. AllByRecursion IsLocal commands.items) }
    ensures shapes { IfOk result (λ commands. map shape_of commands.items ≡ subcommands) }
{
    let mut commands = Vec::with_capacity(alloc, 9)?;
    commands.push(run_command(alloc)?)?;
    commands.push(pool_command(alloc)?)?;
    commands.push(explain_command(alloc)?)?;
    commands.push(draw_command(alloc)?)?;
    commands.push(compact_command(alloc)?)?;
    commands.push(check_command(alloc)?)?;
    commands.push(dump_command(alloc)?)?;
    commands.push(load_command(alloc)?)?;
    commands.push(stat_command(alloc)?)?;
    Ok(commands)
}

// What it may be told to be one half of.
fn halves<'a>(alloc: Global) -> Result<Vec<Command<'a>>, AllocError>
    ensures local { IfOk result (λ commands. AllByRecursion IsLocal commands.items) }
    ensures shapes { IfOk result (λ commands. map shape_of commands.items ≡ halves) }
{
    let mut commands = Vec::with_capacity(alloc, 2)?;
    commands.push(dc_command(alloc)?)?;
    commands.push(tc_command(alloc)?)?;
    Ok(commands)
}

// What runs a script. (Seven options of one command are dear to check.)
fn run_command<'a>(alloc: Global) -> Result<Command<'a>, AllocError>
    ensures local { IfOk result IsLocal }
    ensures app { IfOk result (λ command. app_of command ≡ run) }
{
    let command = plain_run(alloc)?;
    command
        .arg(flag_option(alloc, "create").help(CREATING))?
        .arg(flag_option(alloc, "strict").help(STRICT))?
        .arg(flag_option(alloc, "interactive").help(INTERACTIVE))?
        .arg(flag_option(alloc, "keep-log").help(KEEPING))
}

fn plain_run<'a>(alloc: Global) -> Result<Command<'a>, AllocError>
    ensures local { IfOk result IsLocal }
    ensures app { IfOk result (λ command. app_of command ≡ plain_run) }
{
    Command::new(alloc, "run")
        .about("Reads a script from standard input and prints what its lines came to")
        .after_help(LINES)
        .arg(flag_option(alloc, "continue").help(CONTINUING))?
        .arg(naming(alloc, "store", "FOLDER").help(STORING))?
        .arg(flag_option(alloc, "read-only").help(READING))
}

// What writes a store's log anew.
fn compact_command<'a>(alloc: Global) -> Result<Command<'a>, AllocError>
    ensures local { IfOk result IsLocal }
    ensures app { IfOk result (λ command. app_of command ≡ compact) }
{
    let about = "Writes the log of a store anew, with just the records that stand";
    on_store(alloc, "compact", about, COMPACTED)
}

// What looks at a store.
fn check_command<'a>(alloc: Global) -> Result<Command<'a>, AllocError>
    ensures local { IfOk result IsLocal }
    ensures app { IfOk result (λ command. app_of command ≡ check) }
{
    let about = "Says whether a store can be opened, and what its log has";
    on_store(alloc, "check", about, CHECKED)
}

// What prints the rows of a store.
fn dump_command<'a>(alloc: Global) -> Result<Command<'a>, AllocError>
    ensures local { IfOk result IsLocal }
    ensures app { IfOk result (λ command. app_of command ≡ dump) }
{
    let about = "Prints the records of a store, a line each, as load reads them";
    on_store(alloc, "dump", about, DUMPED)
}

// What puts rows into a store.
fn load_command<'a>(alloc: Global) -> Result<Command<'a>, AllocError>
    ensures local { IfOk result IsLocal }
    ensures app { IfOk result (λ command. app_of command ≡ load) }
{
    let about =
        "Reads records from standard input, as dump prints them, and puts them into a store";
    on_store(alloc, "load", about, LOADED)?.arg(flag_option(alloc, "create").help(CREATING))
}

// What measures the rows of a store.
fn stat_command<'a>(alloc: Global) -> Result<Command<'a>, AllocError>
    ensures local { IfOk result IsLocal }
    ensures app { IfOk result (λ command. app_of command ≡ stat) }
{
    let about = "Counts the records of a store, and how long their keys and values are";
    on_store(alloc, "stat", about, MEASURED)
}

// What is one half of a node.
fn dc_command<'a>(alloc: Global) -> Result<Command<'a>, AllocError>
    ensures local { IfOk result IsLocal }
    ensures app { IfOk result (λ command. app_of command ≡ dc) }
{
    let about = "Serves requests from standard input, and writes their replies to standard output";
    on_store(alloc, "dc", about, SERVED)
}

// What is the other half.
fn tc_command<'a>(alloc: Global) -> Result<Command<'a>, AllocError>
    ensures local { IfOk result IsLocal }
    ensures app { IfOk result (λ command. app_of command ≡ tc) }
{
    let about = "Plays a script; requests go to standard output, replies come from standard input";
    let script = naming(alloc, "script", "FILE").help(SCRIPT);
    on_store(alloc, "tc", about, PLAYED)?.arg(script)
}

// What does something with a store.
fn on_store<'a>(
    alloc: Global,
    name: &'a str,
    about: &'a str,
    help: &'a str,
) -> Result<Command<'a>, AllocError>
    ensures local { IfOk result IsLocal }
    ensures app { IfOk result (λ command. app_of command ≡ on_store name.entry.now) }
{
    let store = naming(alloc, "store", "FOLDER").help(THE_STORE);
    Command::new(alloc, name)
        .about(about)
        .after_help(help)
        .arg(store)
}

// What lets clients play on threads.
fn pool_command<'a>(alloc: Global) -> Result<Command<'a>, AllocError>
    ensures local { IfOk result IsLocal }
    ensures app { IfOk result (λ command. app_of command ≡ pool) }
{
    Command::new(alloc, "pool")
        .about("Lets clients play rounds on threads, and prints what they read and leave")
        .after_help(CLIENTS)
        .arg(counting(alloc, "sessions", "N", 8, "4").help("How many clients there are, 1 to 8"))?
        .arg(counting(alloc, "rounds", "M", 99, "3").help("How many rounds each plays, 1 to 99"))?
        .arg(counting(alloc, "locks", "L", 3, "3").help("How many locks their engine has, 1 or 3"))
}

// What explains a script.
fn explain_command<'a>(alloc: Global) -> Result<Command<'a>, AllocError>
    ensures local { IfOk result IsLocal }
    ensures app { IfOk result (λ command. app_of command ≡ explain) }
{
    let at = numbering(alloc, "at", "N").help("Explains just line N of the script");
    Command::new(alloc, "explain")
        .about("Reads a script from standard input and explains what each of its lines changes")
        .after_help(EXPLAINED)
        .arg(at)
}

// What draws a script.
fn draw_command<'a>(alloc: Global) -> Result<Command<'a>, AllocError>
    ensures local { IfOk result IsLocal }
    ensures app { IfOk result (λ command. app_of command ≡ draw) }
{
    let last = numbering(alloc, "last", "N").help("Draws just the last N events");
    Command::new(alloc, "draw")
        .about("Reads a script from standard input and draws its events as an SVG picture")
        .after_help(DRAWN)
        .arg(last)
}

// A flag: an option that is there or not.
fn flag_option<'a>(alloc: Global, name: &'a str) -> Arg<'a>
    ensures global { result.global ≡ false }
    ensures rule { rule_of result ≡ flag_option name.entry.now }
{
    Arg::new(alloc, name).long(name).action(ArgAction::SetTrue)
}

// An option that is a text with something in it, which may be left out.
fn naming<'a>(alloc: Global, name: &'a str, letters: &'a str) -> Arg<'a>
    ensures global { result.global ≡ false }
    ensures rule { rule_of result ≡ naming name.entry.now }
{
    Arg::new(alloc, name)
        .long(name)
        .value_name(letters)
        .value_parser(ValueParser::NonEmptyString)
}

// An option that is a number, which may be left out.
fn numbering<'a>(alloc: Global, name: &'a str, letter: &'a str) -> Arg<'a>
    ensures global { result.global ≡ false }
    ensures rule { rule_of result ≡ numbering name.entry.now }
{
    Arg::new(alloc, name)
        .long(name)
        .value_name(letter)
        .value_parser(ValueParser::unsigned(1, MOST_NUMBER))
}

// An option that is a number from 1 to the most, and this one where the words give none.
fn counting<'a>(
    alloc: Global,
    name: &'a str,
    letter: &'a str,
    most: u64,
    default: &'a str,
) -> Arg<'a>
    ensures global { result.global ≡ false }
    ensures rule { rule_of result ≡ counting name.entry.now most default.entry.now }
{
    Arg::new(alloc, name)
        .long(name)
        .value_name(letter)
        .value_parser(ValueParser::unsigned(1, most))
        .default_value(default)
}
