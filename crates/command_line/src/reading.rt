//! From words to commands.

ghost use Rattle.std.specs.Prelude.{◌≡◌, ℕ, ◌^◌, ◌<◌, [], None, Err, false, IfOk, IfErr, IfSome, map, option_map};
ghost use Rattle.std.specs.Fmt.{decimal};
ghost use Rattle.std.specs.String.{string_bytes};
ghost use Rattle.clap.specs.Words.{app_of, with_subcommand, fault_of, found_of, rows_of, subcommand_of, subcommand_rows_of};
ghost use Rattle.clap.specs.declared.builder.command.Command.TheViews.{out-Command};
ghost use Rattle.command_line.specs.declared.command.Command.{Command};
ghost use Rattle.command_line.specs.declared.command.RunOptions.{RunOptions};
ghost use Rattle.command_line.specs.Lines.{bare_app, seh_app, check_app, run_app_named, selftest_app, is_set, HasNumber, HasOptions, HasReport, IsLine, IsNoLine, IsNumber, IsNamedBy};

use crate::command::{CheckReport, Command, RunOptions};
use clap::error::ErrorKind;
use clap::{Arg, ArgAction, ArgMatches};
use seh_io::line::Line;
use std::alloc::{AllocError, Global};

/// Why words are no command.
#[derive(Clone, Copy, Debug, PartialEq, Eq)]
pub enum WordsErr {
    /// They are no line of the command set.
    Usage,
    /// No memory was left.
    Memory,
}

/// A run makes at most so many turns, where nothing else is said.
pub const DEFAULT_TURNS: u64 = 10_000_000;

/// The number that a text is: decimal digits with no sign and no leading zero, below 2^63.
fn number_of(text: &str) -> Option<u64>
    ensures some { IfSome result (λ n. (text.now ≡ decimal n) × (n < 2 ^ 63)) }
    ensures none { result ≡ None → (n : ℕ) → n < 2 ^ 63 → text.now ≡ decimal n → ⊥ }
{
    let Ok(number) = text.parse::<u64>() else {
        return None;
    };
    if number > i64::MAX as u64 {
        return None;
    }
    let mut line = Line::new();
    line.natural(number);
    if line.as_bytes() == text.as_bytes() {
        Some(number)
    } else {
        None
    }
}

/// The command `check`, which takes `--each`.
fn check_command<'a>(alloc: Global) -> Result<clap::Command<'a>, AllocError>
    ensures app { IfOk result (λ c. app_of c ≡ check_app) }
    ensures local { IfOk result (λ c. (out-Command c).has_globals ≡ false) }
{
    clap::Command::new(alloc, "check").arg(
        Arg::new(alloc, "each")
            .long("each")
            .action(ArgAction::SetTrue),
    )
}

/// A command with `check` below it too.
fn with_check<'a>(
    alloc: Global,
    command: clap::Command<'a>,
) -> Result<clap::Command<'a>, AllocError>
    ensures { IfOk result (λ c. app_of c ≡ with_subcommand (app_of command.entry) check_app.top) }
{
    match check_command(alloc) {
        Ok(check) => command.subcommand(check),
        Err(failed) => {
            drop(command);
            Err(failed)
        }
    }
}

/// A command that takes the options of a run.
fn run_command<'a>(alloc: Global, name: &'a str) -> Result<clap::Command<'a>, AllocError>
    ensures app { IfOk result (λ c. app_of c ≡ run_app_named name.entry.now) }
    ensures local { IfOk result (λ c. (out-Command c).has_globals ≡ false) }
{
    clap::Command::new(alloc, name)
        .arg(
            Arg::new(alloc, "turns")
                .long("turns")
                .action(ArgAction::Set),
        )?
        .arg(Arg::new(alloc, "arg").long("arg").action(ArgAction::Set))?
        .arg(
            Arg::new(alloc, "trace")
                .long("trace")
                .action(ArgAction::SetTrue),
        )
}

/// A command with one more below it, which takes the options of a run.
fn with_run<'a>(
    alloc: Global,
    command: clap::Command<'a>,
    name: &'a str,
) -> Result<clap::Command<'a>, AllocError>
    ensures { IfOk result (λ c. app_of c
        ≡ with_subcommand (app_of command.entry) (run_app_named name.entry.now).top) }
{
    match run_command(alloc, name) {
        Ok(run) => command.subcommand(run),
        Err(failed) => {
            drop(command);
            Err(failed)
        }
    }
}

/// The command `selftest`, which takes the number of a generated program.
fn selftest_command<'a>(alloc: Global) -> Result<clap::Command<'a>, AllocError>
    ensures app { IfOk result (λ c. app_of c ≡ selftest_app) }
    ensures local { IfOk result (λ c. (out-Command c).has_globals ≡ false) }
{
    clap::Command::new(alloc, "selftest").arg(
        Arg::new(alloc, "number")
            .required(true)
            .action(ArgAction::Set),
    )
}

/// A command with `selftest` below it too.
fn with_selftest<'a>(
    alloc: Global,
    command: clap::Command<'a>,
) -> Result<clap::Command<'a>, AllocError>
    ensures { IfOk result (λ c. app_of c
        ≡ with_subcommand (app_of command.entry) selftest_app.top) }
{
    match selftest_command(alloc) {
        Ok(selftest) => command.subcommand(selftest),
        Err(failed) => {
            drop(command);
            Err(failed)
        }
    }
}

/// The program's own command, with none below it.
fn bare<'a>(alloc: Global) -> clap::Command<'a>
    ensures { app_of result ≡ bare_app }
{
    clap::Command::new(alloc, "seh")
        .no_binary_name(true)
        .disable_help_flag(true)
        .disable_help_subcommand(true)
        .disable_version_flag(true)
        .subcommand_required(true)
}

/// All commands.
fn program<'a>(alloc: Global) -> Result<clap::Command<'a>, AllocError>
    ensures { IfOk result (λ c. app_of c ≡ seh_app) }
{
    let compiling = bare(alloc).subcommand(clap::Command::new(alloc, "compile"))?;
    let showing = compiling.subcommand(clap::Command::new(alloc, "show"))?;
    let checking = with_check(alloc, showing)?;
    let executing = with_run(alloc, checking, "exec")?;
    let running = with_run(alloc, executing, "run")?;
    let meaning = with_run(alloc, running, "meaning")?;
    with_selftest(alloc, meaning)
}

/// What `clap` makes of the words.
fn parse<'a>(alloc: Global, words: &'a [String]) -> Result<ArgMatches<'a>, WordsErr>
    ensures taken { IfOk result (λ m. (fault_of seh_app (map string_bytes words.entry.now) ≡ [])
        × (subcommand_rows_of m ≡ subcommand_of seh_app (map string_bytes words.entry.now))) }
    ensures usage { IfErr result
        (λ e. e ≡ WordsErr.Usage → fault_of seh_app (map string_bytes words.entry.now) ≡ [] → ⊥) }
{
    let program = match program(alloc) {
        Ok(program) => program,
        Err(_) => return Err(WordsErr::Memory),
    };
    match program.try_get_matches_from(words) {
        Ok(matches) => Ok(matches),
        Err(error) => match error.kind() {
            ErrorKind::OutOfMemory => Err(WordsErr::Memory),
            _ => Err(WordsErr::Usage),
        },
    }
}

/// The number that an option gives, or another one where it isn't there.
fn number_or(text: Option<&str>, other: u64) -> Result<u64, WordsErr>
    ensures found { IfOk result (IsNumber other (option_map (λ t. t.now) text.entry)) }
    ensures usage { IfErr result (λ e. (e ≡ WordsErr.Usage)
        × ((n : ℕ) → IsNumber other (option_map (λ t. t.now) text.entry) n → ⊥)) }
{
    match text {
        None => Ok(other),
        Some(text) => match number_of(text) {
            Some(number) => Ok(number),
            None => Err(WordsErr::Usage),
        },
    }
}

/// Whether an option without a value is among the words.
fn is_set(matches: &ArgMatches<'_>, name: &str) -> bool
    ensures { result ≡ is_set name.now (rows_of (found_of matches.now)) }
{
    match matches.get_str(name) {
        Some(text) => text == "true",
        None => false,
    }
}

/// What `check` writes.
fn report_of(matches: &ArgMatches<'_>) -> CheckReport
    ensures { HasReport result (rows_of (found_of matches.now)) }
{
    if is_set(matches, "each") {
        CheckReport::Each
    } else {
        CheckReport::Whole
    }
}

/// The options of a run.
fn options_of(matches: &ArgMatches<'_>) -> Result<RunOptions, WordsErr>
    ensures found { IfOk result (λ o. HasOptions o (rows_of (found_of matches.now))) }
    ensures usage { IfErr result (λ e. (e ≡ WordsErr.Usage)
        × ((o : RunOptions) → HasOptions o (rows_of (found_of matches.now)) → ⊥)) }
{
    let turns = match number_or(matches.get_str("turns"), DEFAULT_TURNS) {
        Ok(turns) => turns,
        Err(error) => return Err(error),
    };
    let argument = match number_or(matches.get_str("arg"), 0) {
        Ok(argument) => argument as i64,
        Err(error) => return Err(error),
    };
    let trace = is_set(matches, "trace");
    Ok(RunOptions {
        turns,
        argument,
        trace,
    })
}

/// The number that is the word after the command.
fn number_given(matches: &ArgMatches<'_>) -> Result<u64, WordsErr>
    ensures found { IfOk result (λ n. HasNumber n (rows_of (found_of matches.now))) }
    ensures usage { IfErr result (λ e. (e ≡ WordsErr.Usage)
        × ((n : ℕ) → HasNumber n (rows_of (found_of matches.now)) → ⊥)) }
{
    match matches.get_str("number") {
        None => Err(WordsErr::Usage),
        Some(text) => match number_of(text) {
            Some(number) => Ok(number),
            None => Err(WordsErr::Usage),
        },
    }
}

/// The command of this name with its options.
fn command_named(name: &str, matches: &ArgMatches<'_>) -> Result<Command, WordsErr>
    ensures found { IfOk result (λ c. IsNamedBy c (name.now, rows_of (found_of matches.now))) }
    ensures usage { IfErr result (λ e. (e ≡ WordsErr.Usage)
        × ((c : Command) → IsNamedBy c (name.now, rows_of (found_of matches.now)) → ⊥)) }
{
    match name {
        "compile" => Ok(Command::Compile),
        "show" => Ok(Command::Show),
        "check" => Ok(Command::Check(report_of(matches))),
        "exec" => match options_of(matches) {
            Ok(options) => Ok(Command::Exec(options)),
            Err(error) => Err(error),
        },
        "run" => match options_of(matches) {
            Ok(options) => Ok(Command::Run(options)),
            Err(error) => Err(error),
        },
        "meaning" => match options_of(matches) {
            Ok(options) => Ok(Command::Meaning(options)),
            Err(error) => Err(error),
        },
        "selftest" => match number_given(matches) {
            Ok(number) => Ok(Command::Selftest(number)),
            Err(error) => Err(error),
        },
        _ => Err(WordsErr::Usage),
    }
}

/// The command that the words after the program's name are.
///
/// `exec`, `run` and `meaning` take `--turns N`, `--arg N` and `--trace`, and `check` takes
/// `--each`, each at most once and in any order; after `selftest` comes one number. A number is
/// written in decimal digits with no sign and no leading zero, and is at most 2^63 - 1. Words that
/// ask for help or a version are no line of the command set.
pub fn command_of(alloc: Global, words: &[String]) -> Result<Command, WordsErr>
    ensures found { IfOk result (IsLine (map string_bytes words.now)) }
    ensures usage { result ≡ Err WordsErr.Usage → IsNoLine (map string_bytes words.now) }
{
    let matches = match parse(alloc, words) {
        Ok(matches) => matches,
        Err(error) => return Err(error),
    };
    match matches.subcommand() {
        Some((name, options)) => command_named(name, options),
        None => Err(WordsErr::Usage),
    }
}
