//! The words as `clap` reads them, over one simple command that takes every value as a text.
ghost use Rattle.std.specs.Prelude.{◌≡◌, IfOk, IfErr, IsNone, false, [], map, option_map, unwrap_or, codes, string_bytes, None, Some};
ghost use Rattle.clap.specs.Walk.{first_of, all_of, rule_of};
ghost use Rattle.clap.specs.Simple.{matches_of, with_rule};
ghost use Rattle.clap.specs.Faults.{fault_of};
ghost use Rattle.clap.specs.Words.{app_of, rows_of, found_of, kind_of};
ghost use Rattle.clap.specs.declared.error.kind.ErrorKind.TheVariants.{OutOfMemory};
ghost use Rattle.command_words.specs.Matches.{bare, files_rule, long_rule, number_rule, simple_command, IsReadAs};
ghost use Rattle.command_words.specs.Words.{pieces_of};
ghost use Rattle.command_words.specs.Forms.{options_of};

use crate::forms::have_form;
use crate::program::Program;
use crate::stop::WordsStop;
use clap::error::ErrorKind;
use clap::{Arg, ArgAction, ArgMatches, Command, Error};
use std::alloc::{AllocError, Global};

/// An option of two dashes, with one value.
fn long_option<'a>(alloc: Global, option: &'a str, name: &'a str) -> Arg<'a>
    ensures rule { rule_of result ≡ long_rule option.entry.now name.entry.now }
    ensures local { result.global ≡ false }
{
    Arg::new(alloc, option).long(name).action(ArgAction::Set)
}

/// The option `-n`.
fn number_option<'a>(alloc: Global) -> Arg<'a>
    ensures rule { rule_of result ≡ number_rule }
    ensures local { result.global ≡ false }
{
    Arg::new(alloc, "-n").short('n').action(ArgAction::Set)
}

/// The FILEs.
fn file_words<'a>(alloc: Global) -> Arg<'a>
    ensures rule { rule_of result ≡ files_rule }
    ensures local { result.global ≡ false }
{
    Arg::new(alloc, "FILE").action(ArgAction::Append)
}

/// The command before its arguments.
fn bare_command<'a>(alloc: Global) -> Command<'a>
    ensures { app_of result ≡ bare }
{
    Command::new(alloc, "clingcon")
        .no_binary_name(true)
        .disable_help_flag(true)
        .disable_version_flag(true)
}

/// The command with one more argument.
fn with_argument<'a>(command: Command<'a>, argument: Arg<'a>) -> Result<Command<'a>, AllocError>
    requires { argument.global ≡ false }
    ensures { IfOk result (λ c. app_of c ≡ with_rule (app_of command.entry) (rule_of argument.entry)) }
{
    command.arg(argument)
}

/// The command over which the words are read.
fn make_command<'a>(alloc: Global) -> Result<Command<'a>, AllocError>
    ensures { IfOk result (λ c. app_of c ≡ simple_command) }
{
    let command = with_argument(bare_command(alloc), number_option(alloc))?;
    let command = with_argument(command, long_option(alloc, "--conflicts", "conflicts"))?;
    let command = with_argument(command, long_option(alloc, "--min-int", "min-int"))?;
    let command = with_argument(command, long_option(alloc, "--max-int", "max-int"))?;
    let command = with_argument(
        command,
        long_option(alloc, "--ground-limit", "ground-limit"),
    )?;
    let command = with_argument(command, long_option(alloc, "--proof", "proof"))?;
    with_argument(command, file_words(alloc))
}

/// Which refusal an error of the parse is.
fn stop_of(error: &Error) -> WordsStop
    ensures { (result ≡ WordsStop.Usage) → ¬ (kind_of error.now ≡ OutOfMemory) }
{
    if error.kind() == ErrorKind::OutOfMemory {
        WordsStop::Memory
    } else {
        WordsStop::Usage
    }
}

/// The matches of the words, where `clap` takes them.
fn matches_of<'a>(alloc: Global, words: &'a [String]) -> Result<ArgMatches<'a>, WordsStop>
    ensures rows { IfOk result (λ m. rows_of (found_of m) ≡ matches_of simple_command (map string_bytes words.entry.now)) }
    ensures taken { IfOk result (λ m. fault_of simple_command (map string_bytes words.entry.now) ≡ []) }
    ensures refused { IfErr result (λ e. e ≡ WordsStop.Usage → ¬ (fault_of simple_command (map string_bytes words.entry.now) ≡ [])) }
{
    let command = match make_command(alloc) {
        Ok(command) => command,
        Err(_) => return Err(WordsStop::Memory),
    };
    match command.try_get_matches_from(words) {
        Ok(matches) => Ok(matches),
        Err(error) => Err(stop_of(&error)),
    }
}

/// The matches of words that are the program's: those of a form, with each option at most once.
pub fn read_words<'a>(
    alloc: Global,
    program: Program,
    words: &'a [String],
) -> Result<ArgMatches<'a>, WordsStop>
    ensures read { IfOk result (λ m. IsReadAs (pieces_of (options_of program) (map string_bytes words.entry.now)) (rows_of (found_of m))) }
    ensures refused { IfErr result (λ e. e ≡ WordsStop.Usage → pieces_of (options_of program) (map string_bytes words.entry.now) ≡ None) }
{
    if !have_form(program, words) {
        return Err(WordsStop::Usage);
    }
    matches_of(alloc, words)
}

/// The value of an option, where it is given.
pub fn option_text<'a>(matches: &ArgMatches<'a>, option: &str) -> Option<&'a str>
    ensures { option_map (λ s. s.now) result ≡ first_of option.now (rows_of (found_of matches.now)) }
{
    matches.get_str(option)
}

/// The FILEs, where there are some.
pub fn file_texts<'m, 'a>(matches: &'m ArgMatches<'a>) -> Option<&'m [&'a str]>
    ensures { option_map (λ s. map (λ v. v.now) s.now) result ≡ all_of (codes "FILE") (rows_of (found_of matches.now)) }
{
    matches.get_strs("FILE")
}
