//! The settings of both programs, from their words.
ghost use Rattle.std.specs.Prelude.{◌≡◌, pos, negsuc, ◌≤ℤ◌, IfOk, IfErr, None, Some, map, string_bytes};
ghost use Rattle.clap.specs.Walk.{first_of};
ghost use Rattle.clap.specs.Words.{rows_of, found_of};
ghost use Rattle.command_words.specs.Numbers.{number_within, integer_within};
ghost use Rattle.command_words.specs.Settings.{optional, defaulted, ordered, ordered_if_named, few_files, solver_settings_of, solver_reading_of, checker_settings_of, checker_reading_of};
ghost use Rattle.command_words.specs.inner.Found.{ends_found, named_ends_found, files_found, solver_found, checker_found};

use crate::command::{file_texts, option_text, read_words};
use crate::numbers::{end_in, number_in};
use crate::program::Program;
use crate::settings::{CheckerSettings, SolverSettings};
use crate::stop::WordsStop;
use clap::ArgMatches;
use std::alloc::Global;
use symbols::limits::{DEFAULT_GROUND_LIMIT, MAX_END, MAX_FILES, MAX_GROUND_LIMIT, MIN_END};
use symbols::{Ends, Listed, Memory};

/// The number that an option is given, if it is.
fn number_given(
    matches: &ArgMatches,
    option: &str,
    low: u64,
    high: u64,
) -> Result<Option<u64>, WordsStop>
    ensures ok { IfOk result (λ n. optional (number_within low high) (first_of option.now (rows_of (found_of matches.now))) ≡ Some n) }
    ensures usage { IfErr result (λ _. optional (number_within low high) (first_of option.now (rows_of (found_of matches.now))) ≡ None) }
{
    match option_text(matches, option) {
        None => Ok(None),
        Some(text) => match number_in(text, low, high) {
            Some(number) => Ok(Some(number)),
            None => Err(WordsStop::Usage),
        },
    }
}

/// The number that an option is given, or its default.
fn number_or(
    matches: &ArgMatches,
    option: &str,
    default: u64,
    low: u64,
    high: u64,
) -> Result<u64, WordsStop>
    ensures ok { IfOk result (λ n. defaulted default (number_within low high) (first_of option.now (rows_of (found_of matches.now))) ≡ Some n) }
    ensures usage { IfErr result (λ _. defaulted default (number_within low high) (first_of option.now (rows_of (found_of matches.now))) ≡ None) }
{
    match option_text(matches, option) {
        None => Ok(default),
        Some(text) => match number_in(text, low, high) {
            Some(number) => Ok(number),
            None => Err(WordsStop::Usage),
        },
    }
}

/// The end that an option names, if it is given.
fn end_given(matches: &ArgMatches, option: &str) -> Result<Option<i32>, WordsStop>
    ensures ok { IfOk result (λ end. optional (integer_within 1073741823) (first_of option.now (rows_of (found_of matches.now))) ≡ Some end) }
    ensures usage { IfErr result (λ _. optional (integer_within 1073741823) (first_of option.now (rows_of (found_of matches.now))) ≡ None) }
{
    match option_text(matches, option) {
        None => Ok(None),
        Some(text) => match end_in(text) {
            Some(end) => Ok(Some(end)),
            None => Err(WordsStop::Usage),
        },
    }
}

/// The end that an option names, or its default.
fn end_or(matches: &ArgMatches, option: &str, default: i32) -> Result<i32, WordsStop>
    requires low { negsuc 1073741822 ≤ℤ default }
    requires high { default ≤ℤ pos 1073741823 }
    ensures ok { IfOk result (λ end. defaulted default (integer_within 1073741823) (first_of option.now (rows_of (found_of matches.now))) ≡ Some end) }
    ensures usage { IfErr result (λ _. defaulted default (integer_within 1073741823) (first_of option.now (rows_of (found_of matches.now))) ≡ None) }
    ensures low { IfOk result (λ end. negsuc 1073741822 ≤ℤ end) }
    ensures high { IfOk result (λ end. end ≤ℤ pos 1073741823) }
{
    match option_text(matches, option) {
        None => Ok(default),
        Some(text) => match end_in(text) {
            Some(end) => Ok(end),
            None => Err(WordsStop::Usage),
        },
    }
}

/// The ends of the integer variables, by default the widest.
fn ends_or_widest(matches: &ArgMatches) -> Result<Ends, WordsStop>
    ensures ok { IfOk result (λ ends. ends_found (rows_of (found_of matches.now)) ≡ Some (ends.min, ends.max)) }
    ensures usage { IfErr result (λ _. ends_found (rows_of (found_of matches.now)) ≡ None) }
{
    let min = end_or(matches, "--min-int", MIN_END)?;
    let max = end_or(matches, "--max-int", MAX_END)?;
    if min <= max {
        Ok(Ends { min, max })
    } else {
        Err(WordsStop::Usage)
    }
}

/// The ends that the words name.
fn ends_named(matches: &ArgMatches) -> Result<(Option<i32>, Option<i32>), WordsStop>
    ensures ok { IfOk result (λ ends. named_ends_found (rows_of (found_of matches.now)) ≡ Some (ends.0, ends.1)) }
    ensures usage { IfErr result (λ _. named_ends_found (rows_of (found_of matches.now)) ≡ None) }
{
    let min = end_given(matches, "--min-int")?;
    let max = end_given(matches, "--max-int")?;
    match (min, max) {
        (Some(least), Some(greatest)) if greatest < least => Err(WordsStop::Usage),
        _ => Ok((min, max)),
    }
}

/// A list of these FILEs, where they are not too many.
fn list_files<'a>(alloc: Global, files: &[&'a str]) -> Result<Listed<&'a str>, WordsStop>
    ensures ok { IfOk result (λ list. few_files (map (λ v. v.now) files.now) ≡ Some (map (λ v. v.now) list)) }
    ensures usage { IfErr result (λ e. e ≡ WordsStop.Usage → few_files (map (λ v. v.now) files.now) ≡ None) }
{
    if files.len() > MAX_FILES {
        return Err(WordsStop::Usage);
    }
    match Listed::from_slice(alloc, files) {
        Ok(list) => Ok(list),
        Err(Memory) => Err(WordsStop::Memory),
    }
}

/// The FILEs of the words, where they are not too many.
fn files_given<'a>(alloc: Global, matches: &ArgMatches<'a>) -> Result<Listed<&'a str>, WordsStop>
    ensures ok { IfOk result (λ list. few_files (files_found (rows_of (found_of matches.now))) ≡ Some (map (λ v. v.now) list)) }
    ensures usage { IfErr result (λ e. e ≡ WordsStop.Usage → few_files (files_found (rows_of (found_of matches.now))) ≡ None) }
{
    match file_texts(matches) {
        Some(files) => list_files(alloc, files),
        None => Ok(Listed::new(alloc)),
    }
}

/// The settings of `clingcon` that the matches hold.
fn solver_found<'a>(
    alloc: Global,
    matches: &ArgMatches<'a>,
) -> Result<SolverSettings<'a>, WordsStop>
    ensures ok { IfOk result (λ settings. solver_found (rows_of (found_of matches.now)) ≡ Some (solver_reading_of settings)) }
    ensures usage { IfErr result (λ e. e ≡ WordsStop.Usage → solver_found (rows_of (found_of matches.now)) ≡ None) }
{
    let answers = number_given(matches, "-n", 0, u64::MAX)?;
    let conflicts = number_or(matches, "--conflicts", u64::MAX, 1, u64::MAX)?;
    let ends = ends_or_widest(matches)?;
    let ground_limit = number_or(
        matches,
        "--ground-limit",
        DEFAULT_GROUND_LIMIT,
        1,
        MAX_GROUND_LIMIT,
    )?;
    let files = files_given(alloc, matches)?;
    Ok(SolverSettings {
        answers,
        conflicts,
        ends,
        ground_limit,
        proof: option_text(matches, "--proof"),
        files,
    })
}

/// The settings of `clingcheck` that the matches hold.
fn checker_found<'a>(
    alloc: Global,
    matches: &ArgMatches<'a>,
) -> Result<CheckerSettings<'a>, WordsStop>
    ensures ok { IfOk result (λ settings. checker_found (rows_of (found_of matches.now)) ≡ Some (checker_reading_of settings)) }
    ensures usage { IfErr result (λ e. e ≡ WordsStop.Usage → checker_found (rows_of (found_of matches.now)) ≡ None) }
{
    let (min, max) = ends_named(matches)?;
    match file_texts(matches) {
        Some([proof, rest @ ..]) => {
            let files = list_files(alloc, rest)?;
            Ok(CheckerSettings {
                min,
                max,
                proof,
                files,
            })
        }
        _ => Err(WordsStop::Usage),
    }
}

/// The settings of `clingcon`, where the words have some.
pub fn solver_settings<'a>(
    alloc: Global,
    words: &'a [String],
) -> Result<SolverSettings<'a>, WordsStop>
    ensures ok { IfOk result (λ settings. solver_settings_of (map string_bytes words.entry.now) ≡ Some (solver_reading_of settings)) }
    ensures usage { IfErr result (λ e. e ≡ WordsStop.Usage → solver_settings_of (map string_bytes words.entry.now) ≡ None) }
{
    match read_words(alloc, Program::Solver, words) {
        Ok(matches) => solver_found(alloc, &matches),
        Err(stop) => Err(stop),
    }
}

/// The settings of `clingcheck`, where the words have some.
pub fn checker_settings<'a>(
    alloc: Global,
    words: &'a [String],
) -> Result<CheckerSettings<'a>, WordsStop>
    ensures ok { IfOk result (λ settings. checker_settings_of (map string_bytes words.entry.now) ≡ Some (checker_reading_of settings)) }
    ensures usage { IfErr result (λ e. e ≡ WordsStop.Usage → checker_settings_of (map string_bytes words.entry.now) ≡ None) }
{
    match read_words(alloc, Program::Checker, words) {
        Ok(matches) => checker_found(alloc, &matches),
        Err(stop) => Err(stop),
    }
}
