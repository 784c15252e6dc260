//! The words of the command line, read by `clap`.
ghost use Rattle.std.specs.Prelude.{◌≡◌, IfOk, codes, map, option_map, option_and_then, false};
ghost use Rattle.clap.specs.Words.{app_of, first_of, rule_of, subcommand_rows_of, with_subcommand};
ghost use Rattle.eo_main.specs.CommandLine as line;
ghost use Rattle.eo_main.specs.Words.{rows_in};

use crate::Request;
use clap::error::ErrorKind;
use clap::{Arg, ArgAction, ArgMatches, Command};
use eo_base::{Text, ok_with};
use eo_lit::read_numeral;
use eo_run::CheckJob;
use std::alloc::{AllocError, Global};

/// The most hops of a bench.
const BENCH_LIMIT: u128 = 100_000;

/// Reads the words after the first, which is the program's name and may be any:
///
/// - `check [--include=F] [--reference=F] [--closed] PROOF`
/// - `load FILE`
/// - `bench N`, with N from 1 to 100,000 in digits without sign and without a leading zero
/// - `show FILE NAME`
/// - `trim [--include=F] [--reference=F] [--closed] PROOF`
/// - `prove --reference=F PROOF`
///
/// A value F may also be the next word. Options and PROOF come in any order, and each option at most
/// once. After `--` each word is PROOF, FILE, N or NAME. All other words have no reading, a request for help
/// among them. `Err` is out of memory.
pub fn read_words(alloc: Global, words: &[Text]) -> Result<Option<Request>, AllocError>
    ensures { IfOk result (λ reading. reading ≡ line.request words.now) }
{
    let texts = texts_of(alloc, words)?;
    match program(alloc)?.try_get_matches_from(texts.as_slice()) {
        Ok(matches) => request_of(alloc, &matches),
        Err(error) => match error.kind() {
            ErrorKind::OutOfMemory => Err(AllocError),
            _ => Ok(None),
        },
    }
}

/// The words as `clap` takes them.
fn texts_of<'a>(alloc: Global, words: &'a [Text]) -> Result<Vec<&'a str>, AllocError>
    ensures { IfOk result (λ texts. map (λ text. text.now) texts.items ≡ words.now) }
{
    let mut texts = Vec::new(alloc);
    for word in words {
        texts.push(word.as_str())?;
    }
    Ok(texts)
}

// ---- the command

/// The command `ethos`, with one of its six.
fn program<'a>(alloc: Global) -> Result<Command<'a>, AllocError>
    ensures { IfOk result (λ command. app_of command ≡ line.program) }
{
    let alone = Command::new(alloc, "ethos").subcommand_required(true);
    let ethos = with_job(alloc, alone, "check")?;
    let ethos = with_command(alloc, ethos, "load", "FILE")?;
    let ethos = with_command(alloc, ethos, "bench", "N")?;
    let ethos = with_show(alloc, ethos)?;
    let ethos = with_job(alloc, ethos, "trim")?;
    with_prove(alloc, ethos)
}

/// The command, and below it one of this name that takes a job.
fn with_job<'a>(
    alloc: Global,
    command: Command<'a>,
    name: &'a str,
) -> Result<Command<'a>, AllocError>
    ensures { IfOk result (λ with. app_of with ≡ with_subcommand (app_of command.entry) (line.taking_job name.entry.now).top) }
{
    let begun = Command::new(alloc, name).arg(value_option(alloc, "include"));
    let (begun, above) = ok_with(begun, command)?;
    let referring = begun.arg(value_option(alloc, "reference"));
    let (referring, above) = ok_with(referring, above)?;
    let closing = referring.arg(flag(alloc, "closed"));
    let (closing, above) = ok_with(closing, above)?;
    let whole = closing.arg(positional(alloc, "PROOF"));
    let (job, above) = ok_with(whole, above)?;
    above.subcommand(job)
}

/// The command, and below it one of this name that takes a word.
fn with_command<'a>(
    alloc: Global,
    command: Command<'a>,
    name: &'a str,
    word: &'a str,
) -> Result<Command<'a>, AllocError>
    ensures { IfOk result (λ with. app_of with ≡ with_subcommand (app_of command.entry) (line.taking name.entry.now word.entry.now).top) }
{
    let below = Command::new(alloc, name).arg(positional(alloc, word));
    let (below, above) = ok_with(below, command)?;
    above.subcommand(below)
}

/// The command, and below it the one that shows a value.
fn with_show<'a>(alloc: Global, command: Command<'a>) -> Result<Command<'a>, AllocError>
    ensures { IfOk result (λ with. app_of with ≡ with_subcommand (app_of command.entry) line.show_command.top) }
{
    let begun = Command::new(alloc, "show").arg(positional(alloc, "FILE"));
    let (begun, above) = ok_with(begun, command)?;
    let whole = begun.arg(positional(alloc, "NAME"));
    let (show, above) = ok_with(whole, above)?;
    above.subcommand(show)
}

/// The command, and below it the one that proves that assertions have no model.
fn with_prove<'a>(alloc: Global, command: Command<'a>) -> Result<Command<'a>, AllocError>
    ensures { IfOk result (λ with. app_of with ≡ with_subcommand (app_of command.entry) line.prove_command.top) }
{
    let begun = Command::new(alloc, "prove").arg(required_valued(alloc, "reference"));
    let (begun, above) = ok_with(begun, command)?;
    let whole = begun.arg(positional(alloc, "PROOF"));
    let (prove, above) = ok_with(whole, above)?;
    above.subcommand(prove)
}

/// `--name=VALUE` or `--name VALUE`
fn value_option<'a>(alloc: Global, name: &'a str) -> Arg<'a>
    ensures rule { rule_of result ≡ line.valued name.entry.now }
    ensures local { result.global ≡ false }
{
    Arg::new(alloc, name).long(name).action(ArgAction::Set)
}

/// The same, where it has to be there.
fn required_valued<'a>(alloc: Global, name: &'a str) -> Arg<'a>
    ensures rule { rule_of result ≡ line.required_valued name.entry.now }
    ensures local { result.global ≡ false }
{
    value_option(alloc, name).required(true)
}

/// `--name`
fn flag<'a>(alloc: Global, name: &'a str) -> Arg<'a>
    ensures rule { rule_of result ≡ line.flag name.entry.now }
    ensures local { result.global ≡ false }
{
    Arg::new(alloc, name).long(name).action(ArgAction::SetTrue)
}

/// A word that has to be there.
fn positional<'a>(alloc: Global, name: &'a str) -> Arg<'a>
    ensures rule { rule_of result ≡ line.positional name.entry.now }
    ensures local { result.global ≡ false }
{
    Arg::new(alloc, name).required(true).action(ArgAction::Set)
}

// ---- what was found

/// What the command among the words asks for. `Err` is out of memory.
fn request_of(alloc: Global, matches: &ArgMatches<'_>) -> Result<Option<Request>, AllocError>
    ensures { IfOk result (λ reading. reading ≡ option_and_then line.request_of (subcommand_rows_of matches.now)) }
{
    match matches.subcommand() {
        Some(("check", found)) => check_of(alloc, found),
        Some(("load", found)) => load_of(alloc, found),
        Some(("bench", found)) => Ok(bench_of(found)),
        Some(("show", found)) => show_of(alloc, found),
        Some(("trim", found)) => trim_of(alloc, found),
        Some(("prove", found)) => prove_of(alloc, found),
        _ => Ok(None),
    }
}

fn check_of(alloc: Global, found: &ArgMatches<'_>) -> Result<Option<Request>, AllocError>
    ensures { IfOk result (λ reading. reading ≡ line.check_of (rows_in found.now)) }
{
    match job_in(alloc, found)? {
        Some(job) => Ok(Some(Request::Check(job))),
        None => Ok(None),
    }
}

fn trim_of(alloc: Global, found: &ArgMatches<'_>) -> Result<Option<Request>, AllocError>
    ensures { IfOk result (λ reading. reading ≡ line.trim_of (rows_in found.now)) }
{
    match job_in(alloc, found)? {
        Some(job) => Ok(Some(Request::Trim(job))),
        None => Ok(None),
    }
}

fn load_of(alloc: Global, found: &ArgMatches<'_>) -> Result<Option<Request>, AllocError>
    ensures { IfOk result (λ reading. reading ≡ line.load_of (rows_in found.now)) }
{
    match value_of(found, "FILE") {
        Some(file) => Ok(Some(Request::Load(Text::new(alloc, file)?))),
        None => Ok(None),
    }
}

fn bench_of(found: &ArgMatches<'_>) -> Option<Request>
    ensures { result ≡ line.bench_of (rows_in found.now) }
{
    let word = value_of(found, "N")?;
    Some(Request::Bench(bench_size(word.as_bytes())?))
}

fn show_of(alloc: Global, found: &ArgMatches<'_>) -> Result<Option<Request>, AllocError>
    ensures { IfOk result (λ reading. reading ≡ line.show_of (rows_in found.now)) }
{
    match value_of(found, "FILE") {
        Some(file) => named_of(alloc, found, file),
        None => Ok(None),
    }
}

/// The value of the name among these words is to be shown, in this file.
fn named_of(
    alloc: Global,
    found: &ArgMatches<'_>,
    file: &str,
) -> Result<Option<Request>, AllocError>
    ensures { IfOk result (λ reading. reading ≡ option_map (Request.Show file.now) (first_of (codes "NAME") (rows_in found.now))) }
{
    match value_of(found, "NAME") {
        Some(name) => Ok(Some(Request::Show {
            file: Text::new(alloc, file)?,
            name: Text::new(alloc, name)?,
        })),
        None => Ok(None),
    }
}

fn prove_of(alloc: Global, found: &ArgMatches<'_>) -> Result<Option<Request>, AllocError>
    ensures { IfOk result (λ reading. reading ≡ line.prove_of (rows_in found.now)) }
{
    match value_of(found, "reference") {
        Some(reference) => proof_of(alloc, found, reference),
        None => Ok(None),
    }
}

/// The proof among these words is to be checked against this reference file.
fn proof_of(
    alloc: Global,
    found: &ArgMatches<'_>,
    reference: &str,
) -> Result<Option<Request>, AllocError>
    ensures { IfOk result (λ reading. reading ≡ option_map (Request.Prove reference.now) (first_of (codes "PROOF") (rows_in found.now))) }
{
    match value_of(found, "PROOF") {
        Some(proof) => Ok(Some(Request::Prove {
            reference: Text::new(alloc, reference)?,
            proof: Text::new(alloc, proof)?,
        })),
        None => Ok(None),
    }
}

/// The size of a bench, where it has these digits.
fn bench_size(digits: &[u8]) -> Option<u32>
    ensures { result ≡ line.bench_size digits.now }
{
    let n = read_numeral(digits)?;
    if n < 1 || n > BENCH_LIMIT {
        return None;
    }
    Some(n as u32)
}

/// The job that these words name, if they name its proof.
fn job_in(alloc: Global, found: &ArgMatches<'_>) -> Result<Option<CheckJob>, AllocError>
    ensures { IfOk result (λ job. job ≡ line.job_in (rows_in found.now)) }
{
    match value_of(found, "PROOF") {
        Some(proof) => Ok(Some(job_of(alloc, found, proof)?)),
        None => Ok(None),
    }
}

/// The job of checking this proof.
fn job_of(alloc: Global, found: &ArgMatches<'_>, proof: &str) -> Result<CheckJob, AllocError>
    ensures { IfOk result (λ job. job ≡ line.job_of (rows_in found.now) proof.now) }
{
    Ok(CheckJob {
        include: text_of(alloc, found, "include")?,
        reference: text_of(alloc, found, "reference")?,
        proof: Text::new(alloc, proof)?,
        closed: is_set(found, "closed"),
    })
}

/// The value of an option, as a text of its own.
fn text_of(alloc: Global, found: &ArgMatches<'_>, name: &str) -> Result<Option<Text>, AllocError>
    ensures { IfOk result (λ text. text ≡ first_of name.now (rows_in found.now)) }
{
    match value_of(found, name) {
        Some(value) => Ok(Some(Text::new(alloc, value)?)),
        None => Ok(None),
    }
}

/// Whether a flag is among the words: `clap` gives it the text `true` if it is, and else `false`.
fn is_set(found: &ArgMatches<'_>, name: &str) -> bool
    ensures { result ≡ line.is_set name.now (rows_in found.now) }
{
    matches!(value_of(found, name), Some("true"))
}

/// The value of an argument.
fn value_of<'a>(found: &ArgMatches<'a>, name: &str) -> Option<&'a str>
    ensures { option_map (λ value. value.now) result ≡ first_of name.now (rows_in found.now) }
{
    found.get_str(name)
}
