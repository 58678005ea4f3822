//! The words of the command line.
ghost use Rattle.std.specs.Prelude.{◌≡◌, ◌↔◌, ℕ, false, List, [], ◌∷◌, ◌≢◌, Some, None, Err, IfOk, codes, map, option_map, string_bytes};
ghost use Rattle.std.specs.List.{AllByRecursion};
ghost use Rattle.clap.specs.Words.{fault_of, first_of, found_of, rows_of, subcommand_of, subcommand_rows_of};
ghost use Rattle.clap.specs.declared.error.kind.ErrorKind.TheVariants.{OutOfMemory};
ghost use Rattle.cluster_config.specs.declared.job.Job.{Job};
ghost use Rattle.cluster_config.specs.Command.{ritas};
ghost use Rattle.cluster_config.specs.Words.{alone_named, drive_named, is_hyphened, job_met, job_named, job_of, list_of, replay_named};

use crate::command::ritas;
use crate::job::Job;
use clap::ArgMatches;
use clap::error::ErrorKind;
use ritas_base::{DriveWhat, What};
use std::alloc::Global;

/// Why the words name no job.
#[derive(Clone, Copy, Debug, PartialEq, Eq)]
pub enum WordsFault {
    /// The command doesn't take them, or their value isn't one that it may be.
    Usage,
    /// There was not enough memory.
    Mem,
}

fn replay_named(value: &str) -> Option<Job>
    ensures { result ≡ replay_named (Some value.now) }
{
    if value == "report" {
        Some(Job::Replay(What::Report))
    } else if value == "frames" {
        Some(Job::Replay(What::Frames))
    } else if value == "vectors" {
        Some(Job::Replay(What::Vectors))
    } else {
        None
    }
}

fn drive_named(value: &str) -> Option<Job>
    ensures { result ≡ drive_named (Some value.now) }
{
    if value == "report" {
        Some(Job::Drive(DriveWhat::Report))
    } else if value == "schedule" {
        Some(Job::Drive(DriveWhat::Schedule))
    } else {
        None
    }
}

fn alone_named(name: &str) -> Option<Job>
    ensures { result ≡ alone_named name.now }
{
    if name == "keys" {
        Some(Job::Keys)
    } else if name == "node" {
        Some(Job::Node)
    } else if name == "cluster" {
        Some(Job::Cluster)
    } else if name == "submit" {
        Some(Job::Submit)
    } else if name == "watch" {
        Some(Job::Watch)
    } else {
        None
    }
}

fn job_named(name: &str, value: Option<&str>) -> Option<Job>
    ensures { result ≡ job_named name.now (option_map (λ s. s.now) value.entry) }
{
    if name == "replay" {
        replay_named(value?)
    } else if name == "drive" {
        drive_named(value?)
    } else {
        alone_named(name)
    }
}

// The value of the subcommand, if it has one.
fn value_of<'a>(matches: &ArgMatches<'a>) -> Option<&'a str>
    ensures { option_map (λ s. s.now) result ≡ first_of (codes "what") (rows_of (found_of matches.now)) }
{
    matches.get_str("what")
}

fn job_met(matches: &ArgMatches<'_>) -> Option<Job>
    ensures { result ≡ job_met (subcommand_rows_of matches.now) }
{
    let (name, inner) = matches.subcommand()?;
    job_named(name, value_of(inner))
}

// Want of memory is answered `Mem`, and any other error `Usage`.
fn fault_of(kind: ErrorKind) -> WordsFault
    ensures usage { result ≡ WordsFault.Usage → kind ≢ OutOfMemory }
    ensures memory { result ≡ WordsFault.Mem → kind ≡ OutOfMemory }
{
    if kind == ErrorKind::OutOfMemory {
        WordsFault::Mem
    } else {
        WordsFault::Usage
    }
}

// What the command makes of the words, where it takes them.
fn parse<'a>(alloc: Global, words: &'a [String]) -> Result<ArgMatches<'a>, WordsFault>
    ensures ok { IfOk result (λ m. (fault_of ritas (map string_bytes words.entry.now) ≡ []) × (subcommand_rows_of m ≡ subcommand_of ritas (map string_bytes words.entry.now))) }
    ensures usage { result ≡ Err WordsFault.Usage → fault_of ritas (map string_bytes words.entry.now) ≢ [] }
{
    let command = match ritas(alloc) {
        Ok(command) => command,
        Err(_) => return Err(WordsFault::Mem),
    };
    match command.try_get_matches_from(words) {
        Ok(matches) => Ok(matches),
        Err(error) => Err(fault_of(error.kind())),
    }
}

/// The job that the words of a command line name. The first word is the program's own name, which isn't looked at.
///
/// `Usage` is answered where the command doesn't take the words for another cause than memory, or they name no job.
#[tactic(auto, using(crate::proofs::Jobs::taken, crate::proofs::Jobs::refused))]
pub fn read_words(alloc: Global, words: &Vec<String>) -> Result<Job, WordsFault>
    ensures job { IfOk result (λ job. job_of (map string_bytes words.now.items) ≡ Some job) }
    ensures usage { result ≡ Err WordsFault.Usage → job_of (map string_bytes words.now.items) ≡ None }
{
    let matches = parse(alloc, words.as_slice())?;
    match job_met(&matches) {
        Some(job) => Ok(job),
        None => Err(WordsFault::Usage),
    }
}

/// Where no word after the program's name begins with a hyphen, the words name a job exactly where they are its list.
///
/// It does nothing: its contract is the law.
pub fn words_law()
    ensures { (name : List ℕ) (words : List (List ℕ)) (job : Job) → AllByRecursion (λ w. is_hyphened w ≡ false) words
        → (job_of (name ∷ words) ≡ Some job) ↔ (words ≡ list_of job) }
{}
