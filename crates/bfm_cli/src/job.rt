ghost use Rattle.std.specs.Prelude.{◌≡◌, ◌<◌, [], length, map, IfOk, IfSome, string_bytes};
ghost use Rattle.bfm_cli.specs.Start.{IsStart};
ghost use Rattle.bfm_cli.specs.Job.{ask_of, build_of, job_of, look_keys, look_of, run_keys, run_of, run_switches, started, trial_keys, trial_of, IsInRange};
ghost use Rattle.bfm_cli.specs.Words.{first_wrong};

use crate::start::{BRUSH_KEYS, MELT_KEYS, NETWORK_KEYS, Start, brush_in, melt_in, network_in};
use crate::words::{Key, Switch, first_wrong, is_on, number_for};
use bfm_base::limits::{GREATEST_LIMIT, MOST_FRAMES, MOST_SWEEPS, USUAL_LIMIT};
use bfm_session::{Ask, RunOrder};

/// What the program is asked to do.
#[derive(Clone, Copy, Debug, PartialEq, Eq)]
pub enum Job {
    /// A file is read first.
    File(FileJob),
    Build(Start),
    /// Some sweeps of one melt, with this number as the seed.
    Trial { number: u64 },
}

/// What is done with a file that was read.
#[derive(Clone, Copy, Debug, PartialEq, Eq)]
pub enum FileJob {
    Run(RunOrder),
    /// An analysis of the file, of which at most `limit` bytes are read, 0 to 2^30.
    Look { ask: Ask, limit: u64 },
}

const SEED: Key = Key {
    name: "seed",
    least: 0,
    greatest: u64::MAX,
    usual: None,
};

const NUMBER: Key = Key {
    name: "number",
    ..SEED
};

const FRAMES: Key = Key {
    name: "frames",
    least: 0,
    greatest: MOST_FRAMES,
    usual: None,
};

const EVERY: Key = Key {
    name: "every",
    least: 1,
    greatest: MOST_SWEEPS,
    usual: None,
};

const LIMIT: Key = Key {
    name: "limit",
    least: 0,
    greatest: GREATEST_LIMIT,
    usual: Some(USUAL_LIMIT),
};

const LINK: Switch = Switch {
    name: "link",
    on: "on",
    off: "off",
};

/// The job that the words after the program's name ask for, or the number of the first wrong word,
/// from 1: a word that names no job or no start, that is not `key=number` or `switch=state` with a
/// key or a switch of the job, that repeats one, or whose number is out of range. Where a key is
/// missing that has no usual number, or the numbers of a start do not go together, it is the number
/// of words plus 1.
pub fn job_of(words: &[String]) -> Result<Job, u64>
    ensures job { result ≡ job_of (map string_bytes words.now) }
    ensures ranges { IfOk result IsInRange }
{
    let Some((name, words)) = words.split_first() else {
        return Err(1);
    };
    if name.as_str() == "run" {
        run_of(words)
    } else if name.as_str() == "build" {
        build_of(words)
    } else if name.as_str() == "trial" {
        trial_of(words)
    } else {
        let ask = ask_of(name.as_str()).ok_or(1u64)?;
        look_of(ask, words)
    }
}

/// What the name of a job asks of a file.
fn ask_of(name: &str) -> Option<Ask>
    ensures { result ≡ ask_of name.now }
{
    if name == "check" {
        Some(Ask::Check)
    } else if name == "info" {
        Some(Ask::Info)
    } else if name == "radii" {
        Some(Ask::Radii)
    } else if name == "moves" {
        Some(Ask::Moves)
    } else if name == "contacts" {
        Some(Ask::Contacts)
    } else if name == "clusters" {
        Some(Ask::Clusters)
    } else {
        None
    }
}

/// The analysis whose name stands before these words.
fn look_of(ask: Ask, words: &[String]) -> Result<Job, u64>
    ensures job { result ≡ look_of ask (map string_bytes words.now) (first_wrong look_keys [] [] (map string_bytes words.now)) }
    ensures ranges { IfOk result IsInRange }
{
    if let Some(before) = first_wrong(&[LIMIT], &[], words) {
        return Err(before + 2);
    }
    let missing = words.len() as u64 + 2;
    let limit = number_for(&LIMIT, words).ok_or(missing)?;
    Ok(Job::File(FileJob::Look { ask, limit }))
}

/// The run that the words after the job's name ask for.
fn run_of(words: &[String]) -> Result<Job, u64>
    ensures job { result ≡ run_of (map string_bytes words.now) (first_wrong run_keys run_switches [] (map string_bytes words.now)) }
    ensures ranges { IfOk result IsInRange }
{
    if let Some(before) = first_wrong(&[SEED, FRAMES, EVERY, LIMIT], &[LINK], words) {
        return Err(before + 2);
    }
    let missing = words.len() as u64 + 2;
    let seed = number_for(&SEED, words).ok_or(missing)?;
    let frames = number_for(&FRAMES, words).ok_or(missing)?;
    let every = number_for(&EVERY, words).ok_or(missing)?;
    let limit = number_for(&LIMIT, words).ok_or(missing)?;
    Ok(Job::File(FileJob::Run(RunOrder {
        seed,
        frames,
        every,
        linking: is_on(&LINK, words),
        limit,
    })))
}

/// The trial that the words after the job's name ask for.
fn trial_of(words: &[String]) -> Result<Job, u64>
    ensures job { result ≡ trial_of (map string_bytes words.now) (first_wrong trial_keys [] [] (map string_bytes words.now)) }
    ensures ranges { IfOk result IsInRange }
{
    if let Some(before) = first_wrong(&[NUMBER], &[], words) {
        return Err(before + 2);
    }
    let missing = words.len() as u64 + 2;
    let number = number_for(&NUMBER, words).ok_or(missing)?;
    Ok(Job::Trial { number })
}

/// The start that the words after `build` ask for.
fn build_of(words: &[String]) -> Result<Job, u64>
    ensures job { result ≡ build_of (map string_bytes words.now) }
    ensures ranges { IfOk result IsInRange }
{
    let Some((kind, words)) = words.split_first() else {
        return Err(2);
    };
    if kind.as_str() == "melt" {
        started(words, first_wrong(&MELT_KEYS, &[], words), melt_in(words))
    } else if kind.as_str() == "network" {
        started(
            words,
            first_wrong(&NETWORK_KEYS, &[], words),
            network_in(words),
        )
    } else if kind.as_str() == "brush" {
        started(words, first_wrong(&BRUSH_KEYS, &[], words), brush_in(words))
    } else {
        Err(2)
    }
}

/// The job that builds a start, by the words behind its kind, of which the first wrong one may have
/// so many before it.
fn started(words: &[String], wrong: Option<u64>, start: Option<Start>) -> Result<Job, u64>
    requires within { IfSome wrong (λ before. before < length words.now) }
    requires range { IfSome start IsStart }
    ensures job { result ≡ started (map string_bytes words.now) wrong start }
    ensures ranges { IfOk result IsInRange }
{
    match (wrong, start) {
        (Some(before), _) => Err(before + 3),
        (None, Some(start)) => Ok(Job::Build(start)),
        (None, None) => Err(words.len() as u64 + 3),
    }
}
