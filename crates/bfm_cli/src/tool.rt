ghost use Rattle.std.specs.Prelude.{◌≡◌, ◌≢◌, ◌≤◌, ◌⊎◌, ℕ, List, Result, codes, length, map, string_bytes, IsErr, IfOk, IfSome, Ok, true};
ghost use Rattle.bfm_base.specs.Account.{Delivered};
ghost use Rattle.bfm_world.specs.Configuration.{IsValid};
ghost use Rattle.std.specs.Io.KnownBytes.{Appends, IsAtEnd};
ghost use Rattle.bfm_base.specs.Faults.{Rose};
ghost use Rattle.bfm_base.specs.declared.limits.TheConstants.{GREATEST_LIMIT, GREATEST_MCS, MOST_FRAMES, MOST_SWEEPS};
ghost use Rattle.crossing_check.specs.declared.judgement.SetVerdict.{SetVerdict};
ghost use Rattle.bfm_commands.specs.Reading.{ArePlaces};
ghost use Rattle.bfm_commands.specs.Verdict.{verdict_of};
ghost use Rattle.bfm_session.specs.Loading.{supply};
ghost use Rattle.bfm_session.specs.Trial.{trial_text};
ghost use Rattle.bfm_session.specs.Written.{IsReadBack};
ghost use Rattle.bfm_cli.specs.Job.{job_of, IsFileJob};
ghost use Rattle.bfm_cli.specs.Start.{need_of, room_of, start_text, trial_world, world_of};
ghost use Rattle.bfm_cli.specs.declared.start.Start.{Start};
ghost use Rattle.bfm_cli.specs.Ending.{report_of, status_of};
ghost use Rattle.bfm_cli.specs.Outcome.{JudgesInput, JudgesSetOf, first_crossing, limit_of, outcome_of};
ghost use Rattle.bfm_cli.specs.Parts.{WroteAsFromEachFront, WroteAsInParts};
ghost use Rattle.bfm_cli.specs.Promise.{DoesAccepted, DoesOver, Holds, Tells, HasFreeSet, HasNoCrossing, HasValidWorlds, NeedsNoInput, scene};
ghost use Rattle.bfm_cli.specs.Shortfall.{CutsInput, CutsOutput, CutsReport, IsCalm, TellsFaults};
ghost use Rattle.bfm_cli.specs.declared.ending.Ending.{Ending};
ghost use Rattle.bfm_cli.specs.declared.ending.Fault.{Fault};

use crate::building::build;
use crate::ending::{Ending, Fault, RunReport};
use crate::job::{FileJob, Job, job_of};
use crate::report::tell;
use crate::status::Status;
use crate::trials::make_trial;
use bfm_base::{Sink, Source};
use bfm_commands::Loaded;
use bfm_session::{Ask, AskFault, LoadFault, RunFault, RunOrder, analyse, load, run};
use std::alloc::Global;

/// Does the job that the words ask for, reports on it and answers how it ended. This is the whole
/// program but for the standard streams.
pub fn run_tool<I: Source, O: Sink, P: Sink>(
    alloc: Global,
    words: &[String],
    input: &mut I,
    output: &mut O,
    report: &mut P,
) -> Status
    // All of it, fault or none: how the job ended over the bytes that were left, what that left of
    // input and output, and what was told of it.
    ensures does { (ended : Result Ending Fault) × DoesOver ended (job_of (map string_bytes words.now))
        (scene (supply (I.left input.old) (I.faults input.old)) (supply (I.left input.new) (I.faults input.new)) (input.new ≡ input.old)
        (O.account output.old) (O.account output.new) (output.new ≡ output.old))
        × Tells ended result (P.account report.old) (P.account report.new) (report.new ≡ report.old) }

    // Without faults the status is that of the outcome, or want of memory. No verdict changes the status.
    ensures outcome { ¬ Rose (I.faults input.old) (I.faults input.new) → ¬ Rose (O.account output.old).faults (O.account output.new).faults
        → ¬ Rose (P.account report.old).faults (P.account report.new).faults
        → IfSome (I.left input.old) (λ bytes. (verdict : SetVerdict) → let outcome = outcome_of (map string_bytes words.now) bytes verdict in
        (result ≡ status_of outcome.ending) ⊎ ((result ≡ Status.Memory) × (status_of outcome.ending ≢ Status.BadWords))) }

    // Done means that all of it was done: the output is whole and flushed, and a job that reads a file has read the whole input.
    ensures done { result ≡ Status.Done → IfSome (I.left input.old) (λ bytes. (verdict : SetVerdict) × JudgesInput (job_of (map string_bytes words.now)) bytes verdict
        × let outcome = outcome_of (map string_bytes words.now) bytes verdict in
        (status_of outcome.ending ≡ Status.Done) × Appends (O.account output.old).taken (O.account output.new).taken outcome.output) }
    ensures done_reads_all { result ≡ Status.Done → NeedsNoInput (job_of (map string_bytes words.now)) ⊎ IsAtEnd (I.left input.new) }
    ensures done_flushes { result ≡ Status.Done → (O.account output.new).flushed ≡ true }

    // Each state of a run that was begun is a valid world, and so is a start that was built.
    ensures states { (result ≡ Status.Done) ⊎ (result ≡ Status.WriteFault) → IfSome (I.left input.old) (λ bytes. HasValidWorlds (job_of (map string_bytes words.now)) bytes) }

    // Where the set of the file is free, no move of a run that was begun takes a bond through another that shares no monomer with
    // it, in any image; nor does one of a run whose report says so.
    ensures uncrossed { (result ≡ Status.Done) ⊎ (result ≡ Status.WriteFault) → IfSome (I.left input.old) (λ bytes. HasFreeSet (verdict_of bytes)
        → HasNoCrossing (job_of (map string_bytes words.now)) bytes) }
    ensures told_free { result ≡ Status.Done → IfSome (I.left input.old) (λ bytes. (verdict : SetVerdict)
        × Delivered (P.account report.old) (P.account report.new) (report_of (outcome_of (map string_bytes words.now) bytes verdict).ending)
        × (verdict ≡ SetVerdict.Free → HasNoCrossing (job_of (map string_bytes words.now)) bytes)) }

    // What a run has written that is done, it would have written in any two parts: a run with some of its frames over the same
    // input, and then one with the others over the output of the first, under a limit that admits that.
    ensures in_parts { result ≡ Status.Done → (order : RunOrder) → job_of (map string_bytes words.now) ≡ Ok (Job.File (FileJob.Run order))
        → IfSome (I.left input.old) (λ bytes. WroteAsInParts order bytes (O.account output.old) (O.account output.new)) }

    // Where what a run wrote was cut at any byte behind the kept part, a run with the missing frames over the rest comes to the very
    // bytes.
    ensures cut { result ≡ Status.Done → (order : RunOrder) → job_of (map string_bytes words.now) ≡ Ok (Job.File (FileJob.Run order))
        → IfSome (I.left input.old) (λ bytes. WroteAsFromEachFront order bytes (O.account output.old) (O.account output.new)) }

    // What needs no input leaves it alone, wrong words and starts. A start that is done was written whole, of a valid world for which
    // there is room, and its file gives that world back.
    ensures unread { NeedsNoInput (job_of (map string_bytes words.now)) → input.new ≡ input.old }
    ensures built { result ≡ Status.Done → (start : Start) → job_of (map string_bytes words.now) ≡ Ok (Job.Build start)
        → (need_of start ≤ room_of start) × IsValid (world_of start) × Delivered (O.account output.old) (O.account output.new) (start_text (world_of start))
        × IsReadBack (world_of start) 0 }

    // A trial that is done was written whole.
    ensures tried { result ≡ Status.Done → (number : ℕ) → job_of (map string_bytes words.now) ≡ Ok (Job.Trial number)
        → Delivered (O.account output.old) (O.account output.new) (trial_text number trial_world) }

    // Two verdicts on the set of one file differ in their weights alone.
    ensures one_verdict { (bytes : List ℕ) (a b : SetVerdict) → JudgesSetOf bytes a → JudgesSetOf bytes b → IfOk (verdict_of bytes) (λ _. first_crossing a ≡ first_crossing b) }

    // Wrong words are told as such, whatever the input holds.
    ensures bad_words { IsErr (job_of (map string_bytes words.now)) → ((result ≡ Status.BadWords) ⊎ (result ≡ Status.ReportFault))
        × (input.new ≡ input.old) × (output.new ≡ output.old) }

    // Where a call failed. The input: nothing was decided before it. The output: a prefix was taken of what a job is to write
    // that is Done. The report: a prefix of it was taken, and all stands of the status that it was to tell.
    ensures read_fault { result ≡ Status.ReadFault → CutsInput (job_of (map string_bytes words.now))
        (scene (supply (I.left input.old) (I.faults input.old)) (supply (I.left input.new) (I.faults input.new)) (input.new ≡ input.old)
        (O.account output.old) (O.account output.new) (output.new ≡ output.old))
        × Delivered (P.account report.old) (P.account report.new) (codes "read\n") }
    ensures write_fault { result ≡ Status.WriteFault → (bytes : List ℕ) × Holds (I.left input.old) bytes × CutsOutput (job_of (map string_bytes words.now)) bytes
        (scene (supply (I.left input.old) (I.faults input.old)) (supply (I.left input.new) (I.faults input.new)) (input.new ≡ input.old)
        (O.account output.old) (O.account output.new) (output.new ≡ output.old))
        × Delivered (P.account report.old) (P.account report.new) (codes "write\n") }
    ensures report_fault { result ≡ Status.ReportFault → CutsReport (job_of (map string_bytes words.now))
        (scene (supply (I.left input.old) (I.faults input.old)) (supply (I.left input.new) (I.faults input.new)) (input.new ≡ input.old)
        (O.account output.old) (O.account output.new) (output.new ≡ output.old))
        (P.account report.old) (P.account report.new) }

    // No fault is passed over: Done means that no call failed, and a count that is greater than before is told.
    ensures done_calm { result ≡ Status.Done → IsCalm
        (scene (supply (I.left input.old) (I.faults input.old)) (supply (I.left input.new) (I.faults input.new)) (input.new ≡ input.old)
        (O.account output.old) (O.account output.new) (output.new ≡ output.old))
        (P.account report.old) (P.account report.new) }
    ensures faults_told { TellsFaults result
        (scene (supply (I.left input.old) (I.faults input.old)) (supply (I.left input.new) (I.faults input.new)) (input.new ≡ input.old)
        (O.account output.old) (O.account output.new) (output.new ≡ output.old))
        (P.account report.old) (P.account report.new) }
{
    let ended = work(alloc, words, input, output);
    tell(&ended, report)
}

/// Does the job that the words ask for.
fn work<I: Source, O: Sink>(
    alloc: Global,
    words: &[String],
    input: &mut I,
    output: &mut O,
) -> Result<Ending, Fault>
    ensures { DoesOver result (job_of (map string_bytes words.now))
        (scene (supply (I.left input.old) (I.faults input.old)) (supply (I.left input.new) (I.faults input.new)) (input.new ≡ input.old)
        (O.account output.old) (O.account output.new) (output.new ≡ output.old)) }
{
    match job_of(words) {
        Ok(Job::File(job)) => do_file(alloc, &job, input, output),
        Ok(Job::Build(start)) => build(alloc, &start, output),
        Ok(Job::Trial { number }) => make_trial(alloc, number, output),
        Err(word) => Ok(Ending::BadWords(word)),
    }
}

/// Reads an input to its end, and does a job with what it holds.
fn do_file<I: Source, O: Sink>(
    alloc: Global,
    job: &FileJob,
    input: &mut I,
    output: &mut O,
) -> Result<Ending, Fault>
    requires { IsFileJob job.now }
    ensures { DoesOver result (Ok (Job.File job.now))
        (scene (supply (I.left input.old) (I.faults input.old)) (supply (I.left input.new) (I.faults input.new)) (input.new ≡ input.old)
        (O.account output.old) (O.account output.new) (output.new ≡ output.old)) }
{
    let limit = limit_of(job);
    match load(alloc, input, limit) {
        Ok((loaded, kept)) => do_accepted(alloc, job, loaded, &kept, output),
        Err(LoadFault::Refused(refused)) => Ok(Ending::BadFile(refused)),
        Err(LoadFault::TooLong) => Ok(Ending::TooLong(limit)),
        Err(LoadFault::ReadFault) => Err(Fault::Read),
        Err(LoadFault::Memory) => Err(Fault::Memory),
    }
}

/// How many bytes of its input a job reads at most, 0 to 2^30.
fn limit_of(job: &FileJob) -> u64
    requires { IsFileJob job.now }
    ensures value { result ≡ limit_of job.now }
    ensures range { result ≤ GREATEST_LIMIT }
{
    match job {
        FileJob::Run(order) => order.limit,
        FileJob::Look { limit, .. } => *limit,
    }
}

/// Does a job with a file that was accepted.
fn do_accepted<O: Sink>(
    alloc: Global,
    job: &FileJob,
    loaded: Loaded,
    kept: &[u8],
    output: &mut O,
) -> Result<Ending, Fault>
    requires range { IsFileJob job.now }
    requires first { ArePlaces (length loaded.world.positions) loaded.first }
    requires mcs { loaded.mcs ≤ GREATEST_MCS }
    ensures { DoesAccepted result job.now loaded kept.now (O.account output.old) (O.account output.new) (output.new ≡ output.old) }
{
    match job {
        FileJob::Run(order) => run_accepted(alloc, order, loaded, kept, output),
        FileJob::Look { ask, .. } => look_at_accepted(alloc, ask, &loaded, output),
    }
}

/// Analyses a file that was accepted.
fn look_at_accepted<O: Sink>(
    alloc: Global,
    ask: &Ask,
    loaded: &Loaded,
    output: &mut O,
) -> Result<Ending, Fault>
    requires { ArePlaces (length loaded.now.world.positions) loaded.now.first }
    ensures { (kept : List ℕ) (limit : ℕ) → DoesAccepted result (FileJob.Look ask.now limit) loaded.now kept (O.account output.old) (O.account output.new) (output.new ≡ output.old) }
{
    match analyse(alloc, loaded, ask, output) {
        Ok(()) => Ok(Ending::Answered),
        Err(AskFault::WriteFault) => Err(Fault::Write),
        Err(AskFault::Memory) => Err(Fault::Memory),
    }
}

/// Runs a file that was accepted.
fn run_accepted<O: Sink>(
    alloc: Global,
    order: &RunOrder,
    loaded: Loaded,
    kept: &[u8],
    output: &mut O,
) -> Result<Ending, Fault>
    requires frames { order.now.frames ≤ MOST_FRAMES }
    requires every { order.now.every ≤ MOST_SWEEPS }
    requires mcs { loaded.mcs ≤ GREATEST_MCS }
    ensures { DoesAccepted result (FileJob.Run order.now) loaded kept.now (O.account output.old) (O.account output.new) (output.new ≡ output.old) }
{
    let (kept_length, skipped) = (loaded.kept, loaded.skipped);
    match run(alloc, loaded, kept, order, output) {
        Ok(done) => Ok(Ending::Ran(RunReport {
            kept: kept_length,
            frames: order.frames,
            mcs: done.mcs,
            skipped,
            tally: done.tally,
            verdict: done.verdict,
        })),
        Err(RunFault::TooFar { mcs, reach }) => Ok(Ending::TooFar { mcs, reach }),
        Err(RunFault::WriteFault) => Err(Fault::Write),
        Err(RunFault::Memory) => Err(Fault::Memory),
    }
}
