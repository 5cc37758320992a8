ghost use Rattle.std.specs.Prelude.{◌≡◌, ℕ, ◌+◌, ◌*◌, ◌≤◌, List, [], ◌++◌, length, take, Ok, IfOk};
ghost use Rattle.bond_set.specs.Crossing.{IsFree};
ghost use Rattle.bfm_base.specs.Account.{Sends, Delivers};
ghost use Rattle.bfm_base.specs.declared.limits.TheConstants.{MOST_FRAMES, MOST_SWEEPS};
ghost use Rattle.bfm_world.specs.Configuration.{reach_of};
ghost use Rattle.crosslink.specs.Log.{IsLogOf, with_pairs};
ghost use Rattle.sweep_run.specs.Sweep.{begun_with, NoMoveCrosses};
ghost use Rattle.bfm_commands.specs.Verdict.{verdict_of};
ghost use Rattle.bfm_writer.specs.Text.{group_text};
ghost use Rattle.bfm_session.specs.Parts.{FinishesFromEachFront, GoesInParts, GoesOn};
ghost use Rattle.bfm_session.specs.Running.{Runs, after_frames, groups_text, run_text};
ghost use Rattle.crossing_check.specs.declared.judgement.SetVerdict.{SetVerdict};

use crate::order::RunOrder;
use bfm_base::limits::{GREATEST_MCS, RUN_REACH};
use bfm_base::{Failed, Sink, send};
use bfm_commands::Loaded;
use bfm_world::Engine;
use bfm_writer::group;
use crossing_check::{SetVerdict, verdict};
use crosslink::BondLog;
use packed_engine::PackedEngine;
use std::alloc::Global;
use sweep_run::{Tally, sweeps};
use thiserror::Error;

/// What a finished run tells of itself.
#[derive(Clone, Copy, Debug, PartialEq, Eq)]
pub struct RunDone {
    /// The last time, in sweeps.
    pub mcs: u64,
    /// How many moves were made, and how many pairs were linked.
    pub tally: Tally,
    /// Whether the set of bond vectors allows a crossing move.
    pub verdict: SetVerdict,
}

/// Why a run was not made, or not written to its end.
#[derive(Debug, Drop, Error)]
pub enum RunFault {
    /// It would pass the greatest time, or might bring a monomer too far from the origin: the last
    /// time, in sweeps, and that reach, in lattice units.
    #[error("TooFar")]
    TooFar { mcs: u128, reach: u128 },
    /// A call of the sink failed.
    #[error("WriteFault")]
    WriteFault,
    /// Want of memory, before the first byte is written.
    #[error("Memory")]
    Memory,
}

/// Runs a file that was loaded. Writes its kept part, and then a group after each `every` sweeps,
/// with the pairs that were linked in them, and flushes. It refuses to begin where it would come too
/// far. It takes all its memory before the first byte is written.
pub fn run<O: Sink>(
    alloc: Global,
    loaded: Loaded,
    kept: &[u8],
    order: &RunOrder,
    output: &mut O,
) -> Result<RunDone, RunFault>
    requires frames { order.now.frames ≤ MOST_FRAMES }
    requires every { order.now.every ≤ MOST_SWEEPS }
    requires mcs { loaded.mcs ≤ GREATEST_MCS }
    ensures does { (verdict : SetVerdict) × Runs result loaded order.now verdict kept.now (O.account output.old) (O.account output.new) (output.new ≡ output.old) }

    // Where the set of bond vectors is free, no move of the run takes a bond through another that shares no monomer with it;
    // nor where the verdict on it says so.
    ensures uncrossed { IsFree loaded.world.set → NoMoveCrosses order.now.linking order.now.seed loaded.mcs loaded.world }
    ensures told_free { IfOk result (λ done. done.verdict ≡ SetVerdict.Free → NoMoveCrosses order.now.linking order.now.seed loaded.mcs loaded.world) }

    // Where the kept part is that of an accepted file, a run can go on from the output. In whatever two parts the frames are made,
    // the second writes in the end the bytes of the whole run.
    ensures goes_on { IfOk result (λ _. (bytes : List ℕ) → verdict_of bytes ≡ Ok loaded → kept.now ≡ take loaded.kept bytes
        → GoesOn loaded order.now (run_text loaded order.now kept.now)) }
    ensures in_parts { IfOk result (λ _. (bytes : List ℕ) → verdict_of bytes ≡ Ok loaded → kept.now ≡ take loaded.kept bytes
        → GoesInParts loaded order.now kept.now) }

    // Where the output is cut at any byte behind the kept part, a run with the frames that are missing in it goes on from what is
    // left, and writes in the end the bytes of the whole run.
    ensures cut { IfOk result (λ _. (bytes : List ℕ) → verdict_of bytes ≡ Ok loaded → kept.now ≡ take loaded.kept bytes
        → FinishesFromEachFront loaded order.now kept.now) }
{
    let sweeps = order.frames * order.every;
    let mcs = u128::from(loaded.mcs) + u128::from(sweeps);
    let monomers = u128::from(loaded.world.len());
    let reach = u128::from(loaded.world.reach().unsigned_abs()) + monomers * u128::from(sweeps);
    if mcs > u128::from(GREATEST_MCS) || reach > u128::from(RUN_REACH) {
        return Err(RunFault::TooFar { mcs, reach });
    }
    let Ok(mut log) = BondLog::new(alloc, loaded.world.len()) else {
        return Err(RunFault::Memory);
    };
    let verdict = verdict(loaded.world.set());
    let Ok(mut engine) = PackedEngine::new(alloc, loaded.world) else {
        return Err(RunFault::Memory);
    };
    match frames(&mut engine, loaded.mcs, kept, order, &mut log, output) {
        Ok(tally) => Ok(RunDone {
            mcs: loaded.mcs + sweeps,
            tally,
            verdict,
        }),
        Err(_) => Err(RunFault::WriteFault),
    }
}

/// Writes the kept part and the groups of a run that does not come too far, and flushes. Answers how
/// many moves were made and pairs linked.
fn frames<E: Engine, O: Sink>(
    engine: &mut E,
    mcs: u64,
    kept: &[u8],
    order: &RunOrder,
    log: &mut BondLog,
    output: &mut O,
) -> Result<Tally, Failed>
    requires last { mcs + order.now.frames * order.now.every ≤ GREATEST_MCS }
    requires reach { reach_of (E.configuration engine.old).positions + length (E.configuration engine.old).positions * (order.now.frames * order.now.every) ≤ RUN_REACH }
    requires log { IsLogOf (E.configuration engine.old) log.old }
    requires empty { log.old.pairs ≡ [] }
    ensures written { Delivers result (O.account output.old) (O.account output.new)
        (kept.now ++ groups_text order.now mcs order.now.frames (begun_with (E.configuration engine.old))) }
    ensures tally { IfOk result (λ tally. tally ≡ (after_frames order.now mcs order.now.frames (begun_with (E.configuration engine.old))).tally) }
{
    send(output, kept)?;
    let tally = groups(engine, mcs, order, log, output)?;
    output.flush()?;
    Ok(tally)
}

/// Makes the sweeps of a run, and writes its groups. Answers how many moves were made and pairs
/// linked.
fn groups<E: Engine, O: Sink>(
    engine: &mut E,
    mcs: u64,
    order: &RunOrder,
    log: &mut BondLog,
    output: &mut O,
) -> Result<Tally, Failed>
    requires last { mcs + order.now.frames * order.now.every ≤ GREATEST_MCS }
    requires reach { reach_of (E.configuration engine.old).positions + length (E.configuration engine.old).positions * (order.now.frames * order.now.every) ≤ RUN_REACH }
    requires log { IsLogOf (E.configuration engine.old) log.old }
    requires empty { log.old.pairs ≡ [] }
    ensures sent { Sends result (O.account output.old) (O.account output.new)
        (groups_text order.now mcs order.now.frames (begun_with (E.configuration engine.old))) }
    ensures tally { IfOk result (λ tally. tally ≡ (after_frames order.now mcs order.now.frames (begun_with (E.configuration engine.old))).tally) }
{
    let mut tally = Tally {
        accepted: 0,
        links: 0,
    };
    for frame in 0..order.frames {
        let first = mcs + frame * order.every;
        sweeps(
            engine,
            order.seed,
            first,
            order.every,
            order.linking,
            log,
            &mut tally,
        );
        write_group(engine, first + order.every, log, output)?;
    }
    Ok(tally)
}

/// Writes the world that an engine holds with the pairs that were linked since the group before, and
/// clears the log.
fn write_group<E: Engine, O: Sink>(
    engine: &E,
    mcs: u64,
    log: &mut BondLog,
    output: &mut O,
) -> Result<(), Failed>
    ensures sent { Sends result (O.account output.old) (O.account output.new) (group_text (E.configuration engine.now) mcs log.old.pairs) }
    ensures cleared { IfOk result (λ _. log.new ≡ with_pairs log.old []) }
{
    group(engine.world(), mcs, log.pairs(), output)?;
    log.clear();
    Ok(())
}
