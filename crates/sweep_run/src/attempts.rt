ghost use Rattle.std.specs.Prelude.{◌≡◌, ℕ, ◌+◌, ◌*◌, ◌^◌, ◌<◌, ◌≤◌, length};
ghost use Rattle.bfm_base.specs.declared.limits.TheConstants.{GREATEST_MCS, RUN_REACH, WORLD_REACH};
ghost use Rattle.bond_set.specs.Crossing.{IsFree};
ghost use Rattle.bfm_world.specs.Configuration.{reach_of};
ghost use Rattle.crosslink.specs.Linking.{new_link};
ghost use Rattle.crosslink.specs.Log.{IsLogOf};
ghost use Rattle.sweep_run.specs.Sweep.{progress_of, attempted, tried, with_new, swept, after_sweeps, HasCountRoom, IsFewMore, NextCrossesNone, NoMoveCrosses};

use crate::choice::{Choice, next_choice};
use crate::tally::Tally;
use bfm_base::Dir;
use bfm_world::Engine;
use crosslink::{BondLog, link};
use sweep_stream::SweepWords;

/// Makes sweep `t`: as many attempts as there are monomers, and with `linking` a try at a link after
/// each of them. Adds to the tally, and puts each pair that is linked into the log. Where the set of
/// bond vectors is free, no move of it, nor of sweeps that follow it, takes a bond through another
/// that shares no monomer with it, in any image.
pub fn sweep<E: Engine>(
    engine: &mut E,
    seed: u64,
    t: u64,
    linking: bool,
    log: &mut BondLog,
    tally: &mut Tally,
)
    requires sweep { t ≤ GREATEST_MCS }
    requires reach { reach_of (E.configuration engine.old).positions + length (E.configuration engine.old).positions ≤ WORLD_REACH }
    requires log { IsLogOf (E.configuration engine.old) log.old }
    requires counts { HasCountRoom (length (E.configuration engine.old).positions) tally.old }
    ensures run { progress_of (E.configuration engine.new) tally.new log.new ≡ swept linking seed t (progress_of (E.configuration engine.old) tally.old log.old) }
    ensures log { IsLogOf (E.configuration engine.new) log.new }
    ensures monomers { length (E.configuration engine.new).positions ≡ length (E.configuration engine.old).positions }
    ensures reach { reach_of (E.configuration engine.new).positions ≤ reach_of (E.configuration engine.old).positions + length (E.configuration engine.old).positions }
    ensures few { IsFewMore (length (E.configuration engine.old).positions) tally.old tally.new }
    ensures uncrossed { IsFree (E.configuration engine.old).set → NoMoveCrosses linking seed t (E.configuration engine.old) }
{
    let monomers = engine.world().len();
    let mut words = SweepWords::at(seed, monomers, t);
    for _attempt in 0..monomers {
        let choice = next_choice(&mut words, monomers);
        turn(engine, choice, linking, log, tally);
    }
}

/// Makes an attempt, and with `linking` tries a link for its monomer and direction.
fn turn<E: Engine>(
    engine: &mut E,
    choice: Choice,
    linking: bool,
    log: &mut BondLog,
    tally: &mut Tally,
)
    requires monomer { choice.monomer < length (E.configuration engine.old).positions }
    requires reach { reach_of (E.configuration engine.old).positions < WORLD_REACH }
    requires log { IsLogOf (E.configuration engine.old) log.old }
    requires counts { HasCountRoom 1 tally.old }
    ensures run { progress_of (E.configuration engine.new) tally.new log.new
        ≡ tried linking (attempted (progress_of (E.configuration engine.old) tally.old log.old) choice.monomer choice.dir choice.word) choice.monomer choice.dir }
    ensures log { IsLogOf (E.configuration engine.new) log.new }
{
    let made = engine.attempt(choice.monomer, choice.dir, choice.word);
    tally.accepted += u64::from(made);
    if linking {
        try_link(engine, choice.monomer, choice.dir, log, tally);
    }
}

/// Tries a link, counts it, and puts its pair into the log.
fn try_link<E: Engine>(engine: &mut E, i: u32, dir: Dir, log: &mut BondLog, tally: &mut Tally)
    requires monomer { i < length (E.configuration engine.old).positions }
    requires log { IsLogOf (E.configuration engine.old) log.old }
    requires links { tally.old.links < 2 ^ 63 }
    ensures run { progress_of (E.configuration engine.new) tally.new log.new
        ≡ with_new (progress_of (E.configuration engine.old) tally.old log.old) (new_link (E.configuration engine.old) i dir) }
    ensures log { IsLogOf (E.configuration engine.new) log.new }
{
    if let Some(pair) = link(engine, i, dir) {
        log.push(pair);
        tally.links += 1;
    }
}

/// Makes as many sweeps as `count`, of which `first` is the first. Adds to the tally, and puts each
/// pair that is linked into the log. Where the set of bond vectors is free, no move in them takes a
/// bond through another that shares no monomer with it, in any image.
pub fn sweeps<E: Engine>(
    engine: &mut E,
    seed: u64,
    first: u64,
    count: u64,
    linking: bool,
    log: &mut BondLog,
    tally: &mut Tally,
)
    requires last { first + count ≤ GREATEST_MCS }
    requires reach { reach_of (E.configuration engine.old).positions + length (E.configuration engine.old).positions * count ≤ RUN_REACH }
    requires log { IsLogOf (E.configuration engine.old) log.old }
    requires counts { HasCountRoom (length (E.configuration engine.old).positions * count) tally.old }
    ensures run { progress_of (E.configuration engine.new) tally.new log.new
        ≡ after_sweeps linking seed first count (progress_of (E.configuration engine.old) tally.old log.old) }
    ensures log { IsLogOf (E.configuration engine.new) log.new }
    ensures monomers { length (E.configuration engine.new).positions ≡ length (E.configuration engine.old).positions }
    ensures reach { reach_of (E.configuration engine.new).positions ≤ reach_of (E.configuration engine.old).positions + length (E.configuration engine.old).positions * count }
    ensures few { IsFewMore (length (E.configuration engine.old).positions * count) tally.old tally.new }
    ensures uncrossed { IsFree (E.configuration engine.old).set → (done a : ℕ) → done < count → NextCrossesNone linking seed first done a (E.configuration engine.old) }
{
    for done in 0..count {
        sweep(engine, seed, first + done, linking, log, tally);
    }
}
