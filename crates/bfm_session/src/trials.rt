ghost use Rattle.std.specs.Prelude.{◌≡◌, ◌+◌, ◌*◌, ◌≤◌, [], ◌∷◌, codes, length, IfOk};
ghost use Rattle.bfm_base.specs.Account.{Sends};
ghost use Rattle.bfm_base.specs.declared.limits.TheConstants.{MOST_MONOMERS, MOST_SWEEPS, RUN_REACH, WORLD_REACH};
ghost use Rattle.bfm_world.specs.Configuration.{reach_of};
ghost use Rattle.chain_stats.specs.Fractions.{AreMembers, radius_of};
ghost use Rattle.chain_stats.specs.Molecules.{AreMolecules};
ghost use Rattle.crosslink.specs.Log.{IsLogOf};
ghost use Rattle.bfm_session.specs.Analysis.{Answers};
ghost use Rattle.bfm_session.specs.NumberLines.{number_line};
ghost use Rattle.bfm_session.specs.Trial.{after_first, radius_sum, top_sum, trial_lines, trial_text};

use crate::analysis::AskFault;
use crate::lines::number_line;
use bfm_base::{Failed, Sink, send_pieces};
use bfm_world::{Engine, World};
use chain_stats::{MoleculeList, molecules, radius};
use crosslink::BondLog;
use itoa::Buffer;
use packed_engine::PackedEngine;
use std::alloc::{AllocError, Global};
use sweep_run::{Tally, sweeps};

/// How many sweeps a trial makes.
pub(crate) const TRIAL_SWEEPS: u64 = 32;

/// What the sweeps of a trial come to: how many moves were made, and the sum of the tops of the
/// squared radii of gyration of all molecules, in lattice units squared.
#[derive(Clone, Copy)]
struct Figures {
    accepted: u64,
    radius: u128,
}

/// Makes the trial with a number: 32 sweeps of a world without linking, the first of them sweep 0,
/// with the number as the seed. Writes the number, how many moves were made, and the sum of the tops
/// of the squared radii of gyration of all molecules, and flushes. It takes all its memory before
/// the first byte is written.
pub fn trial<O: Sink>(
    alloc: Global,
    world: World,
    number: u64,
    output: &mut O,
) -> Result<(), AskFault>
    requires { reach_of world.positions + length world.positions * TRIAL_SWEEPS ≤ RUN_REACH }
    ensures { Answers result (trial_text number world) (O.account output.old) (O.account output.new) (output.new ≡ output.old) }
{
    let mut log = BondLog::new(alloc, world.len())?;
    let Ok(mut engine) = PackedEngine::new(alloc, world) else {
        return Err(AskFault::Memory);
    };
    let figures = measured(alloc, &mut engine, number, TRIAL_SWEEPS, &mut log)?;
    trial_lines(number, figures.accepted, figures.radius, output)?;
    output.flush()?;
    Ok(())
}

/// Makes the first sweeps of a world, as many as `count`, and measures what they come to.
fn measured<E: Engine>(
    alloc: Global,
    engine: &mut E,
    seed: u64,
    count: u64,
    log: &mut BondLog,
) -> Result<Figures, AllocError>
    requires few { count ≤ MOST_SWEEPS }
    requires reach { reach_of (E.configuration engine.old).positions + length (E.configuration engine.old).positions * count ≤ RUN_REACH }
    requires log { IsLogOf (E.configuration engine.old) log.old }
    requires empty { log.old.pairs ≡ [] }
    ensures accepted { IfOk result (λ figures. figures.accepted ≡ (after_first seed count (E.configuration engine.old)).tally.accepted) }
    ensures radius { IfOk result (λ figures. figures.radius ≡ radius_sum (after_first seed count (E.configuration engine.old)).world) }
{
    let mut tally = Tally {
        accepted: 0,
        links: 0,
    };
    sweeps(engine, seed, 0, count, false, log, &mut tally);
    let molecules = molecules(alloc, engine.world())?;
    Ok(Figures {
        accepted: tally.accepted,
        radius: top_sum(engine.world(), &molecules),
    })
}

/// The sum of the tops of the squared radii of gyration of all molecules. It stays below 2^128,
/// since no monomer is in two of them.
fn top_sum(world: &World, molecules: &MoleculeList) -> u128
    requires { AreMolecules world.now molecules.now }
    ensures { result ≡ top_sum world.now molecules.now }
{
    prove!(world.len() > 0);
    let mut sum: u128 = 0;
    for k in 0..molecules.count() {
        sum += radius_top(world, molecules.members(k));
    }
    sum
}

/// The top of the squared radius of gyration of some monomers.
fn radius_top(world: &World, members: &[u32]) -> u128
    requires { AreMembers world.now members.now }
    ensures value { result ≡ (radius_of world.now members.now).top }
    ensures limit { result ≤ length members.now * (MOST_MONOMERS * (3 * (WORLD_REACH * WORLD_REACH))) }
{
    prove!(world.len() > 0);
    radius(world, members).top
}

/// Writes the lines of a trial. The sink is not flushed.
fn trial_lines<S: Sink>(
    number: u64,
    accepted: u64,
    radius: u128,
    sink: &mut S,
) -> Result<(), Failed>
    ensures { Sends result (S.account sink.old) (S.account sink.new) (trial_lines number accepted radius) }
{
    number_line(sink, b"trial", &[number])?;
    number_line(sink, b"accepted", &[accepted])?;
    sum_line(radius, sink)
}

fn sum_line<S: Sink>(radius: u128, sink: &mut S) -> Result<(), Failed>
    ensures { Sends result (S.account sink.old) (S.account sink.new) (number_line (codes "radius") (radius ∷ [])) }
{
    let mut sum = Buffer::new();
    send_pieces(sink, &[b"radius ", sum.format(radius).as_bytes(), b"\n"])
}
