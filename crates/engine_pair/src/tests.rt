use bfm_base::{P3, Shape};
use bfm_world::{Engine, World, WorldBuilder};
use bond_set::BondSet;
use contact_table::Table;
use crosslink::BondLog;
use melt_builder::melt;
use packed_engine::PackedEngine;
use plain_move::PlainEngine;
use std::alloc::{AllocError, Global};
use std::process::Abort;
use std::test::Fail;
use sweep_run::{Tally, sweeps};

const CUBE: Shape = Shape {
    sides: [8, 8, 8],
    periodic: [true, true, true],
};

// Makes 20 sweeps.
fn swept<E: Engine>(
    rt: &impl Abort,
    alloc: Global,
    engine: &mut E,
    linking: bool,
) -> Result<(Tally, BondLog), AllocError> {
    let monomers = engine.world().len();
    assert!(rt; engine.world().reach() <= 512);
    let mut log = BondLog::new(alloc, monomers)?;
    let mut tally = Tally {
        accepted: 0,
        links: 0,
    };
    sweeps(engine, 42, 0, 20, linking, &mut log, &mut tally);
    Ok((tally, log))
}

fn expect_same(rt: &impl Abort, plain: &World, packed: &World) {
    assert!(rt; plain.len() == packed.len());
    for i in 0..plain.len() {
        assert!(rt; i < packed.len());
        assert!(rt; plain.position(i) == packed.position(i));
        assert!(rt; plain.neighbours(i) == packed.neighbours(i));
    }
}

// Runs two worlds that are the same, the one by the plain engine and the other by the packed one. Answers
// what was counted.
fn run_both(
    rt: &impl Abort,
    alloc: Global,
    first: World,
    second: World,
    linking: bool,
) -> Result<Tally, AllocError> {
    expect_same(rt, &first, &second);
    let mut plain = PlainEngine::new(first);
    let Ok(mut packed) = PackedEngine::new(alloc, second) else {
        return Err(AllocError);
    };
    let (tally, log) = swept(rt, alloc, &mut plain, linking)?;
    let (packed_tally, packed_log) = swept(rt, alloc, &mut packed, linking)?;
    assert!(rt; tally == packed_tally);
    assert!(rt; log.pairs() == packed_log.pairs());
    expect_same(rt, plain.world(), packed.world());
    Ok(tally)
}

// Two monomers of class 1 at (0, 3, 0) and (0, 0, 0), whose contact weighs 1. It is made where the random word
// is below the threshold.
fn contact_world(rt: &impl Abort, alloc: Global, threshold: u64) -> Result<World, AllocError> {
    let mut table = Table::new();
    table.set_weight(1, 1, 1);
    assert!(rt; threshold <= 4_294_967_296 && table.push_threshold(threshold));
    let set = BondSet::usual(alloc)?;
    let mut builder = WorldBuilder::new(alloc, CUBE, set, table, 2)?;
    builder.label(0, 1);
    builder.label(1, 1);
    assert!(rt; builder.place(P3 { x: 0, y: 3, z: 0 }).is_ok());
    assert!(rt; builder.place(P3 { x: 0, y: 0, z: 0 }).is_ok());
    assert!(rt; builder.placed() == builder.count() as usize);
    Ok(builder.finish())
}

#[test]
fn contacts_are_made_by_both_engines_alike(rt: HostRuntime) -> Result<(), Fail> {
    for threshold in [3_122_475_825, 3_122_475_824, 0] {
        let first = contact_world(&rt, rt.alloc(), threshold)?;
        let second = contact_world(&rt, rt.alloc(), threshold)?;
        let tally = run_both(&rt, rt.alloc(), first, second, false)?;
        assert!(rt; tally.accepted > 0);
    }
    Ok(())
}

#[test]
fn melts_are_swept_by_both_engines_alike(rt: HostRuntime) -> Result<(), Fail> {
    let first = melt(rt.alloc(), CUBE, 16, 4)?;
    let second = melt(rt.alloc(), CUBE, 16, 4)?;
    // Each cell is filled, so that nobody has room.
    let full = run_both(&rt, rt.alloc(), first, second, false)?;
    assert_eq!(rt; full.accepted, 0);
    let first = melt(rt.alloc(), CUBE, 8, 4)?;
    let second = melt(rt.alloc(), CUBE, 8, 4)?;
    let half = run_both(&rt, rt.alloc(), first, second, false)?;
    assert!(rt; half.accepted > 0);
    Ok(())
}

// Sixteen monomers without bonds, each of which may have two, three units apart.
fn grid(rt: &impl Abort, alloc: Global) -> Result<World, AllocError> {
    let set = BondSet::usual(alloc)?;
    let shape = Shape {
        sides: [12, 12, 8],
        periodic: [true, true, false],
    };
    let mut builder = WorldBuilder::new(alloc, shape, set, Table::new(), 16)?;
    for i in 0..16 {
        assert!(rt; i < builder.count() && builder.placed() < builder.count() as usize);
        builder.valence(i, 2);
        let place = P3 {
            x: 3 * i64::from(i % 4),
            y: 3 * i64::from(i / 4),
            z: 0,
        };
        assert!(rt; place.extent() <= 9);
        assert!(rt; builder.place(place).is_ok());
    }
    assert!(rt; builder.placed() == builder.count() as usize);
    Ok(builder.finish())
}

#[test]
fn links_are_made_by_both_engines_alike(rt: HostRuntime) -> Result<(), Fail> {
    let first = grid(&rt, rt.alloc())?;
    let second = grid(&rt, rt.alloc())?;
    let tally = run_both(&rt, rt.alloc(), first, second, true)?;
    assert!(rt; tally.accepted > 0 && tally.links > 0);
    Ok(())
}
