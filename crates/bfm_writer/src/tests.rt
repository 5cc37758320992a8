ghost use Rattle.std.specs.Prelude.{◌^◌, ◌≤◌, length};
ghost use Rattle.bfm_geom.specs.Difference.{IsBox};

use crate::{group, header};
use bfm_base::limits::{
    GREATEST_CLASS, GREATEST_LABEL, GREATEST_THRESHOLD, GREATEST_VALENCE, GREATEST_WEIGHT,
};
use bfm_base::{MemSink, P3, Shape};
use bfm_world::{World, WorldBuilder};
use bond_set::BondSet;
use contact_table::Table;
use std::alloc::Global;
use std::process::Abort;
use std::test::Fail;

const BOX: Shape = Shape {
    sides: [8, 8, 8],
    periodic: [true, true, true],
};

/// A set of two vectors along x.
fn pair_set(alloc: Global) -> Result<BondSet, Fail> {
    let mut set = BondSet::new(alloc);
    set.add(P3 { x: 2, y: 0, z: 0 }, 32)?;
    set.add(P3 { x: -2, y: 0, z: 0 }, 33)?;
    Ok(set)
}

/// The world of monomers at these places with these bonds.
fn world_of(
    rt: &impl Abort,
    alloc: Global,
    set: BondSet,
    places: &[[i8; 3]],
    bonds: &[(u32, u32)],
) -> Result<World, Fail>
    requires some { 1 ≤ length places.now }
    requires few { length places.now ≤ 2 ^ 18 }
{
    marked_world_of(rt, alloc, BOX, set, places, bonds, &[])
}

/// The world of monomers at these places in a box with these bonds, and monomers with their labels,
/// their valences and whether they are fixed.
fn marked_world_of(
    rt: &impl Abort,
    alloc: Global,
    shape: Shape,
    set: BondSet,
    places: &[[i8; 3]],
    bonds: &[(u32, u32)],
    marks: &[(u32, u32, u8, bool)],
) -> Result<World, Fail>
    requires shape { IsBox shape }
    requires some { 1 ≤ length places.now }
    requires few { length places.now ≤ 2 ^ 18 }
{
    set.finish()?;
    let mut builder = WorldBuilder::new(alloc, shape, set, Table::new(), places.len() as u32)?;
    for (monomer, label, valence, fixed) in marks {
        assert!(rt; *monomer < builder.count());
        assert!(rt; *label <= GREATEST_LABEL && *valence <= GREATEST_VALENCE);
        builder.label(*monomer, *label);
        builder.valence(*monomer, *valence);
        if *fixed {
            builder.fix(*monomer);
        }
    }
    for (i, j) in bonds {
        assert!(rt; builder.join(*i, *j) == Ok(true));
    }
    for [x, y, z] in places {
        let (x, y, z) = (i64::from(*x), i64::from(*y), i64::from(*z));
        builder.place(P3 { x, y, z })?;
    }
    Ok(builder.finish())
}

// (places, bonds, time, bonds that were added, text)
#[rattlefmt::skip]
const WORKED: [(&[[i8; 3]], &[(u32, u32)], u64, &[(u32, u32)], &str); 9] = [
    (&[[3, 4, 3]], &[], 1, &[], "\n!mcs=1\n3 4 3\n"),
    (&[[-1, 0, -12]], &[], 1_099_511_627_776, &[], "\n!mcs=1099511627776\n-1 0 -12\n"),
    (&[[0, 0, 0], [2, 0, 0]], &[(0, 1)], 1, &[], "\n!mcs=1\n0 0 0  \n"),
    (&[[0, 0, 0], [2, 0, 0], [4, 0, 0]], &[(0, 1), (1, 2)], 1, &[], "\n!mcs=1\n0 0 0   \n"),
    // back along x, and no bond where the difference is in the set
    (&[[2, 0, 0], [0, 0, 0], [-2, 0, 0]], &[(0, 1)], 0, &[], "\n!mcs=0\n2 0 0 !\n-2 0 0\n"),
    // a bond between monomers that do not follow one another
    (&[[0, 0, 0], [4, 4, 4], [2, 0, 0]], &[(0, 2)], 0, &[], "\n!mcs=0\n0 0 0\n4 4 4\n2 0 0\n"),
    // a bond through the boundary: its wrapped difference is in the set, and its plain one is not
    (&[[0, 0, 0], [6, 0, 0]], &[(0, 1)], 1, &[], "\n!mcs=1\n0 0 0\n6 0 0\n"),
    (&[[0, 0, 0], [2, 0, 0]], &[(0, 1)], 7, &[(0, 1)], "\n!add_bonds\n1 2\n!mcs=7\n0 0 0  \n"),
    (&[[0, 0, 0], [2, 0, 0]], &[(0, 1)], 7, &[(1, 0)], "\n!add_bonds\n1 2\n!mcs=7\n0 0 0  \n"),
];

#[test]
fn groups_of_a_small_set(rt: HostRuntime) -> Result<(), Fail> {
    for (places, bonds, mcs, added, text) in WORKED {
        assert!(rt; !places.is_empty() && places.len() < 10);
        let world = world_of(&rt, rt.alloc(), pair_set(rt.alloc())?, places, bonds)?;
        let mut sink = MemSink::new(rt.alloc(), 100, 7, &[])?;
        assert!(rt; group(&world, mcs, added, &mut sink).is_ok());
        assert!(rt; sink.bytes() == text.as_bytes(), "{text}");
    }
    Ok(())
}

// Four monomers, of which two and two are bonded.
const CHAINS: [[i8; 3]; 4] = [[0, 0, 0], [2, 2, 1], [2, 0, 0], [0, 2, 1]];

const CHAINS_TEXT: &str = "\n!add_bonds\n3 4\n1 2\n!mcs=10\n0 0 0 G\n2 0 0 W\n";

#[test]
fn a_group_of_the_usual_set_and_its_prefixes(rt: HostRuntime) -> Result<(), Fail> {
    let usual = BondSet::usual(rt.alloc())?;
    let world = world_of(&rt, rt.alloc(), usual, &CHAINS, &[(1, 0), (2, 3)])?;
    let text = CHAINS_TEXT.as_bytes();
    // the sink has room for a prefix alone, until it has room for the whole
    for room in 0..text.len() + 1 {
        let mut sink = MemSink::new(rt.alloc(), room, 3, &[])?;
        let written = group(&world, 10, &[(3, 2), (0, 1)], &mut sink);
        assert_eq!(rt; written.is_ok(), room == text.len());
        assert!(rt; sink.bytes() == &text[..room]);
    }
    // nothing is written after a call that fails
    let mut sink = MemSink::new(rt.alloc(), 100, 3, &[5])?;
    assert!(rt; group(&world, 10, &[(3, 2), (0, 1)], &mut sink).is_err());
    assert!(rt; sink.bytes() == &text[..12]);
    Ok(())
}

#[test]
fn the_header_of_one_monomer_has_no_lists(rt: HostRuntime) -> Result<(), Fail> {
    let set = BondSet::new(rt.alloc());
    let world = world_of(&rt, rt.alloc(), set, &[[3, 3, 3]], &[])?;
    let mut sink = MemSink::new(rt.alloc(), 200, 7, &[])?;
    assert!(rt; header(&world, &mut sink).is_ok());
    let text =
        "!number_of_monomers=1\n!box_x=8\n!box_y=8\n!box_z=8\n!periodic_x=1\n!periodic_y=1\n!periodic_z=1\n";
    assert!(rt; sink.bytes() == text.as_bytes());
    Ok(())
}

#[test]
fn walls_and_unlike_sides_stand_in_the_header(rt: HostRuntime) -> Result<(), Fail> {
    let shape = Shape {
        sides: [16, 8, 9],
        periodic: [true, false, false],
    };
    let set = BondSet::new(rt.alloc());
    let world = marked_world_of(&rt, rt.alloc(), shape, set, &[[-3, 6, 7]], &[], &[])?;
    let mut sink = MemSink::new(rt.alloc(), 200, 7, &[])?;
    assert!(rt; header(&world, &mut sink).is_ok());
    let text =
        "!number_of_monomers=1\n!box_x=16\n!box_y=8\n!box_z=9\n!periodic_x=1\n!periodic_y=0\n!periodic_z=0\n";
    assert!(rt; sink.bytes() == text.as_bytes());
    Ok(())
}

const BOX_TEXT: &str =
    "!box_x=8\n!box_y=8\n!box_z=8\n!periodic_x=1\n!periodic_y=1\n!periodic_z=1\n";

const PAIR_TEXT: &str = "!set_of_bondvectors\n2 0 0:32\n-2 0 0:33\n";

// (places, bonds, monomers with their labels, their valences and whether they are fixed, first line, lists behind the set)
#[rattlefmt::skip]
const HEADERS: [(&[[i8; 3]], &[(u32, u32)], &[(u32, u32, u8, bool)], &str, &str); 10] = [
    (&[[0, 0, 0]], &[], &[], "!number_of_monomers=1\n", ""),
    // the line of the frame shows the bond; without a bond there is none to show
    (&[[0, 0, 0], [2, 0, 0]], &[(0, 1)], &[], "!number_of_monomers=2\n", ""),
    (&[[0, 0, 0], [2, 0, 0]], &[], &[], "!number_of_monomers=2\n", ""),
    // through the boundary, and in a ring
    (&[[0, 0, 0], [6, 0, 0]], &[(0, 1)], &[], "!number_of_monomers=2\n", "!bonds\n1 2\n"),
    (&[[0, 0, 0], [2, 0, 0], [4, 0, 0], [6, 0, 0]], &[(0, 1), (1, 2), (2, 3), (3, 0)], &[],
        "!number_of_monomers=4\n", "!bonds\n1 4\n"),
    // between monomers that do not follow one another, in another order than they are joined
    (&[[2, 0, 0], [4, 4, 4], [4, 0, 0], [0, 0, 0]], &[(3, 0), (2, 0)], &[], "!number_of_monomers=4\n", "!bonds\n1 3\n1 4\n"),
    (&[[0, 0, 0], [0, 2, 0], [0, 4, 0], [2, 0, 0], [2, 2, 0], [2, 4, 0]], &[(5, 2), (3, 0), (1, 4)], &[],
        "!number_of_monomers=6\n", "!bonds\n1 4\n2 5\n3 6\n"),
    (&[[0, 0, 0], [4, 0, 0], [0, 4, 0]], &[], &[(2, 16, 8, false), (0, 2_147_483_647, 0, false), (1, 0, 0, false)],
        "!number_of_monomers=3\n", "!attributes\n1:2147483647\n3:16\n!bfm_valence\n3:8\n"),
    (&[[0, 0, 0], [4, 0, 0], [0, 4, 0]], &[], &[(2, 0, 0, true), (0, 1, 0, true)],
        "!number_of_monomers=3\n", "!attributes\n1:1\n!bfm_fixed\n1\n3\n"),
    (&[[0, 0, 0], [6, 0, 0]], &[(0, 1)], &[(0, 0, 3, false), (1, 10, 0, false)],
        "!number_of_monomers=2\n", "!bonds\n1 2\n!attributes\n2:10\n!bfm_valence\n1:3\n"),
];

#[test]
fn headers_of_a_small_set(rt: HostRuntime) -> Result<(), Fail> {
    for (places, bonds, marks, number, lists) in HEADERS {
        assert!(rt; !places.is_empty() && places.len() < 10);
        let set = pair_set(rt.alloc())?;
        let world = marked_world_of(&rt, rt.alloc(), BOX, set, places, bonds, marks)?;
        let mut sink = MemSink::new(rt.alloc(), 300, 7, &[])?;
        assert!(rt; header(&world, &mut sink).is_ok());
        let text = format!(in rt.alloc(); "{number}{BOX_TEXT}{PAIR_TEXT}{lists}")?;
        assert!(rt; sink.bytes() == text.as_bytes(), "{text}");
    }
    Ok(())
}

#[test]
fn a_header_has_the_usual_set_in_its_order(rt: HostRuntime) -> Result<(), Fail> {
    let usual = BondSet::usual(rt.alloc())?;
    let world = world_of(&rt, rt.alloc(), usual, &[[0, 0, 0]], &[])?;
    let mut sink = MemSink::new(rt.alloc(), 4000, 50, &[])?;
    assert!(rt; header(&world, &mut sink).is_ok());
    // 91 bytes for the number of monomers and the box
    let lists = sink.bytes().get(91..).unwrap_or(&[]);
    let first =
        "!set_of_bondvectors\n2 0 0:17\n0 2 0:18\n0 0 2:19\n0 0 -2:20\n0 -2 0:21\n-2 0 0:22\n2 1 0:23\n";
    assert!(rt; lists.starts_with(first.as_bytes()));
    assert!(rt; lists.ends_with(b"\n-3 1 0:121\n-3 0 1:122\n-3 0 -1:123\n-3 -1 0:124\n"));
    // where the sink has room for a prefix alone, it takes that
    let mut short = MemSink::new(rt.alloc(), 95, 50, &[])?;
    assert!(rt; header(&world, &mut short).is_err());
    assert!(rt; sink.bytes().starts_with(short.bytes()) && short.bytes().len() == 95);
    Ok(())
}

/// The table in which these pairs were weighed and to which these thresholds were added, in turn.
fn table_of(rt: &impl Abort, weights: &[(u8, u8, i32)], thresholds: &[u64]) -> Table {
    let mut table = Table::new();
    for (a, b, weight) in weights {
        assert!(rt; 1 <= *a && *a <= GREATEST_CLASS && 1 <= *b && *b <= GREATEST_CLASS);
        assert!(rt; u64::from(weight.unsigned_abs()) <= GREATEST_WEIGHT);
        table.set_weight(*a, *b, *weight);
    }
    for threshold in thresholds {
        assert!(rt; *threshold <= GREATEST_THRESHOLD);
        assert!(rt; table.push_threshold(*threshold));
    }
    table
}

/// The world of two monomers without bonds, the second of which is fixed, with this table.
fn weighed_world_of(alloc: Global, table: Table) -> Result<World, Fail> {
    let set = BondSet::new(alloc);
    set.finish()?;
    let mut builder = WorldBuilder::new(alloc, BOX, set, table, 2)?;
    builder.fix(1);
    builder.place(P3 { x: 0, y: 0, z: 0 })?;
    builder.place(P3 { x: 4, y: 0, z: 0 })?;
    Ok(builder.finish())
}

const CONTACTS_TEXT: &str = "!bfm_contacts\n1 1:1\n1 2:-3\n15 15:1000\n";

const ACCEPTANCE_TEXT: &str = "!bfm_acceptance\n3122475825\n4294967296\n";

// (weights, thresholds, list of the contacts, list of the thresholds)
#[rattlefmt::skip]
const TABLES: [(&[(u8, u8, i32)], &[u64], &str, &str); 7] = [
    (&[], &[], "", ""),
    // in another order of the pairs and within them
    (&[(15, 15, 1_000), (2, 1, -3), (1, 1, 1)], &[3_122_475_825, 4_294_967_296], CONTACTS_TEXT, ACCEPTANCE_TEXT),
    (&[(2, 1, -3), (1, 1, 1), (15, 15, 1_000)], &[], CONTACTS_TEXT, ""),
    (&[], &[3_122_475_825, 4_294_967_296], "", ACCEPTANCE_TEXT),
    // of several weights of a pair the last counts, and 0 is not listed
    (&[(7, 3, 5), (14, 15, -1_000), (3, 7, 0)], &[0], "!bfm_contacts\n14 15:-1000\n", "!bfm_acceptance\n0\n"),
    (&[(3, 7, 5), (7, 3, 0)], &[], "", ""),
    // thresholds stay in their order, and equal ones stand as often as they were added
    (&[(9, 10, 2), (10, 2, 1)], &[7, 0, 7], "!bfm_contacts\n2 10:1\n9 10:2\n", "!bfm_acceptance\n7\n0\n7\n"),
];

#[test]
fn headers_of_tables(rt: HostRuntime) -> Result<(), Fail> {
    for (weights, thresholds, contacts, acceptance) in TABLES {
        let table = table_of(&rt, weights, thresholds);
        let world = weighed_world_of(rt.alloc(), table)?;
        let mut sink = MemSink::new(rt.alloc(), 300, 7, &[])?;
        assert!(rt; header(&world, &mut sink).is_ok());
        let text = format!(in rt.alloc();
            "!number_of_monomers=2\n{BOX_TEXT}!bfm_fixed\n2\n{contacts}{acceptance}"
        )?;
        assert!(rt; sink.bytes() == text.as_bytes(), "{text}");
    }
    Ok(())
}
