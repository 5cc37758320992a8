use crate::network;
use bfm_base::P3;
use bfm_world::World;
use std::test::Fail;

fn at(place: [i64; 3]) -> P3 {
    let [x, y, z] = place;
    P3 { x, y, z }
}

/// How many bonds there are, each seen from both of its ends.
fn ends_of_bonds(world: &World) -> u64 {
    let mut ends = 0;
    for monomer in 0..world.len() {
        for _ in world.neighbours(monomer) {
            ends = u64::saturating_add(ends, 1);
        }
    }
    ends
}

// Where the monomers of one node and its strands stand, in a box of side 8, and who is bonded to each.
#[rattlefmt::skip]
const ONE_NODE: [([i64; 3], &[u32]); 10] = [
    ([0, 0, 0], &[1, 3, 4, 6, 7, 9]),
    ([2, 0, 0], &[0, 2]), ([4, 0, 0], &[1, 3]), ([6, 0, 0], &[0, 2]),
    ([0, 2, 0], &[0, 5]), ([0, 4, 0], &[4, 6]), ([0, 6, 0], &[0, 5]),
    ([0, 0, 2], &[0, 8]), ([0, 0, 4], &[7, 9]), ([0, 0, 6], &[0, 8]),
];

#[test]
fn strands_of_a_lone_node_lead_back_to_it(rt: HostRuntime) -> Result<(), Fail> {
    let world = network(rt.alloc(), 1, 3)?;
    assert_eq!(rt; world.len(), 10);
    assert_eq!(rt; world.shape().sides, [8, 8, 8]);
    assert_eq!(rt; world.shape().periodic, [true, true, true]);
    assert_eq!(rt; world.set().len(), 108);
    for (monomer, (place, neighbours)) in ONE_NODE.iter().enumerate() {
        let monomer = monomer as u32;
        assert!(rt; monomer < world.len());
        assert_eq!(rt; world.position(monomer), at(*place), "monomer {monomer}");
        assert!(rt;
            world.neighbours(monomer) == *neighbours,
            "monomer {monomer}"
        );
        assert!(rt;
            !world.fixed(monomer) && world.label(monomer) == 0 && world.valence(monomer) == 0
        );
    }
    assert_eq!(rt; ends_of_bonds(&world), 24);
    Ok(())
}

// Some of 32 monomers in a box of side 8: nodes are the multiples of 4.
#[rattlefmt::skip]
const EIGHT_NODES: [(u32, [i64; 3], &[u32]); 12] = [
    (0, [0, 0, 0], &[1, 2, 3, 5, 10, 19]), (1, [2, 0, 0], &[0, 4]), (2, [0, 2, 0], &[0, 8]),
    (3, [0, 0, 2], &[0, 16]), (4, [4, 0, 0], &[1, 5, 6, 7, 14, 23]), (5, [6, 0, 0], &[0, 4]),
    (8, [0, 4, 0], &[2, 9, 10, 11, 13, 27]), (10, [0, 6, 0], &[0, 8]),
    (16, [0, 0, 4], &[3, 17, 18, 19, 21, 26]), (19, [0, 0, 6], &[0, 16]),
    (28, [4, 4, 4], &[15, 22, 25, 29, 30, 31]), (31, [4, 4, 6], &[12, 28]),
];

#[test]
fn two_nodes_in_a_row_are_joined_on_either_side(rt: HostRuntime) -> Result<(), Fail> {
    let world = network(rt.alloc(), 2, 1)?;
    assert_eq!(rt; world.len(), 32);
    for (monomer, place, neighbours) in EIGHT_NODES {
        assert!(rt; monomer < world.len());
        assert_eq!(rt; world.position(monomer), at(place), "monomer {monomer}");
        assert!(rt;
            world.neighbours(monomer) == neighbours,
            "monomer {monomer}"
        );
    }
    assert_eq!(rt; ends_of_bonds(&world), 96);
    Ok(())
}

// Some of 64 nodes in a box of side 8.
#[rattlefmt::skip]
const BARE_NODES: [(u32, [i64; 3], &[u32]); 5] = [
    (0, [0, 0, 0], &[1, 3, 4, 12, 16, 48]), (3, [6, 0, 0], &[0, 2, 7, 15, 19, 51]),
    (21, [2, 2, 2], &[5, 17, 20, 22, 25, 37]), (24, [0, 4, 2], &[8, 20, 25, 27, 28, 40]),
    (63, [6, 6, 6], &[15, 47, 51, 59, 60, 62]),
];

#[test]
fn nodes_without_strands_are_joined_to_each_other(rt: HostRuntime) -> Result<(), Fail> {
    let world = network(rt.alloc(), 4, 0)?;
    assert_eq!(rt; world.len(), 64);
    for (monomer, place, neighbours) in BARE_NODES {
        assert!(rt; monomer < world.len());
        assert_eq!(rt; world.position(monomer), at(place), "monomer {monomer}");
        assert!(rt;
            world.neighbours(monomer) == neighbours,
            "monomer {monomer}"
        );
    }
    assert_eq!(rt; ends_of_bonds(&world), 384);
    Ok(())
}

#[test]
fn the_longest_strands_and_the_most_monomers(rt: HostRuntime) -> Result<(), Fail> {
    // One node whose strands of 127 go around a box of side 256.
    let world = network(rt.alloc(), 1, 127)?;
    assert_eq!(rt; world.len(), 382);
    assert_eq!(rt; world.position(127), at([254, 0, 0]));
    assert!(rt; world.neighbours(0) == [1, 127, 128, 254, 255, 381].as_slice());
    // As many nodes as there may be monomers, in a box of side 128.
    let world = network(rt.alloc(), 64, 0)?;
    assert_eq!(rt; world.len(), 262_144);
    assert_eq!(rt; world.position(262_143), at([126, 126, 126]));
    assert!(rt; world.neighbours(0) == [1, 63, 64, 4032, 4096, 258_048].as_slice());
    Ok(())
}
