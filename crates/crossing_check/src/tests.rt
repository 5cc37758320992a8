use crate::{SetVerdict, verdict};
use bfm_base::{Dir, P3};
use bond_set::BondSet;
use std::alloc::Global;
use std::test::Fail;

const USUAL: [[u64; 3]; 6] = [
    [2, 0, 0],
    [2, 1, 0],
    [2, 1, 1],
    [2, 2, 1],
    [3, 0, 0],
    [3, 1, 0],
];

// The usual kinds, with (2,2,0) in place of (2,2,1).
const FLAT: [[u64; 3]; 6] = [
    [2, 0, 0],
    [2, 1, 0],
    [2, 1, 1],
    [3, 0, 0],
    [3, 1, 0],
    [2, 2, 0],
];

const ALONG_AXES: [[u64; 3]; 2] = [[2, 0, 0], [3, 0, 0]];

// The end of a bond steps from the first to the third, and the fifth crosses the first in its middle.
const PAIRS: [P3; 6] = [
    P3 { x: 2, y: 2, z: 0 },
    P3 { x: -2, y: -2, z: 0 },
    P3 { x: 2, y: 2, z: 1 },
    P3 {
        x: -2,
        y: -2,
        z: -1,
    },
    P3 { x: 2, y: -2, z: 0 },
    P3 { x: -2, y: 2, z: 0 },
];

// Whether the absolute values of the components, in descending order, are those of the kind.
fn is_of_kind(v: P3, kind: [u64; 3]) -> bool {
    let a = v.x.unsigned_abs();
    let b = v.y.unsigned_abs();
    let c = v.z.unsigned_abs();
    let sizes = [
        a.max(b.max(c)),
        a.min(b).max(a.max(b).min(c)),
        a.min(b.min(c)),
    ];
    sizes == kind
}

// Each order and each choice of signs of a kind, in descending order, with the next identifiers.
fn add_kind(set: &mut BondSet, kind: [u64; 3]) -> Result<(), Fail> {
    for k in 0..343 {
        let v = P3 {
            x: 3 - k / 49,
            y: 3 - k / 7 % 7,
            z: 3 - k % 7,
        };
        if is_of_kind(v, kind) {
            set.add(v, 17 + set.len() as i64)?;
        }
    }
    Ok(())
}

fn set_of(alloc: Global, kinds: &[[u64; 3]]) -> Result<BondSet, Fail> {
    let mut set = BondSet::new(alloc);
    for kind in kinds {
        add_kind(&mut set, *kind)?;
    }
    Ok(set)
}

// Whether the first crossing is this one, and the common point the middle of both bonds: there, in
// each case below, an edge of the triangle and the other bond have their one common point.
fn crosses_in_the_middle(set: &BondSet, b: P3, dir: Dir, c: P3, e: P3) -> bool {
    match verdict(set) {
        SetVerdict::Free => false,
        SetVerdict::Crossing {
            b: found_b,
            dir: found_dir,
            c: found_c,
            e: found_e,
            weights: k,
        } => {
            let place = (found_b, found_dir, found_c, found_e) == (b, dir, c, e);
            place && 0 < k.u && k.u == k.v && k.w == 0 && k.p == k.u && k.q == k.u
        }
    }
}

#[test]
fn sets_without_a_crossing_move_are_free(rt: HostRuntime) -> Result<(), Fail> {
    let usual = BondSet::usual(rt.alloc())?;
    assert_eq!(rt; verdict(&usual), SetVerdict::Free);
    let flat = set_of(rt.alloc(), &FLAT)?;
    assert_eq!(rt; verdict(&flat), SetVerdict::Free);
    let along_axes = set_of(rt.alloc(), &ALONG_AXES)?;
    assert!(rt; flat.len() == 96 && along_axes.len() == 12);
    assert_eq!(rt; verdict(&along_axes), SetVerdict::Free);
    Ok(())
}

#[test]
fn the_first_crossing_of_a_small_set_is_named(rt: HostRuntime) -> Result<(), Fail> {
    let mut set = BondSet::new(rt.alloc());
    for v in PAIRS {
        set.add(v, 17 + set.len() as i64)?;
    }
    let b = P3 { x: 2, y: 2, z: 0 };
    let c = P3 { x: 0, y: 2, z: 0 };
    let e = P3 { x: 2, y: -2, z: 0 };
    assert!(rt; crosses_in_the_middle(&set, b, Dir::ZUp, c, e));
    Ok(())
}

#[test]
fn one_more_kind_lets_bonds_cross(rt: HostRuntime) -> Result<(), Fail> {
    let mut set = set_of(rt.alloc(), &USUAL)?;
    add_kind(&mut set, [2, 2, 0])?;
    assert!(rt; set.len() == 120);
    let b = P3 { x: 2, y: 2, z: 1 };
    let c = P3 { x: 0, y: 2, z: 0 };
    let e = P3 { x: 2, y: -2, z: 1 };
    assert!(rt; crosses_in_the_middle(&set, b, Dir::ZDown, c, e));

    let mut set = set_of(rt.alloc(), &USUAL)?;
    add_kind(&mut set, [3, 1, 1])?;
    assert!(rt; set.len() == 132);
    let b = P3 { x: 3, y: 1, z: 0 };
    let c = P3 { x: 1, y: 2, z: 0 };
    let e = P3 { x: 1, y: -3, z: 0 };
    assert!(rt; crosses_in_the_middle(&set, b, Dir::ZUp, c, e));
    Ok(())
}
