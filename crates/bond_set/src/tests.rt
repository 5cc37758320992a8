use crate::{BondSet, SetFault};
use bfm_base::{Cause, Dir, P3};
use std::test::Fail;

// Members of the usual set: of each kind the first and the last, of the first kind all, and three
// of (2,2,1).
const MEMBERS: [(u8, P3); 17] = [
    (17, P3 { x: 2, y: 0, z: 0 }),
    (18, P3 { x: 0, y: 2, z: 0 }),
    (19, P3 { x: 0, y: 0, z: 2 }),
    (20, P3 { x: 0, y: 0, z: -2 }),
    (21, P3 { x: 0, y: -2, z: 0 }),
    (22, P3 { x: -2, y: 0, z: 0 }),
    (23, P3 { x: 2, y: 1, z: 0 }),
    (46, P3 { x: -2, y: -1, z: 0 }),
    (47, P3 { x: 2, y: 1, z: 1 }),
    (
        70,
        P3 {
            x: -2,
            y: -1,
            z: -1,
        },
    ),
    (b'G', P3 { x: 2, y: 2, z: 1 }),
    (77, P3 { x: 2, y: -2, z: 1 }),
    (b'W', P3 { x: -2, y: 2, z: 1 }),
    (95, P3 { x: 3, y: 0, z: 0 }),
    (100, P3 { x: -3, y: 0, z: 0 }),
    (101, P3 { x: 3, y: 1, z: 0 }),
    (124, P3 { x: -3, y: -1, z: 0 }),
];

// The members of the kind (2,2,1), whose identifiers are 71 to 94.
const KIND_221: [P3; 24] = [
    P3 { x: 2, y: 2, z: 1 },
    P3 { x: 2, y: 2, z: -1 },
    P3 { x: 2, y: 1, z: 2 },
    P3 { x: 2, y: 1, z: -2 },
    P3 { x: 2, y: -1, z: 2 },
    P3 { x: 2, y: -1, z: -2 },
    P3 { x: 2, y: -2, z: 1 },
    P3 { x: 2, y: -2, z: -1 },
    P3 { x: 1, y: 2, z: 2 },
    P3 { x: 1, y: 2, z: -2 },
    P3 { x: 1, y: -2, z: 2 },
    P3 { x: 1, y: -2, z: -2 },
    P3 { x: -1, y: 2, z: 2 },
    P3 { x: -1, y: 2, z: -2 },
    P3 { x: -1, y: -2, z: 2 },
    P3 {
        x: -1,
        y: -2,
        z: -2,
    },
    P3 { x: -2, y: 2, z: 1 },
    P3 { x: -2, y: 2, z: -1 },
    P3 { x: -2, y: 1, z: 2 },
    P3 { x: -2, y: 1, z: -2 },
    P3 { x: -2, y: -1, z: 2 },
    P3 {
        x: -2,
        y: -1,
        z: -2,
    },
    P3 { x: -2, y: -2, z: 1 },
    P3 {
        x: -2,
        y: -2,
        z: -1,
    },
];

// The pairs that a set with the pair (2,0,0) and 32 refuses, each with its cause.
const REFUSED: [(P3, i64, Cause); 17] = [
    (P3 { x: 0, y: 2, z: 0 }, 9, Cause::OutOfLimit),
    (P3 { x: 0, y: 2, z: 0 }, 10, Cause::OutOfLimit),
    (P3 { x: 0, y: 2, z: 0 }, 13, Cause::OutOfLimit),
    (P3 { x: 0, y: 2, z: 0 }, 0, Cause::OutOfLimit),
    (P3 { x: 0, y: 2, z: 0 }, 256, Cause::OutOfLimit),
    (P3 { x: 0, y: 2, z: 0 }, -1, Cause::OutOfLimit),
    (P3 { x: 1, y: 1, z: 0 }, 9, Cause::OutOfLimit),
    (P3 { x: 2, y: 0, z: 0 }, 256, Cause::OutOfLimit),
    (P3 { x: 1, y: 1, z: 0 }, 33, Cause::BadVector),
    (P3 { x: 0, y: 0, z: 0 }, 33, Cause::BadVector),
    (P3 { x: 2, y: -4, z: 0 }, 33, Cause::BadVector),
    (
        P3 {
            x: 4611686018427387904,
            y: 0,
            z: 0,
        },
        33,
        Cause::BadVector,
    ),
    (
        P3 {
            x: 0,
            y: 0,
            z: -4611686018427387904,
        },
        33,
        Cause::BadVector,
    ),
    (P3 { x: 1, y: 1, z: 0 }, 32, Cause::BadVector),
    (P3 { x: 2, y: 0, z: 0 }, 33, Cause::Repeated),
    (P3 { x: 0, y: 2, z: 0 }, 32, Cause::Repeated),
    (P3 { x: 2, y: 0, z: 0 }, 32, Cause::Repeated),
];

// Pairs that a set of 200 vectors refuses: a new one, a vector and an identifier that are there,
// and no bond vector.
const REFUSED_BY_FULL: [(P3, i64); 4] = [
    (P3 { x: 3, y: 0, z: 0 }, 220),
    (P3 { x: 0, y: 2, z: 0 }, 220),
    (P3 { x: 3, y: 0, z: 0 }, 14),
    (P3 { x: 1, y: 1, z: 0 }, 220),
];

// Pairs to add in turn, and the first vector that is then without its negative.
const GROWING: [(P3, i64, Option<P3>); 6] = [
    (P3 { x: 2, y: 0, z: 0 }, 32, Some(P3 { x: 2, y: 0, z: 0 })),
    (P3 { x: -2, y: 0, z: 0 }, 33, None),
    (P3 { x: 0, y: 2, z: 0 }, 34, Some(P3 { x: 0, y: 2, z: 0 })),
    (P3 { x: 3, y: -1, z: 2 }, 35, Some(P3 { x: 0, y: 2, z: 0 })),
    (P3 { x: 0, y: -2, z: 0 }, 36, Some(P3 { x: 3, y: -1, z: 2 })),
    (P3 { x: -3, y: 1, z: -2 }, 37, None),
];

// Bond vectors and places beside them, steps, and whether the step leads to a usual bond vector.
const STEPS: [(P3, Dir, bool); 8] = [
    (P3 { x: 2, y: 0, z: 0 }, Dir::XUp, true),
    (P3 { x: 2, y: 0, z: 0 }, Dir::XDown, false),
    (P3 { x: 2, y: 2, z: 1 }, Dir::YDown, true),
    (P3 { x: 2, y: 2, z: 1 }, Dir::ZDown, false),
    (P3 { x: 2, y: 2, z: 0 }, Dir::ZUp, true),
    (P3 { x: 0, y: 0, z: -4 }, Dir::ZUp, true),
    (P3 { x: 0, y: 0, z: -4 }, Dir::ZDown, false),
    (
        P3 {
            x: 0,
            y: -4611686018427387904,
            z: 0,
        },
        Dir::YDown,
        false,
    ),
];

#[test]
fn an_end_may_step_to_vectors_of_the_set(rt: HostRuntime) -> Result<(), Fail> {
    let set = BondSet::usual(rt.alloc())?;
    for (v, step, expected) in STEPS {
        assert!(rt; v.extent() <= 1 << 62);
        assert_eq!(rt; set.may_step(v, step), expected);
    }
    Ok(())
}

#[test]
fn usual_vectors_have_their_identifiers(rt: HostRuntime) -> Result<(), Fail> {
    let set = BondSet::usual(rt.alloc())?;
    assert!(rt; set.len() == 108 && set.finish() == Ok(()));
    let wrong = MEMBERS.iter().copied().find(|(id, v)| set.id_of(*v) != Some(*id)
        || set.vector_of(*id) != Some(*v));
    assert_eq!(rt; wrong, None);
    let absent = P3 { x: 2, y: 2, z: 0 };
    assert!(rt; set.id_of(absent).is_none() && set.vector_of(125).is_none());
    Ok(())
}

#[test]
fn members_of_one_kind_stand_in_descending_order(rt: HostRuntime) -> Result<(), Fail> {
    let set = BondSet::usual(rt.alloc())?;
    let mut k = 54;
    for v in KIND_221 {
        assert!(rt; k < set.len() && set.vector(k) == v && set.id(k) as usize == k + 17);
        k += 1;
    }
    Ok(())
}

#[test]
fn the_least_cause_refuses_a_pair(rt: HostRuntime) -> Result<(), Fail> {
    let mut set = BondSet::new(rt.alloc());
    set.add(P3 { x: 2, y: 0, z: 0 }, 32)?;
    let wrong = REFUSED.iter().copied().find(|(v, id, cause)| set.add(*v, *id)
        != Err(SetFault::Refused(*cause)));
    assert_eq!(rt; wrong, None);
    assert!(rt; set.len() == 1);
    Ok(())
}

#[test]
fn a_set_takes_200_vectors(rt: HostRuntime) {
    let mut set = BondSet::new(rt.alloc());
    assert!(rt; set.is_empty());
    // all vectors that reach 3 at most, in ascending order, of which 316 are bond vectors
    for k in 0..343 {
        let v = P3 {
            x: k / 49 - 3,
            y: k / 7 % 7 - 3,
            z: k % 7 - 3,
        };
        let _ = set.add(v, 14 + set.len() as i64);
    }
    let refused = Err(SetFault::Refused(Cause::OutOfLimit));
    let wrong = REFUSED_BY_FULL
        .iter()
        .copied()
        .find(|(v, id)| set.add(*v, *id) != refused);
    assert_eq!(rt; wrong, None);
    assert!(rt; set.len() == 200);
}

#[test]
fn finish_names_the_first_vector_without_its_negative(rt: HostRuntime) -> Result<(), Fail> {
    let mut set = BondSet::new(rt.alloc());
    for (v, id, unpaired) in GROWING {
        set.add(v, id)?;
        assert_eq!(rt; set.finish().err(), unpaired);
    }
    Ok(())
}
