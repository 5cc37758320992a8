ghost use Rattle.std.specs.Prelude.{◌≡◌, ◌^◌, ◌<◌, true, IsTrue};
ghost use Rattle.bfm_geom.specs.Difference.{IsBox, IsWithin};
ghost use Rattle.packed_lattice.specs.Sites.{AreTaken, covers};
ghost use Rattle.packed_lattice.specs.Cube.{IsCube, IsFace, is_in};

use super::Lattice;
use crate::site::{Cube, corner, fill_cube, is_inside, lower_face, upper_face};
use bfm_base::{Dir, P3, Shape, Steps};
use std::alloc::{AllocError, Global};
use std::marker::Brand;
use std::process::Abort;
use std::sync::ledger::{Blank, Ledger};
use std::test::Fail;

const FAR: i64 = 1 << 45;

// The corners of a cube as steps from its place.
const CORNERS: [[i64; 3]; 8] = [
    [0, 0, 0],
    [1, 0, 0],
    [0, 1, 0],
    [1, 1, 0],
    [0, 0, 1],
    [1, 0, 1],
    [0, 1, 1],
    [1, 1, 1],
];

// The plain model: the places of the monomers, and the taken sites in a list.
#[derive(Drop)]
struct Plain {
    monomers: Vec<P3>,
    taken: Vec<[i64; 3]>,
}

impl Plain {
    // The sites of a cube, by division alone.
    fn cube(shape: &Shape, p: P3) -> [[i64; 3]; 8]
        requires { IsBox shape.now }
    {
        let mut sites = CORNERS;
        for site in sites.iter_mut() {
            let [x, y, z] = *site;
            *site = [
                p.x.wrapping_add(x).rem_euclid(i64::from(shape.sides[0])),
                p.y.wrapping_add(y).rem_euclid(i64::from(shape.sides[1])),
                p.z.wrapping_add(z).rem_euclid(i64::from(shape.sides[2])),
            ];
        }
        sites
    }

    fn is_free(&self, shape: &Shape, p: P3) -> bool
        requires { IsBox shape.now }
    {
        let cube = Plain::cube(shape, p);
        !cube.iter().any(|site| self.taken.contains(site))
    }

    // Whether the cube at the second place has room, but for the sites of the cube at the first.
    fn has_room(&self, shape: &Shape, from: P3, to: P3) -> bool
        requires { IsBox shape.now }
    {
        let old = Plain::cube(shape, from);
        let new = Plain::cube(shape, to);
        !new.iter()
            .any(|site| !old.contains(site) && self.taken.contains(site))
    }

    fn place(&mut self, shape: &Shape, p: P3) -> Result<(), AllocError>
        requires { IsBox shape.now }
    {
        self.taken.extend_from_slice(&Plain::cube(shape, p))
    }

    fn lift(&mut self, shape: &Shape, p: P3)
        requires { IsBox shape.now }
    {
        let cube = Plain::cube(shape, p);
        self.taken.retain(|site| !cube.contains(site));
    }
}

// Whether the place is one that the calls take.
fn is_in_reach(p: P3) -> bool
    ensures { IsTrue result → IsWithin (2 ^ 45) p }
{
    if p.x < -FAR || FAR < p.x || p.y < -FAR || FAR < p.y || p.z < -FAR || FAR < p.z {
        return false;
    }
    true
}

// Whether a face, and a cube, has no free site.
fn is_face_taken<L: Ledger>(lattice: &Lattice, face: Cube, steps: &mut Steps<L>) -> bool
    requires range { IsCube lattice.now.shape face }
    requires face { IsFace face }
    ensures { IsTrue result → AreTaken lattice.now (is_in face) }
{
    let Cube { xs, ys, zs } = face;
    !lattice.is_free(corner(xs.near, ys.near, zs.near), steps)
        && !lattice.is_free(corner(xs.near, ys.far, zs.far), steps)
        && !lattice.is_free(corner(xs.far, ys.near, zs.far), steps)
        && !lattice.is_free(corner(xs.far, ys.far, zs.near), steps)
}

fn is_cube_taken<L: Ledger>(lattice: &Lattice, p: P3, steps: &mut Steps<L>) -> bool
    requires { IsWithin (2 ^ 45) p }
    ensures { IsTrue result → AreTaken lattice.now (covers lattice.now.shape p) }
{
    let cube = fill_cube(&lattice.shape(), p);
    is_face_taken(lattice, lower_face(cube), steps)
        && is_face_taken(lattice, upper_face(cube), steps)
}

// Marsaglia's xorshift.
fn draw(state: &mut u64, below: u64) -> u64
    requires { 0 < below }
    ensures { result < below }
{
    *state ^= *state << 13;
    *state ^= *state >> 7;
    *state ^= *state << 17;
    *state % below
}

// A place between the walls, or up to two sides beyond the base along a periodic axis.
fn draw_along(state: &mut u64, periodic: bool, side: u16, base: i64) -> i64 {
    let width = u64::from(side).max(2);
    if periodic {
        base.wrapping_add(draw(state, 2 * width) as i64)
    } else {
        draw(state, width - 1) as i64
    }
}

fn draw_place(state: &mut u64, shape: &Shape, base: i64) -> P3 {
    P3 {
        x: draw_along(state, shape.periodic[0], shape.sides[0], base),
        y: draw_along(state, shape.periodic[1], shape.sides[1], base),
        z: draw_along(state, shape.periodic[2], shape.sides[2], base),
    }
}

fn try_to_place(
    rt: &impl Abort,
    lattice: &mut Lattice,
    plain: &mut Plain,
    p: P3,
) -> Result<(), AllocError> {
    let shape = lattice.shape();
    assert!(rt; is_in_reach(p));
    assert!(rt; is_inside(&shape, p));
    let free = lattice.cube_free(p);
    assert_eq!(rt; free, plain.is_free(&shape, p), "{p:?}");
    if free {
        lattice.place(p);
        plain.place(&shape, p)?;
        plain.monomers.push(p)?;
    }
    Ok(())
}

fn try_to_step<L: Ledger>(
    rt: &impl Abort,
    lattice: &mut Lattice,
    plain: &mut Plain,
    draws: &mut u64,
    steps: &mut Steps<L>,
) -> Result<(), AllocError> {
    if plain.monomers.is_empty() {
        return Ok(());
    }
    let monomer = draw(draws, plain.monomers.len() as u64) as usize;
    let dir = Dir::of(draw(draws, 6) as u32);
    let p = plain.monomers[monomer];
    let target = step_from(p, dir);
    let shape = lattice.shape();
    assert!(rt; is_in_reach(p) && is_in_reach(target));
    assert!(rt; is_inside(&shape, p));
    assert!(rt; is_cube_taken(lattice, p, steps));
    let room = is_inside(&shape, target) && plain.has_room(&shape, p, target);
    let free = lattice.face_free(p, dir, steps);
    assert_eq!(rt; free, room, "{p:?} {dir:?}");
    if free {
        lattice.shift(p, dir);
        plain.monomers[monomer] = target;
        plain.lift(&shape, p);
        plain.place(&shape, target)?;
    }
    Ok(())
}

fn step_from(p: P3, dir: Dir) -> P3 {
    let step = dir.step();
    P3 {
        x: p.x.wrapping_add(step.x),
        y: p.y.wrapping_add(step.y),
        z: p.z.wrapping_add(step.z),
    }
}

fn lift_last<L: Ledger>(
    rt: &impl Abort,
    lattice: &mut Lattice,
    plain: &mut Plain,
    steps: &mut Steps<L>,
) {
    if let Some(p) = plain.monomers.pop() {
        let shape = lattice.shape();
        assert!(rt; is_in_reach(p));
        assert!(rt; is_inside(&shape, p));
        assert!(rt; is_cube_taken(lattice, p, steps));
        lattice.lift(p);
        plain.lift(&shape, p);
    }
}

// 2,500 operations in turn with the plain model, and then an empty box again.
fn agree<L: Ledger>(
    rt: &impl Abort,
    alloc: Global,
    shape: Shape,
    base: i64,
    blank: Blank,
) -> Result<(), AllocError>
    requires limits { IsBox shape }
    requires name { blank.name ≡ L.name }
    requires parts { blank.parts ≡ L.parts }
    requires some { 0 < blank.parts }
{
    let mut steps = Steps::<L>::new(blank);
    let mut lattice = Lattice::new(alloc, shape)?;
    let mut plain = Plain {
        monomers: Vec::new(alloc),
        taken: Vec::new(alloc),
    };
    let mut draws = 88172645463325252;
    for _ in 0..2500 {
        match draw(&mut draws, 8) {
            0..2 => {
                let p = draw_place(&mut draws, &shape, base);
                try_to_place(rt, &mut lattice, &mut plain, p)?;
            }
            2..7 => try_to_step(rt, &mut lattice, &mut plain, &mut draws, &mut steps)?,
            _ => lift_last(rt, &mut lattice, &mut plain, &mut steps),
        }
    }
    lattice.clear();
    plain.taken.clear();
    let p = draw_place(&mut draws, &shape, base);
    try_to_place(rt, &mut lattice, &mut plain, p)
}

#[test]
fn a_lattice_agrees_with_a_list_of_sites(rt: HostRuntime) -> Result<(), Fail> {
    let boxes = [
        ([9, 8, 11], [true, true, true], -20),
        ([65, 9, 8], [true, false, true], 7 - FAR),
        ([130, 8, 8], [false, true, false], FAR - 600),
        ([8, 8, 67], [false, false, false], 0),
    ];
    for (sides, periodic, base) in boxes {
        let shape = Shape { sides, periodic };
        assert!(rt; is_box(&shape));
        agree::<Brand>(&rt, rt.alloc(), shape, base, Blank::new(1))?;
    }
    Ok(())
}

fn is_box(shape: &Shape) -> bool
    ensures { IsTrue result → IsBox shape.now }
{
    let [x, y, z] = shape.sides;
    (8..=512).contains(&x)
        && (8..=512).contains(&y)
        && (8..=512).contains(&z)
        && u64::from(x) * u64::from(y) * u64::from(z) <= 1 << 24
}
