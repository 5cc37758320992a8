ghost use Rattle.std.specs.Prelude.{◌≡◌, ◌^◌, ◌<◌, ◌≤◌, true, nat_abs};
ghost use Rattle.bfm_base.specs.declared.place.P3.{P3};
ghost use Rattle.bfm_base.specs.declared.place.Shape.{Shape};
ghost use Rattle.bfm_base.specs.Direction.{step_of};
ghost use Rattle.bfm_base.specs.declared.limits.TheConstants.{DIFFERENCE_REACH, PLACE_REACH};
ghost use Rattle.bfm_geom.specs.Difference.{IsBox, IsSide, IsWithin, plus, side_of};
ghost use Rattle.bfm_geom.specs.Walls.{is_within_walls, is_within_walls_along};
ghost use Rattle.packed_lattice.specs.Sites.{IsSite, folded, newly_covers, newly_leaves, site_of};
ghost use Rattle.packed_lattice.specs.Cube.{AreSites, IsCube, IsFace, IsPair, cube_at, next_along, pair_at, previous_along};

use bfm_base::{Dir, P3, Shape};

// A site by its folded coordinates.
#[derive(Clone, Copy)]
pub struct Site {
    pub x: usize,
    pub y: usize,
    pub z: usize,
}

// Named by what it is of a cube or face.
pub fn corner(x: usize, y: usize, z: usize) -> Site
    ensures { result ≡ record { x = x; y = y; z = z } }
{
    Site { x, y, z }
}

// What a site is to become.
#[derive(Clone, Copy)]
pub enum Occupancy {
    Free,
    Taken,
}

// Two folded coordinates along an axis: those that a monomer fills, or one of them twice.
#[derive(Clone, Copy)]
pub struct Pair {
    pub near: usize,
    pub far: usize,
}

// The sites that have one coordinate of each pair: the cube that a monomer fills, or a face.
#[derive(Clone, Copy)]
pub struct Cube {
    pub xs: Pair,
    pub ys: Pair,
    pub zs: Pair,
}

// The side of the box along an axis.
pub fn side(shape: &Shape, axis: usize) -> usize
    requires { axis < 3 }
    ensures { result ≡ side_of shape.now axis }
{
    usize::from(shape.sides[axis])
}

// A coordinate folded into the box. Most are folded already, and need no division.
pub fn fold(side: usize, c: i64) -> usize
    requires side { IsSide side }
    requires reach { nat_abs c ≤ DIFFERENCE_REACH }
    ensures value { result ≡ folded side c }
    ensures range { result < side }
{
    if 0 <= c && c < side as i64 {
        c as usize
    } else {
        c.rem_euclid(side as i64) as usize
    }
}

// The site of a place.
pub fn fold_place(shape: &Shape, p: P3) -> Site
    requires shape { IsBox shape.now }
    requires reach { IsWithin PLACE_REACH p }
    ensures value { result ≡ site_of shape.now p }
    ensures range { IsSite shape.now result }
{
    Site {
        x: fold(side(shape, 0), p.x),
        y: fold(side(shape, 1), p.y),
        z: fold(side(shape, 2), p.z),
    }
}

// The next coordinate along an axis. A comparison is cheaper than a remainder.
fn next(side: usize, x: usize) -> usize
    requires { (x < side) × IsSide side }
    ensures value { result ≡ next_along side x }
    ensures range { result < side }
{
    if x + 1 == side { 0 } else { x + 1 }
}

fn previous(side: usize, x: usize) -> usize
    requires { (x < side) × IsSide side }
    ensures value { result ≡ previous_along side x }
    ensures range { result < side }
{
    if x == 0 { side - 1 } else { x - 1 }
}

// What a monomer at the coordinate fills.
fn fill_along(side: usize, c: i64) -> Pair
    requires side { IsSide side }
    requires reach { nat_abs c ≤ PLACE_REACH }
    ensures value { result ≡ pair_at side c }
    ensures range { IsPair side result }
{
    let near = fold(side, c);
    let far = next(side, near);
    Pair { near, far }
}

// The cube that a monomer fills.
pub fn fill_cube(shape: &Shape, p: P3) -> Cube
    requires shape { IsBox shape.now }
    requires reach { IsWithin PLACE_REACH p }
    ensures value { result ≡ cube_at shape.now p }
    ensures range { IsCube shape.now result }
{
    Cube {
        xs: fill_along(side(shape, 0), p.x),
        ys: fill_along(side(shape, 1), p.y),
        zs: fill_along(side(shape, 2), p.z),
    }
}

// One coordinate twice, as a face has it along its own axis.
fn flat(x: usize) -> Pair
    ensures { result ≡ record { near = x; far = x } }
{
    Pair { near: x, far: x }
}

// The four sites that a monomer newly fills by a step from its cube.
pub fn entered_face(shape: &Shape, cube: Cube, dir: Dir) -> Cube
    requires shape { IsBox shape.now }
    requires cube { IsCube shape.now cube }
    ensures sites { (p : P3) → cube ≡ cube_at shape.now p →
        AreSites shape.now result (newly_covers shape.now p dir) }
    ensures range { IsCube shape.now result }
    ensures face { IsFace result }
{
    match dir {
        Dir::XUp => Cube {
            xs: flat(next(side(shape, 0), cube.xs.far)),
            ..cube
        },
        Dir::XDown => Cube {
            xs: flat(previous(side(shape, 0), cube.xs.near)),
            ..cube
        },
        Dir::YUp => Cube {
            ys: flat(next(side(shape, 1), cube.ys.far)),
            ..cube
        },
        Dir::YDown => Cube {
            ys: flat(previous(side(shape, 1), cube.ys.near)),
            ..cube
        },
        Dir::ZUp => Cube {
            zs: flat(next(side(shape, 2), cube.zs.far)),
            ..cube
        },
        Dir::ZDown => Cube {
            zs: flat(previous(side(shape, 2), cube.zs.near)),
            ..cube
        },
    }
}

// The four sites that a monomer leaves by a step from its cube.
pub fn left_face(cube: Cube, dir: Dir) -> Cube
    ensures sites { (shape : Shape) (p : P3) → IsBox shape → cube ≡ cube_at shape p →
        AreSites shape result (newly_leaves shape p dir) }
    ensures range { (shape : Shape) → IsCube shape cube → IsCube shape result }
    ensures face { IsFace result }
{
    match dir {
        Dir::XUp => Cube {
            xs: flat(cube.xs.near),
            ..cube
        },
        Dir::XDown => Cube {
            xs: flat(cube.xs.far),
            ..cube
        },
        Dir::YUp => Cube {
            ys: flat(cube.ys.near),
            ..cube
        },
        Dir::YDown => Cube {
            ys: flat(cube.ys.far),
            ..cube
        },
        Dir::ZUp => Cube {
            zs: flat(cube.zs.near),
            ..cube
        },
        Dir::ZDown => Cube {
            zs: flat(cube.zs.far),
            ..cube
        },
    }
}

// The lower and the upper half of a cube.
pub fn lower_face(cube: Cube) -> Cube
    ensures { result ≡ record cube { zs = record { near = cube.zs.near; far = cube.zs.near } } }
{
    Cube {
        zs: flat(cube.zs.near),
        ..cube
    }
}

pub fn upper_face(cube: Cube) -> Cube
    ensures { result ≡ record cube { zs = record { near = cube.zs.far; far = cube.zs.far } } }
{
    Cube {
        zs: flat(cube.zs.far),
        ..cube
    }
}

// Whether a monomer has room along an axis.
fn is_inside_along(periodic: bool, side: u16, c: i64) -> bool
    requires { nat_abs c ≤ DIFFERENCE_REACH }
    ensures { result ≡ is_within_walls_along periodic side c }
{
    periodic || 0 <= c && c + 2 <= i64::from(side)
}

// Whether a monomer may stand at the place as far as the walls go.
pub fn is_inside(shape: &Shape, p: P3) -> bool
    requires { IsWithin PLACE_REACH p }
    ensures { result ≡ is_within_walls shape.now p }
{
    is_inside_along(shape.periodic[0], shape.sides[0], p.x)
        && is_inside_along(shape.periodic[1], shape.sides[1], p.y)
        && is_inside_along(shape.periodic[2], shape.sides[2], p.z)
}

// Whether a step from a place within the walls stays within them: along its axis alone.
pub fn stays_inside(shape: &Shape, p: P3, dir: Dir) -> bool
    requires reach { IsWithin PLACE_REACH p }
    requires inside { is_within_walls shape.now p ≡ true }
    ensures { result ≡ is_within_walls shape.now (plus p (step_of dir)) }
{
    match dir {
        Dir::XUp => is_inside_along(shape.periodic[0], shape.sides[0], p.x + 1),
        Dir::XDown => is_inside_along(shape.periodic[0], shape.sides[0], p.x - 1),
        Dir::YUp => is_inside_along(shape.periodic[1], shape.sides[1], p.y + 1),
        Dir::YDown => is_inside_along(shape.periodic[1], shape.sides[1], p.y - 1),
        Dir::ZUp => is_inside_along(shape.periodic[2], shape.sides[2], p.z + 1),
        Dir::ZDown => is_inside_along(shape.periodic[2], shape.sides[2], p.z - 1),
    }
}
