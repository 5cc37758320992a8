ghost use Rattle.std.specs.Prelude.{◌≡◌, ◌≢◌, ◌<◌, true, length, slice_set, IfOk};
ghost use Rattle.bfm_base.specs.declared.place.Dir.{Dir};
ghost use Rattle.bfm_base.specs.declared.place.P3.{P3};
ghost use Rattle.bfm_base.specs.Direction.{step_of};
ghost use Rattle.bfm_geom.specs.Difference.{IsBox, plus};
ghost use Rattle.packed_lattice.specs.Cube.{next_along, previous_along};
ghost use Rattle.packed_lattice.specs.Sites.{IsSite, site_of};
ghost use Rattle.bond_set.specs.Crossing.{direction_number};
ghost use Rattle.packed_engine.specs.Spots.{allows, place_in, site_in, spot_at};

use bfm_base::{Dir, P3, Shape};
use std::alloc::{AllocError, Global};
use std::marker::Model;

/// What an attempt first asks of a monomer: its place, folded into the box, and the steps that its
/// own mark and its bonds allow, a bit for each direction.
#[derive(Clone, Copy)]
pub(crate) struct Spot {
    pub x: u16,
    pub y: u16,
    pub z: u16,
    pub steps: u8,
}

/// The spot of each monomer, at 8 bytes a monomer.
#[derive(Drop)]
pub(crate) struct Spots {
    kept: Vec<Spot>,
}

impl Model for Spots {
    ghost use Rattle.std.specs.Prelude.{List};
    ghost use Rattle.packed_engine.specs.declared.spots.Spot.{Spot};

    ghost Value = { List Spot };

    ghost view = { λ s. s.kept.items };
}

impl Spots {
    /// So many spots that allow no step.
    pub fn new(alloc: Global, count: u32) -> Result<Spots, AllocError>
        ensures { IfOk result (λ spots. length spots ≡ count) }
    {
        let nowhere = Spot {
            x: 0,
            y: 0,
            z: 0,
            steps: 0,
        };
        let kept = vec![in alloc; nowhere; count as usize]?;
        Ok(Spots { kept })
    }

    pub fn at(&self, i: u32) -> Spot
        requires { i < length self.now }
        ensures { result ≡ spot_at self.now i }
    {
        self.kept[i as usize]
    }

    pub fn put(&mut self, i: u32, spot: Spot)
        requires { i < length self.old }
        ensures { self.new ≡ slice_set self.old i spot }
    {
        self.kept[i as usize] = spot;
    }
}

/// The number of a direction.
pub(crate) fn number(dir: Dir) -> u32
    ensures value { result ≡ direction_number dir }
    ensures few { result < 6 }
{
    match dir {
        Dir::XUp => 0,
        Dir::XDown => 1,
        Dir::YUp => 2,
        Dir::YDown => 3,
        Dir::ZUp => 4,
        Dir::ZDown => 5,
    }
}

/// Whether a byte of steps has a direction.
pub(crate) fn allows(steps: u8, dir: Dir) -> bool
    ensures { result ≡ allows steps dir }
{
    u64::from(steps) & (1 << number(dir)) != 0
}

/// The same byte with a direction more.
pub(crate) fn with_step(steps: u8, dir: Dir) -> u8
    ensures same { allows result dir ≡ true }
    ensures others { (other : Dir) → direction_number other ≢ direction_number dir → allows result other ≡ allows steps other }
{
    steps | 1 << number(dir)
}

/// The folded place of a monomer, of which nothing has to be divided.
pub(crate) fn place_in(spot: Spot) -> P3
    ensures { result ≡ place_in spot }
{
    P3 {
        x: i64::from(spot.x),
        y: i64::from(spot.y),
        z: i64::from(spot.z),
    }
}

/// The spot one step away, which allows the same steps.
pub(crate) fn stepped(shape: &Shape, spot: Spot, dir: Dir) -> Spot
    requires shape { IsBox shape.now }
    requires spot { IsSite shape.now (site_in spot) }
    ensures { (p : P3) → site_in spot ≡ site_of shape.now p → site_in result ≡ site_of shape.now (plus p (step_of dir)) }
{
    let [x, y, z] = shape.sides;
    match dir {
        Dir::XUp => Spot {
            x: next(x, spot.x),
            ..spot
        },
        Dir::XDown => Spot {
            x: previous(x, spot.x),
            ..spot
        },
        Dir::YUp => Spot {
            y: next(y, spot.y),
            ..spot
        },
        Dir::YDown => Spot {
            y: previous(y, spot.y),
            ..spot
        },
        Dir::ZUp => Spot {
            z: next(z, spot.z),
            ..spot
        },
        Dir::ZDown => Spot {
            z: previous(z, spot.z),
            ..spot
        },
    }
}

/// The next folded coordinate along an axis.
fn next(side: u16, c: u16) -> u16
    requires { c < side }
    ensures { result ≡ next_along side c }
{
    if c + 1 == side { 0 } else { c + 1 }
}

fn previous(side: u16, c: u16) -> u16
    requires { c < side }
    ensures { result ≡ previous_along side c }
{
    if c == 0 { side - 1 } else { c - 1 }
}
