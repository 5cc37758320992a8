ghost use Rattle.std.specs.Prelude.{◌≡◌, ℕ, ◌<◌, ◌≤◌, []};
ghost use Rattle.bfm_base.specs.declared.limits.TheConstants.{MOST_SITES};
ghost use Rattle.bfm_geom.specs.Difference.{IsBox};
ghost use Rattle.bfm_world.specs.Bonds.{neighbours_of};
ghost use Rattle.bfm_world.specs.Draft.{with_positions};
ghost use Rattle.melt_builder.specs.Melt.{cells_in, to_and_fro, place_of, melt_positions};

use bfm_base::{P3, Shape};
use bfm_world::WorldBuilder;

/// How many cells of two sites a side the box has: a side that is odd leaves one layer of sites over.
pub(crate) fn cells_in(shape: &Shape) -> u32
    requires { IsBox shape.now }
    ensures value { result ≡ cells_in shape.now }
    ensures few { result ≤ MOST_SITES }
{
    let [x, y, z] = shape.sides;
    u32::from(x / 2) * u32::from(y / 2) * u32::from(z / 2)
}

/// Where one stands along a line of so many places after so many steps, going to and fro.
fn to_and_fro(places: u32, steps: u32) -> u32
    requires { 0 < places }
    ensures value { result ≡ to_and_fro places steps }
    ensures along { result < places }
{
    let along = steps % places;
    if steps / places % 2 == 0 {
        along
    } else {
        places - 1 - along
    }
}

/// The place of a cell on the way through all cells.
fn place_of(shape: &Shape, cell: u32) -> P3
    requires { IsBox shape.now }
    ensures { result ≡ place_of shape.now cell }
{
    let [x, y, _] = shape.sides;
    let row_length = u32::from(x / 2);
    let rows = u32::from(y / 2);
    let row = cell / row_length;
    P3 {
        x: 2 * i64::from(to_and_fro(row_length, cell)),
        y: 2 * i64::from(to_and_fro(rows, row)),
        z: 2 * i64::from(row / rows),
    }
}

/// Places so many monomers along the way, one in each cell. None of them is bonded yet.
pub(crate) fn place_all(builder: &mut WorldBuilder, n: u32)
    requires box_limits { IsBox builder.old.world.shape }
    requires none { builder.old.world.positions ≡ [] }
    requires unbonded { (i : ℕ) → neighbours_of builder.old.world.bonds i ≡ [] }
    requires count { n ≤ builder.old.count }
    requires room { n ≤ cells_in builder.old.world.shape }
    ensures { builder.new ≡ with_positions builder.old (melt_positions builder.old.world.shape n) }
{
    let shape = builder.shape();
    for cell in 0..n {
        builder.place(place_of(&shape, cell)).unwrap();
    }
}
