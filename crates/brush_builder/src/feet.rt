ghost use Rattle.std.specs.Prelude.{◌≡◌, ℕ, ◌*◌, ◌^◌, ◌<◌, ◌≤◌, false, pos, [], replicate};
ghost use Rattle.bfm_geom.specs.Difference.{IsBox, side_of};
ghost use Rattle.bfm_world.specs.Bonds.{neighbours_of};
ghost use Rattle.bfm_world.specs.Draft.{with_positions, with_fixed_list};
ghost use Rattle.brush_builder.specs.Brush.{feet_along, feet_in, room_above, place_of, brush_positions, feet_marks};

use bfm_base::{P3, Shape};
use bfm_world::WorldBuilder;

/// How many feet stand in the box, so far apart (2 to 512 lattice units).
pub fn feet_in(shape: &Shape, spacing: u32) -> u32
    requires { 0 < spacing }
    ensures { result ≡ feet_in shape.now spacing }
{
    let [x, y, _] = shape.sides;
    u32::from(x) / spacing * (u32::from(y) / spacing)
}

/// The coordinate of the foot that has so many others before it in its row.
fn spaced(spacing: u32, others: u32) -> i64
    requires { spacing < 2 ^ 16 }
    ensures { result ≡ pos (spacing * others) }
{
    i64::from(spacing) * i64::from(others)
}

/// The place of a monomer of chains of one length.
fn place_of(shape: &Shape, spacing: u32, length: u32, monomer: u32) -> P3
    requires some { 0 < spacing }
    requires fits { spacing ≤ side_of shape.now 0 }
    requires chain { 0 < length }
    ensures { result ≡ place_of shape.now spacing length monomer }
{
    let [x, _, _] = shape.sides;
    let row = u32::from(x) / spacing;
    let chain = monomer / length;
    P3 {
        x: spaced(spacing, chain % row),
        y: spaced(spacing, chain / row),
        z: 2 * i64::from(monomer % length),
    }
}

/// Places as many monomers in chains of one length as there are feet for. None of them is bonded
/// yet.
pub(crate) fn place_all(builder: &mut WorldBuilder, spacing: u32, length: u32)
    requires box_limits { IsBox builder.old.world.shape }
    requires apart { 2 ≤ spacing }
    requires across { spacing ≤ side_of builder.old.world.shape 0 }
    requires deep { spacing ≤ side_of builder.old.world.shape 1 }
    requires chain { 0 < length }
    requires room { length ≤ room_above builder.old.world.shape }
    requires count { builder.old.count ≡ feet_in builder.old.world.shape spacing * length }
    requires none { builder.old.world.positions ≡ [] }
    requires unbonded { (i : ℕ) → neighbours_of builder.old.world.bonds i ≡ [] }
    ensures { builder.new ≡ with_positions builder.old (brush_positions builder.old.world.shape spacing length builder.old.count) }
{
    let shape = builder.shape();
    for monomer in 0..builder.count() {
        builder
            .place(place_of(&shape, spacing, length, monomer))
            .unwrap();
    }
}

/// Fixes the first monomer of each chain, where none is fixed yet.
pub(crate) fn fix_feet(builder: &mut WorldBuilder, length: u32)
    requires chain { 0 < length }
    requires none { builder.old.world.fixed ≡ replicate builder.old.count false }
    ensures { builder.new ≡ with_fixed_list builder.old (feet_marks length builder.old.count) }
{
    for monomer in 0..builder.count() {
        if monomer % length == 0 {
            builder.fix(monomer);
        }
    }
}
