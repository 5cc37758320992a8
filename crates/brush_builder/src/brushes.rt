ghost use Rattle.std.specs.Prelude.{◌≡◌, ◌↔◌, ℕ, ◌*◌, ◌<◌, ◌≤◌, true, false, pos, Err, IfOk, IfErr};
ghost use Rattle.bfm_base.specs.declared.limits.TheConstants.{GREATEST_CLASS, GREATEST_SIDE, MOST_MONOMERS};
ghost use Rattle.bfm_geom.specs.Difference.{IsBox, side_of, is_periodic};
ghost use Rattle.contact_table.specs.Contacts.{weight_of};
ghost use Rattle.bfm_world.specs.Bonds.{are_bonded};
ghost use Rattle.bfm_world.specs.Chains.{AreSuccessive};
ghost use Rattle.bfm_world.specs.Configuration.{IsValid, is_fixed, reach_of};
ghost use Rattle.bfm_world.specs.declared.build_fault.BuildFault.{BuildFault};
ghost use Rattle.brush_builder.specs.Brush.{feet_in, room_above, brush_world, is_foot};

use crate::feet::{feet_in, fix_feet, place_all};
use bfm_base::Shape;
use bfm_world::{BuildFault, World, WorldBuilder, join_chains};
use bond_set::BondSet;
use contact_table::Table;
use std::alloc::Global;

/// Builds a brush of upright chains of so many monomers each (at most 2^18 monomers in all), with
/// the usual set, on feet that stand so far apart (2 to 512 lattice units) and are fixed. It is
/// refused with `NoRoom` where a chain has more monomers than fit upright between the walls of the
/// z axis. Contacts weigh nothing. No coordinate is beyond 512 lattice units.
pub fn brush(alloc: Global, shape: Shape, spacing: u32, length: u32) -> Result<World, BuildFault>
    requires box_limits { IsBox shape }
    requires walled { is_periodic shape 2 ≡ false }
    requires apart { 2 ≤ spacing }
    requires across { spacing ≤ side_of shape 0 }
    requires deep { spacing ≤ side_of shape 1 }
    requires some_monomers { 1 ≤ length }
    requires few { feet_in shape spacing * length ≤ MOST_MONOMERS }
    ensures no_room { room_above shape < length → result ≡ Err (BuildFault.NoRoom length (room_above shape)) }
    ensures room { length ≤ room_above shape → IfErr result (λ fault. fault ≡ BuildFault.Memory) }
    ensures world { IfOk result (λ world. world ≡ brush_world shape spacing length) }
    ensures valid { IfOk result IsValid }
    ensures near { IfOk result (λ world. reach_of world.positions ≤ GREATEST_SIDE) }
    ensures contacts { IfOk result (λ world. (a b : ℕ) → a ≤ GREATEST_CLASS → b ≤ GREATEST_CLASS → weight_of world.table a b ≡ pos 0) }

    // Which monomers are fixed: the first of each chain.
    ensures feet { IfOk result (λ world. (i : ℕ) → i < feet_in shape spacing * length → is_fixed world i ≡ is_foot length i) }

    // Who is bonded to whom.
    ensures bonded { IfOk result (λ world. (i j : ℕ) → i < feet_in shape spacing * length
        → (are_bonded world.bonds i j ≡ true) ↔ AreSuccessive length i j) }
{
    let [_, _, z] = shape.sides;
    let have = u32::from(z / 2);
    if length > have {
        return Err(BuildFault::NoRoom {
            need: u64::from(length),
            have: u64::from(have),
        });
    }
    let n = feet_in(&shape, spacing) * length;
    let set = BondSet::usual(alloc)?;
    let mut builder = WorldBuilder::new(alloc, shape, set, Table::new(), n)?;
    place_all(&mut builder, spacing, length);
    join_chains(&mut builder, length);
    fix_feet(&mut builder, length);
    Ok(builder.finish())
}
