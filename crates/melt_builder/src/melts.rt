ghost use Rattle.std.specs.Prelude.{◌≡◌, ◌↔◌, ℕ, ◌+◌, ◌*◌, ◌<◌, ◌≤◌, true, pos, Err, IfOk, IfErr, length};
ghost use Rattle.bfm_base.specs.declared.limits.TheConstants.{GREATEST_CLASS, GREATEST_SIDE, MOST_MONOMERS};
ghost use Rattle.bfm_geom.specs.Difference.{IsBox};
ghost use Rattle.contact_table.specs.Contacts.{weight_of};
ghost use Rattle.bfm_world.specs.Bonds.{are_bonded};
ghost use Rattle.bfm_world.specs.Chains.{AreSuccessive, LiesTwoOn};
ghost use Rattle.bfm_world.specs.Configuration.{IsValid, position_of, reach_of};
ghost use Rattle.bfm_world.specs.declared.build_fault.BuildFault.{BuildFault};
ghost use Rattle.melt_builder.specs.Melt.{cells_in, melt_world};

use crate::cells::{cells_in, place_all};
use bfm_base::Shape;
use bfm_world::{BuildFault, World, WorldBuilder, join_chains};
use bond_set::BondSet;
use contact_table::Table;
use std::alloc::Global;

/// Builds a melt of so many chains of so many monomers each (at most 2^18 monomers in all), with the
/// usual set. It is refused with `NoRoom` where it needs more cells of two sites a side than the box
/// has. Each bond is two lattice units along an axis, which is as short as a bond may be. Contacts
/// weigh nothing. No coordinate is beyond 512 lattice units.
pub fn melt(alloc: Global, shape: Shape, chains: u32, length: u32) -> Result<World, BuildFault>
    requires box_limits { IsBox shape }
    requires some_chains { 1 ≤ chains }
    requires some_monomers { 1 ≤ length }
    requires few { chains * length ≤ MOST_MONOMERS }
    ensures no_room { cells_in shape < chains * length
        → result ≡ Err (BuildFault.NoRoom (chains * length) (cells_in shape)) }
    ensures room { chains * length ≤ cells_in shape → IfErr result (λ fault. fault ≡ BuildFault.Memory) }
    ensures world { IfOk result (λ world. world ≡ melt_world shape chains length) }
    ensures valid { IfOk result IsValid }
    ensures near { IfOk result (λ world. reach_of world.positions ≤ GREATEST_SIDE) }
    ensures contacts { IfOk result (λ world. (a b : ℕ) → a ≤ GREATEST_CLASS → b ≤ GREATEST_CLASS → weight_of world.table a b ≡ pos 0) }

    // Who is bonded to whom, and how each monomer lies to the one before it.
    ensures bonded { IfOk result (λ world. (i j : ℕ) → i < chains * length
        → (are_bonded world.bonds i j ≡ true) ↔ AreSuccessive length i j) }
    ensures steps { IfOk result (λ world. (k : ℕ) → k + 1 < chains * length → LiesTwoOn (position_of world k) (position_of world (k + 1))) }
{
    let need = chains * length;
    let have = cells_in(&shape);
    if need > have {
        return Err(BuildFault::NoRoom {
            need: u64::from(need),
            have: u64::from(have),
        });
    }
    let set = BondSet::usual(alloc)?;
    let mut builder = WorldBuilder::new(alloc, shape, set, Table::new(), need)?;
    place_all(&mut builder, need);
    join_chains(&mut builder, length);
    Ok(builder.finish())
}
