ghost use Rattle.std.specs.Prelude.{◌≡◌, ℕ, ◌<◌, ◌≤◌, true, pos, IfOk};
ghost use Rattle.bfm_base.specs.declared.limits.TheConstants.{GREATEST_CLASS, GREATEST_SIDE};
ghost use Rattle.bfm_base.specs.Direction.{step_of};
ghost use Rattle.bfm_geom.specs.Difference.{plus, minus, wrapped};
ghost use Rattle.contact_table.specs.Contacts.{weight_of};
ghost use Rattle.bfm_world.specs.Bonds.{are_bonded};
ghost use Rattle.bfm_world.specs.Configuration.{IsValid, position_of, reach_of};
ghost use Rattle.network_builder.specs.declared.nodes.Axis.{Axis};
ghost use Rattle.network_builder.specs.Network.{IsNetwork, monomers_in, network_world, comes_after, are_joined, direction_along};

use crate::nodes::Axis;
use crate::strands::{join_along, monomers_of_node, place_all};
use bfm_base::Shape;
use bfm_world::{World, WorldBuilder};
use bond_set::BondSet;
use contact_table::Table;
use std::alloc::{AllocError, Global};

/// Builds a network of so many nodes (1 to 128) along each axis, whose strands have so many
/// monomers (0 to 255) each, with the usual set, in a box that is periodic along all axes. Its side
/// is `2 * nodes * (strand + 1)` lattice units, 8 to 256, and it has `nodes^3 * (1 + 3 * strand)`
/// monomers, at most 2^18. Contacts weigh nothing. No coordinate is beyond 512 lattice units.
pub fn network(alloc: Global, nodes: u32, strand: u32) -> Result<World, AllocError>
    requires network { IsNetwork nodes strand }
    ensures world { IfOk result (λ world. world ≡ network_world nodes strand) }
    ensures valid { IfOk result IsValid }
    ensures near { IfOk result (λ world. reach_of world.positions ≤ GREATEST_SIDE) }
    ensures contacts { IfOk result (λ world. (a b : ℕ) → a ≤ GREATEST_CLASS → b ≤ GREATEST_CLASS → weight_of world.table a b ≡ pos 0) }

    // Who is bonded to whom, and how a monomer lies to the one that comes after it along an axis.
    ensures bonded { IfOk result (λ world. (i j : ℕ) → i < monomers_in nodes strand → j < monomers_in nodes strand
        → are_bonded world.bonds i j ≡ are_joined nodes strand i j) }
    ensures steps { IfOk result (λ world. (axis : Axis) (i j : ℕ) → i < monomers_in nodes strand → comes_after nodes strand axis i j ≡ true
        → wrapped world.shape (minus (position_of world j) (position_of world i)) ≡ plus (step_of (direction_along axis)) (step_of (direction_along axis))) }
{
    let side = (2 * nodes * (strand + 1)) as u16;
    let shape = Shape {
        sides: [side, side, side],
        periodic: [true, true, true],
    };
    let n = nodes * nodes * nodes * monomers_of_node(strand);
    let set = BondSet::usual(alloc)?;
    let mut builder = WorldBuilder::new(alloc, shape, set, Table::new(), n)?;
    place_all(&mut builder, nodes, strand);
    join_along(&mut builder, nodes, strand, Axis::X);
    join_along(&mut builder, nodes, strand, Axis::Y);
    join_along(&mut builder, nodes, strand, Axis::Z);
    Ok(builder.finish())
}
