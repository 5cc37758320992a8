ghost use Rattle.std.specs.Prelude.{◌≡◌, ℕ, ◌+◌, ◌^◌, ◌<◌, ◌≤◌, ◌||◌, true, [], length};
ghost use Rattle.bfm_base.specs.declared.limits.TheConstants.{MOST_BONDS};
ghost use Rattle.bond_set.specs.UsualSet.{usual_set};
ghost use Rattle.bfm_world.specs.Bonds.{neighbours_of, are_bonded};
ghost use Rattle.bfm_world.specs.Draft.{with_positions, with_bonds};
ghost use Rattle.network_builder.specs.Network.{IsNetwork, monomers_of_node, monomers_in, network_shape, steps_along, cell_along, place_of, network_positions, is_on, next_along, are_joined_along};

use crate::nodes::{Axis, Node};
use bfm_base::P3;
use bfm_world::WorldBuilder;

/// How many monomers a node takes: itself and those of its three strands.
pub(crate) fn monomers_of_node(strand: u32) -> u32
    requires { strand < 2 ^ 16 }
    ensures { result ≡ monomers_of_node strand }
{
    1 + 3 * strand
}

/// How many steps of two units a monomer stands from its node along an axis.
fn steps_along(strand: u32, axis: Axis, monomer: u32) -> u32
    requires { strand < 2 ^ 16 }
    ensures { result ≡ steps_along strand axis monomer }
{
    let within = monomer % monomers_of_node(strand);
    let before = axis.strands_before() * strand;
    if before < within && within <= before + strand {
        within - before
    } else {
        0
    }
}

/// How many steps of two units a monomer stands from the first node along an axis.
fn cell_along(nodes: u32, strand: u32, axis: Axis, monomer: u32) -> u32
    requires network { IsNetwork nodes strand }
    requires monomer { monomer < monomers_in nodes strand }
    ensures { result ≡ cell_along nodes strand axis monomer }
{
    let node = Node::at(nodes, monomer / monomers_of_node(strand));
    (strand + 1) * node.along(axis) + steps_along(strand, axis, monomer)
}

fn place_of(nodes: u32, strand: u32, monomer: u32) -> P3
    requires network { IsNetwork nodes strand }
    requires monomer { monomer < monomers_in nodes strand }
    ensures { result ≡ place_of nodes strand monomer }
{
    P3 {
        x: 2 * i64::from(cell_along(nodes, strand, Axis::X, monomer)),
        y: 2 * i64::from(cell_along(nodes, strand, Axis::Y, monomer)),
        z: 2 * i64::from(cell_along(nodes, strand, Axis::Z, monomer)),
    }
}

/// Whether a monomer is a node or belongs to the strand of its node along an axis.
fn is_on(strand: u32, axis: Axis, monomer: u32) -> bool
    requires { strand < 2 ^ 16 }
    ensures { result ≡ is_on strand axis monomer }
{
    monomer % monomers_of_node(strand) == 0 || steps_along(strand, axis, monomer) > 0
}

/// The monomer that comes after one along an axis on which it is.
fn next_along(nodes: u32, strand: u32, axis: Axis, monomer: u32) -> u32
    requires network { IsNetwork nodes strand }
    requires monomer { monomer < monomers_in nodes strand }
    requires on { is_on strand axis monomer ≡ true }
    ensures next { result ≡ next_along nodes strand axis monomer }
    ensures inside { result < monomers_in nodes strand }
{
    let number = monomer / monomers_of_node(strand);
    let steps = steps_along(strand, axis, monomer);
    if steps < strand {
        number * monomers_of_node(strand) + axis.strands_before() * strand + steps + 1
    } else {
        let next = Node::at(nodes, number).next(nodes, axis);
        next.number(nodes) * monomers_of_node(strand)
    }
}

/// Places all monomers of a network. None of them is bonded yet.
pub(crate) fn place_all(builder: &mut WorldBuilder, nodes: u32, strand: u32)
    requires network { IsNetwork nodes strand }
    requires shape { builder.old.world.shape ≡ network_shape nodes strand }
    requires count { builder.old.count ≡ monomers_in nodes strand }
    requires none { builder.old.world.positions ≡ [] }
    requires unbonded { (i : ℕ) → neighbours_of builder.old.world.bonds i ≡ [] }
    ensures { builder.new ≡ with_positions builder.old (network_positions nodes strand) }
{
    for monomer in 0..builder.count() {
        builder.place(place_of(nodes, strand, monomer)).unwrap();
    }
}

/// Joins each monomer that is on a strand along this axis to the one that comes after it. All
/// monomers are placed. Each gets at most two bonds more, one on either side.
pub(crate) fn join_along(builder: &mut WorldBuilder, nodes: u32, strand: u32, axis: Axis)
    requires network { IsNetwork nodes strand }
    requires shape { builder.old.world.shape ≡ network_shape nodes strand }
    requires count { builder.old.count ≡ monomers_in nodes strand }
    requires set { builder.old.world.set ≡ usual_set }
    requires placed { builder.old.world.positions ≡ network_positions nodes strand }
    requires room { (i : ℕ) → length (neighbours_of builder.old.world.bonds i) + 2 ≤ MOST_BONDS }
    ensures bonds { (i j : ℕ) → i < monomers_in nodes strand → j < monomers_in nodes strand
        → are_bonded builder.new.world.bonds i j ≡ (are_bonded builder.old.world.bonds i j || are_joined_along nodes strand axis i j) }
    ensures few { (i : ℕ) → length (neighbours_of builder.new.world.bonds i) ≤ length (neighbours_of builder.old.world.bonds i) + 2 }
    ensures rest { builder.new ≡ with_bonds builder.old builder.new.world.bonds }
{
    for monomer in 0..builder.count() {
        if is_on(strand, axis, monomer) {
            let next = next_along(nodes, strand, axis, monomer);
            builder.join(monomer, next).unwrap();
        }
    }
}
