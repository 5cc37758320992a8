ghost use Rattle.std.specs.Prelude.{◌≡◌, ◌+◌, ◌<◌, [], ◌∷◌, length, slice_index, IfOk};
ghost use Rattle.chain_stats.specs.Search.{AreSearched, IsSpreading, missing};
ghost use Rattle.cluster_stats.specs.Clusters.{contact_lists};
ghost use Rattle.cluster_stats.specs.Places.{AreOwners};

use crate::places::{home_of, monomer_at};
use crate::shell::{SHELL, vector};
use bfm_world::World;
use packed_lattice::Owners;
use std::alloc::{AllocError, Global};

/// The root of each monomer: the least monomer of its cluster.
pub(crate) fn roots_of(
    alloc: Global,
    world: &World,
    owners: &Owners,
) -> Result<Vec<u32>, AllocError>
    requires { AreOwners world.now (length world.now.positions) owners.now }
    ensures { IfOk result (λ roots. AreSearched (contact_lists world.now) (length world.now.positions) (length world.now.positions) roots.items) }
{
    let count = world.len();
    let mut roots: Vec<u32> = vec![in alloc; count; count as usize]?;
    let mut waiting: Vec<u32> = Vec::with_capacity(alloc, count as usize)?;
    find_all(world, owners, &mut roots, &mut waiting)?;
    Ok(roots)
}

/// Finds all clusters, in order of their least monomers.
fn find_all(
    world: &World,
    owners: &Owners,
    roots: &mut [u32],
    waiting: &mut Vec<u32>,
) -> Result<(), AllocError>
    requires owners { AreOwners world.now (length world.now.positions) owners.now }
    requires searched { AreSearched (contact_lists world.now) (length world.now.positions) 0 roots.old }
    requires none { waiting.old.items ≡ [] }
    ensures { IfOk result (λ _. AreSearched (contact_lists world.now) (length world.now.positions) (length world.now.positions) roots.new) }
{
    let count = world.len();
    for number in 0..count {
        if roots[number as usize] == count {
            find_cluster(world, owners, number, roots, waiting)?;
        }
    }
    Ok(())
}

/// Finds the cluster whose least monomer this is.
fn find_cluster(
    world: &World,
    owners: &Owners,
    number: u32,
    roots: &mut [u32],
    waiting: &mut Vec<u32>,
) -> Result<(), AllocError>
    requires monomer { number < length world.now.positions }
    requires owners { AreOwners world.now (length world.now.positions) owners.now }
    requires searched { AreSearched (contact_lists world.now) (length world.now.positions) number roots.old }
    requires first { slice_index roots.old number ≡ length world.now.positions }
    requires none { waiting.old.items ≡ [] }
    ensures searched { IfOk result (λ _. AreSearched (contact_lists world.now) (length world.now.positions) (number + 1) roots.new) }
    ensures none { IfOk result (λ _. waiting.new.items ≡ []) }
{
    roots[number as usize] = number;
    waiting.push(number)?;
    while let Some(i) = waiting.pop() {
        go_on(world, owners, i, number, roots, waiting)?;
    }
    Ok(())
}

/// Goes on from a monomer to those in contact with it, those of which wait that are found only now.
fn go_on(
    world: &World,
    owners: &Owners,
    i: u32,
    number: u32,
    roots: &mut [u32],
    waiting: &mut Vec<u32>,
) -> Result<(), AllocError>
    requires monomer { number < length world.now.positions }
    requires owners { AreOwners world.now (length world.now.positions) owners.now }
    requires spreading { IsSpreading (contact_lists world.now) (length world.now.positions) number roots.old (i ∷ waiting.old.items) }
    ensures spreading { IfOk result (λ _. IsSpreading (contact_lists world.now) (length world.now.positions) number roots.new waiting.new.items) }
    ensures work { IfOk result (λ _. missing (length world.now.positions) roots.new + length waiting.new.items
        ≡ missing (length world.now.positions) roots.old + length waiting.old.items) }
{
    let count = world.len();
    let home = home_of(world, i);
    for offset in SHELL {
        if let Some(j) = monomer_at(world, owners, i, home, vector(offset)) {
            if roots[j as usize] == count {
                roots[j as usize] = number;
                waiting.push(j)?;
            }
        }
    }
    Ok(())
}
