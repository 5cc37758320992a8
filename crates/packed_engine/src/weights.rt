ghost use Rattle.std.specs.Prelude.{◌≡◌, ℕ, ◌+◌, ◌*◌, ◌<◌, ◌≤◌, true, false, nat_abs, length, unsigned_abs, Some, IfSome};
ghost use Rattle.bfm_base.specs.Place.{extent_of};
ghost use Rattle.bfm_base.specs.declared.limits.TheConstants.{GREATEST_WEIGHT, WORLD_REACH};
ghost use Rattle.bfm_world.specs.Acceptance.{weight_at};
ghost use Rattle.packed_engine.specs.Beside.{WeighsNothing, difference_to, is_contact_offset, offset_at, weight_beside};
ghost use Rattle.packed_engine.specs.Tracking.{AreOwned};

use bfm_base::{P3, Steps};
use bfm_geom::shifted;
use bfm_world::World;
use contact_table::Table;
use packed_lattice::Owners;
use std::sync::ledger::Ledger;

/// How many offsets there are of at most two units along each axis.
const OFFSETS: u8 = 125;

/// How many pairs of classes there are, one of them being none.
const CLASS_PAIRS: u16 = 256;

/// Whether a contact of any two classes weighs anything.
pub(crate) fn weigh_anything(table: &Table) -> bool
    ensures { result ≡ false → WeighsNothing table.now }
{
    for k in 0..CLASS_PAIRS {
        if table.weight((k / 16) as u8, (k % 16) as u8) != 0 {
            return true;
        }
    }
    false
}

/// What the contacts of a monomer with all others weigh where it stands at a place, by the places
/// beside it. It counts its looks at places.
pub(crate) fn weight_at<L: Ledger>(
    world: &World,
    owners: &Owners,
    monomer: u32,
    p: P3,
    steps: &mut Steps<L>,
) -> i64
    requires monomer { monomer < length world.now.positions }
    requires owners { AreOwned world.now (length world.now.positions) owners.now }
    requires place { extent_of p ≤ WORLD_REACH + 1 }
    ensures value { result ≡ weight_at world.now monomer p }
    ensures limit { unsigned_abs result ≤ GREATEST_WEIGHT * 125 }
    ensures cost { steps.new ≤ steps.old + 54 }
{
    let mut sum = 0;
    for k in 0..OFFSETS {
        let offset = offset_at(k);
        if is_contact_offset(offset) {
            steps.tick();
            sum += weight_beside(world, owners, monomer, p, offset);
        }
    }
    sum
}

/// The offset with a number.
fn offset_at(k: u8) -> P3
    requires { k < 125 }
    ensures { result ≡ offset_at k }
{
    P3 {
        x: i64::from(k / 25) - 2,
        y: i64::from(k / 5 % 5) - 2,
        z: i64::from(k % 5) - 2,
    }
}

/// Whether monomers that differ by an offset are in contact.
fn is_contact_offset(offset: P3) -> bool
    requires { extent_of offset ≤ 2 }
    ensures { result ≡ is_contact_offset offset }
{
    let square = squared(offset.x) + squared(offset.y) + squared(offset.z);
    4 <= square && square <= 6
}

/// The square of a component of an offset.
fn squared(d: i64) -> u64
    requires { nat_abs d ≤ 2 }
    ensures value { result ≡ nat_abs d * nat_abs d }
    ensures few { result ≤ 4 }
{
    d.unsigned_abs() * d.unsigned_abs()
}

/// What the contact of a monomer at a place with the one at an offset weighs, 0 where nobody is
/// there.
fn weight_beside(world: &World, owners: &Owners, monomer: u32, p: P3, offset: P3) -> i64
    requires monomer { monomer < length world.now.positions }
    requires owners { AreOwned world.now (length world.now.positions) owners.now }
    requires place { extent_of p ≤ WORLD_REACH + 1 }
    requires near { extent_of offset ≤ 2 }
    requires contact { is_contact_offset offset ≡ true }
    ensures value { result ≡ weight_beside world.now monomer p offset }
    ensures limit { unsigned_abs result ≤ GREATEST_WEIGHT }
{
    match monomer_beside(world, owners, p, offset) {
        Some(other) if other != monomer => {
            let weight = world
                .table()
                .weight(world.class(monomer), world.class(other));
            i64::from(weight)
        }
        _ => 0,
    }
}

/// The monomer at an offset from a place, where one stands there.
fn monomer_beside(world: &World, owners: &Owners, p: P3, offset: P3) -> Option<u32>
    requires owners { AreOwned world.now (length world.now.positions) owners.now }
    requires place { extent_of p ≤ WORLD_REACH + 1 }
    requires near { extent_of offset ≤ 2 }
    ensures there { IfSome result (λ j. (j < length world.now.positions) × (difference_to world.now p j ≡ offset)) }
    ensures all { (j : ℕ) → j < length world.now.positions → difference_to world.now p j ≡ offset → result ≡ Some j }
{
    prove!(world.len() > 0);
    owners.at(shifted(p, offset))
}
