ghost use Rattle.std.specs.Prelude.{◌≡◌, ℕ, ◌+◌, ◌^◌, ◌<◌, ◌≤◌, nat_eq, length, slice_index, if◌then◌else◌, IfOk};
ghost use Rattle.bfm_base.specs.declared.limits.TheConstants.{GREATEST_CLASS};
ghost use Rattle.cluster_stats.specs.Contacts.{AreContactCounts, class_pair, count_of, later_count, touch, touch_with};
ghost use Rattle.cluster_stats.specs.Places.{AreOwners};

use crate::places::{home_of, monomer_at, owners_of};
use crate::shell::{SHELL, vector};
use bfm_world::World;
use packed_lattice::Owners;
use std::alloc::{AllocError, Global};
use std::marker::Model;

/// How many pairs of monomers are in contact, by their classes and in all.
#[derive(Drop)]
pub struct ContactCounts {
    // by 16 times the greater class and the lesser
    counts: Vec<u64>,
    total: u64,
}

impl Model for ContactCounts {
    ghost use Rattle.std.specs.Prelude.{◌≡◌, length};
    ghost use Rattle.cluster_stats.specs.Contacts.{ContactTally};

    ghost Value = { ContactTally };

    ghost view = { λ c. record { counts = c.counts.items; total = c.total } };

    ghost invariant = { λ c. length c.counts.items ≡ 256 };
}

fn class_pair(a: u8, b: u8) -> usize
    requires first { a ≤ GREATEST_CLASS }
    requires second { b ≤ GREATEST_CLASS }
    ensures pair { result ≡ class_pair a b }
    ensures range { result < 256 }
{
    16 * usize::from(a.max(b)) + usize::from(a.min(b))
}

impl ContactCounts {
    fn new(alloc: Global) -> Result<ContactCounts, AllocError>
        ensures counts { IfOk result (λ c. (q : ℕ) → q < 256 → slice_index c.counts q ≡ 0) }
        ensures total { IfOk result (λ c. c.total ≡ 0) }
    {
        Ok(ContactCounts {
            counts: vec![in alloc; 0; 256]?,
            total: 0,
        })
    }

    // One contact more, between monomers of these classes.
    fn add(&mut self, a: u8, b: u8)
        requires first { a ≤ GREATEST_CLASS }
        requires second { b ≤ GREATEST_CLASS }
        requires room { count_of self.old a b < 2 ^ 50 }
        requires room_in_all { self.old.total < 2 ^ 50 }
        ensures counts { (q : ℕ) → q < 256 → slice_index self.new.counts q ≡ slice_index self.old.counts q + (if nat_eq (class_pair a b) q then 1 else 0) }
        ensures total { self.new.total ≡ self.old.total + 1 }
    {
        let pair = class_pair(a, b);
        self.counts[pair] += 1;
        self.total += 1;
    }

    /// How many pairs of monomers are in contact whose classes are these, in either order. A class
    /// is at most 15; class 0 is that of monomers without one.
    pub fn count(&self, a: u8, b: u8) -> u64
        requires first { a ≤ GREATEST_CLASS }
        requires second { b ≤ GREATEST_CLASS }
        ensures { result ≡ count_of self.now a b }
    {
        self.counts[class_pair(a, b)]
    }

    /// How many pairs of monomers are in contact, whatever their classes.
    pub fn total(&self) -> u64
        ensures { result ≡ self.now.total }
    {
        self.total
    }
}

/// Counts the pairs of monomers in contact: those whose wrapped difference has the squared length 4,
/// 5 or 6, in lattice units squared. It takes time and memory in proportion to the number of sites of
/// the box, and time in proportion to the number of monomers.
pub fn contacts(alloc: Global, world: &World) -> Result<ContactCounts, AllocError>
    ensures { IfOk result (λ counts. AreContactCounts world.now counts) }
{
    let owners = owners_of(alloc, world)?;
    let mut counts = ContactCounts::new(alloc)?;
    for i in 0..world.len() {
        count_from(world, &owners, i, &mut counts);
    }
    Ok(counts)
}

/// Counts the contacts of a monomer with those after it.
fn count_from(world: &World, owners: &Owners, i: u32, counts: &mut ContactCounts)
    requires monomer { i < length world.now.positions }
    requires owners { AreOwners world.now (length world.now.positions) owners.now }
    requires room { (q : ℕ) → q < 256 → slice_index counts.old.counts q < 2 ^ 49 }
    requires room_in_all { counts.old.total < 2 ^ 49 }
    ensures counts { (q : ℕ) → q < 256 → slice_index counts.new.counts q ≡ slice_index counts.old.counts q + later_count world.now i (touch_with world.now q i) }
    ensures total { counts.new.total ≡ counts.old.total + later_count world.now i (touch world.now i) }
{
    let home = home_of(world, i);
    for offset in SHELL {
        if let Some(j) = monomer_at(world, owners, i, home, vector(offset)) {
            if i < j {
                counts.add(world.class(i), world.class(j));
            }
        }
    }
}
