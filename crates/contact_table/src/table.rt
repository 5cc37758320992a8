ghost use Rattle.std.specs.Prelude.{◌≡◌, ◌≤◌, ◌<◌, ◌⊎◌, ◌↔◌, ◌++◌, ◌∷◌, [], ℕ, pos, length, unsigned_abs, IsTrue, IsFalse, if◌then◌else◌};
ghost use Rattle.bfm_base.specs.declared.limits.TheConstants.{GREATEST_CLASS, GREATEST_WEIGHT, GREATEST_THRESHOLD};
ghost use Rattle.contact_table.specs.declared.table.TheConstants.{MOST_THRESHOLDS};
ghost use Rattle.contact_table.specs.Contacts.{ContactTable, IsClass, IsContactTable, is_same_pair, no_contacts, pair_number, threshold_of, weight_of, with_threshold, with_weight};

use arrayvec::ArrayVec;
use bfm_base::limits::GREATEST_THRESHOLD;
use std::marker::Model;

/// The greatest number of acceptance thresholds in a table.
pub const MOST_THRESHOLDS: usize = 1_024;

/// The weight of a contact between monomers of each two classes, and the acceptance thresholds.
///
/// A class is a number from 1 to 15, and 0 stands for a monomer without one. A weight is a whole
/// number from -1,000 to 1,000: what a contact of two such monomers adds to the energy, in a unit
/// that the thresholds settle. A contact with a monomer without a class weighs nothing, and neither
/// does one of classes whose weight was never set.
///
/// A move that changes the sum of all weights by delta is accepted where a random word of 32 bits
/// is below the threshold of delta, which is from 0 to 2^32 (Metropolis and others 1953).
#[derive(Drop)]
pub struct Table {
    // by 16 times the one class and the other, so that a look-up has no branch
    weights: [i32; 256],
    thresholds: ArrayVec<u64, MOST_THRESHOLDS>,
}

impl Model for Table {
    ghost use Rattle.contact_table.specs.Contacts.{ContactTable, IsContactTable};

    ghost Value = { ContactTable };

    ghost view = { λ table. record { weights = table.weights; thresholds = table.thresholds.items } };

    ghost invariant = { λ table. IsContactTable (record { weights = table.weights; thresholds = table.thresholds.items }) };
}

impl Table {
    /// No weights and no thresholds: each contact weighs nothing.
    pub fn new() -> Table
        ensures { result ≡ no_contacts }
    {
        let weights = [0; 256];
        Table {
            weights,
            thresholds: ArrayVec::new(),
        }
    }

    /// Gives a pair of classes, in either order, its weight in place of the one that it had.
    pub fn set_weight(&mut self, a: u8, b: u8, weight: i32)
        requires first { IsClass a }
        requires second { IsClass b }
        requires limit { unsigned_abs weight ≤ GREATEST_WEIGHT }
        ensures table { self.new ≡ with_weight a b weight self.old }
        ensures weights { (c d : ℕ) → c ≤ GREATEST_CLASS → d ≤ GREATEST_CLASS →
            weight_of self.new c d ≡ (if is_same_pair a b c d then weight else weight_of self.old c d) }
        ensures thresholds { self.new.thresholds ≡ self.old.thresholds }
    {
        self.weights[place(a, b)] = weight;
        self.weights[place(b, a)] = weight;
    }

    /// Adds the threshold of the next delta, the first being that of 1. Answers false, and changes
    /// nothing, where there are 1,024 already.
    pub fn push_threshold(&mut self, threshold: u64) -> bool
        requires limit { threshold ≤ GREATEST_THRESHOLD }
        ensures refused { IsFalse result ↔ (length self.old.thresholds ≡ MOST_THRESHOLDS) }
        ensures added { IsTrue result → self.new ≡ with_threshold threshold self.old }
        ensures unchanged { IsFalse result → self.new ≡ self.old }
    {
        self.thresholds.try_push(threshold).is_ok()
    }

    /// The weight of a contact between monomers of two classes, either of which may be 0.
    pub fn weight(&self, a: u8, b: u8) -> i32
        requires first { a ≤ GREATEST_CLASS }
        requires second { b ≤ GREATEST_CLASS }
        ensures value { result ≡ weight_of self.now a b }
        ensures symmetric { result ≡ weight_of self.now b a }
        ensures unclassed { (a ≡ 0) ⊎ (b ≡ 0) → result ≡ pos 0 }
        ensures limit { unsigned_abs result ≤ GREATEST_WEIGHT }
    {
        self.weights[place(a, b)]
    }

    /// The number below which a random word accepts a move that changes the sum of all weights by
    /// delta: 2^32 where delta is 0 or less, and 0 where there are fewer thresholds than delta.
    pub fn threshold(&self, delta: i64) -> u64
        ensures value { result ≡ threshold_of self.now delta }
        ensures limit { result ≤ GREATEST_THRESHOLD }
    {
        if delta <= 0 {
            return GREATEST_THRESHOLD;
        }
        let before = (delta - 1) as usize;
        self.thresholds.as_slice().get(before).copied().unwrap_or(0)
    }

    /// How many thresholds there are, at most 1,024.
    pub fn thresholds(&self) -> u32
        ensures count { result ≡ length self.now.thresholds }
        ensures limit { result ≤ MOST_THRESHOLDS }
        ensures table { IsContactTable self.now }
    {
        self.thresholds.len() as u32
    }
}

/// Where the weight of two classes stands.
fn place(a: u8, b: u8) -> usize
    requires first { a ≤ GREATEST_CLASS }
    requires second { b ≤ GREATEST_CLASS }
    ensures value { result ≡ pair_number a b }
    ensures within { result < 256 }
{
    16 * usize::from(a) + usize::from(b)
}
