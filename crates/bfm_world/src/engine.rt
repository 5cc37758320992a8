ghost use Rattle.std.specs.Prelude.{◌≡◌, ◌≢◌, ◌<◌, true, false, length, if◌then◌else◌};
ghost use Rattle.bfm_geom.specs.Difference.{IsWithin};
ghost use Rattle.bond_set.specs.Crossing.{IsFree};
ghost use Rattle.bfm_world.specs.Acceptance.{makes_move};
ghost use Rattle.bfm_world.specs.Bonds.{are_bonded, is_full};
ghost use Rattle.bfm_world.specs.Configuration.{Configuration, bonded, may_bond, moved, position_of, reach_of};
ghost use Rattle.bfm_world.specs.Occupants.{monomer_at};
ghost use Rattle.bfm_world.specs.Sweeping.{CrossesNone};

use crate::world::World;
use bfm_base::limits::{PLACE_REACH, WORLD_REACH};
use bfm_base::{Dir, P3};

/// What makes attempts at local moves in a world and bonds its monomers, by whatever data of its own.
pub trait Engine {
    ghost configuration: { Self → Configuration };

    /// The world as it is now.
    fn world(&self) -> &World
        ensures { result.now ≡ configuration self.now };

    /// Attempts to move a monomer, counted from 0, by one lattice unit, and answers whether the
    /// move was made. It is made exactly where it is legal and the word is below the threshold of the
    /// change of the sum of all weights of contacts: always where the sum does not rise. Where the world's set of bond vectors is free, a move that is made takes no
    /// bond of the monomer through a bond that shares no monomer with it, nor through any image of
    /// one.
    fn attempt(&mut self, monomer: u32, dir: Dir, word: u32) -> bool
        requires monomer { monomer < length (configuration self.old).positions }
        requires reach { reach_of (configuration self.old).positions < WORLD_REACH }
        ensures made { result ≡ makes_move (configuration self.old) monomer dir word }
        ensures world { configuration self.new
            ≡ (if makes_move (configuration self.old) monomer dir word then moved (configuration self.old) monomer dir else configuration self.old) }
        ensures uncrossed { result ≡ true → IsFree (configuration self.old).set → CrossesNone (configuration self.old) monomer dir };

    /// The monomer that stands at a place, where one does. Places that differ by whole sides along
    /// periodic axes are one. Coordinates are at most 2^45 in absolute value.
    fn at(&self, place: P3) -> Option<u32>
        requires { IsWithin PLACE_REACH place }
        ensures { result ≡ monomer_at (configuration self.now) place };

    /// Bonds two monomers that are not bonded. Their wrapped difference is in the set, and each of
    /// them has fewer than 8 bonds.
    fn bond(&mut self, i: u32, j: u32)
        requires first { i < length (configuration self.old).positions }
        requires second { j < length (configuration self.old).positions }
        requires other { i ≢ j }
        requires unbonded { are_bonded (configuration self.old).bonds i j ≡ false }
        requires vector { may_bond (configuration self.old).shape (configuration self.old).set (position_of (configuration self.old) i) (position_of (configuration self.old) j) ≡ true }
        requires first_room { is_full (configuration self.old).bonds i ≡ false }
        requires second_room { is_full (configuration self.old).bonds j ≡ false }
        ensures { configuration self.new ≡ bonded (configuration self.old) i j };
}
