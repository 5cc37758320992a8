ghost use Rattle.std.specs.Prelude.{◌≡◌, ◌+◌, ◌<◌, ◌≤◌, true, length, if◌then◌else◌, IfOk, IfErr};
ghost use Rattle.bond_set.specs.Crossing.{IsFree};
ghost use Rattle.bfm_world.specs.Acceptance.{delta_of, is_accepted, makes_move};
ghost use Rattle.bfm_world.specs.Configuration.{is_legal, moved, reach_of};
ghost use Rattle.bfm_world.specs.Sweeping.{CrossesNone};

use crate::allowed::Allowed;
use crate::places::{filled, has_room, owned, shift_owner, shift_sites};
use crate::renewal::{all_spots, renew, renew_beside, shift_spot};
use crate::spots::{Spots, allows, place_in};
use crate::weights::{weigh_anything, weight_at};
use bfm_base::limits::WORLD_REACH;
use bfm_base::{Dir, P3, Steps};
use bfm_geom::shifted;
use bfm_world::{Engine, World};
use packed_lattice::{Lattice, Owners};
use std::alloc::{AllocError, Global};
use std::marker::{Brand, Model};
use std::sync::ledger::{Blank, Ledger};

/// An engine that keeps, beside the world, which sites are taken, who stands at each place, and for
/// each monomer its folded place and the steps that its bonds allow.
#[derive(Drop)]
pub struct PackedEngine {
    world: World,
    lattice: Lattice,
    owners: Owners,
    spots: Spots,
    allowed: Allowed,
    // Whether any contact weighs anything.
    weighs: bool,
}

impl Model for PackedEngine {
    ghost use Rattle.bfm_world.specs.Configuration.{Configuration};
    ghost use Rattle.packed_engine.specs.Keeping.{IsKept};

    ghost Value = { Configuration };

    ghost view = { λ e. e.world };

    ghost invariant = { λ e. IsKept e.world e.lattice e.owners e.spots e.allowed e.weighs };
}

impl PackedEngine {
    /// Takes the world as it is, or hands it back for want of memory: one bit a site, four bytes a
    /// place, and eight bytes a monomer.
    pub fn new(alloc: Global, world: World) -> Result<PackedEngine, World>
        ensures engine { IfOk result (λ engine. engine ≡ world) }
        ensures back { IfErr result (λ back. back ≡ world) }
    {
        let allowed = Allowed::new(world.set());
        let weighs = weigh_anything(world.table());
        let lattice = filled(alloc, &world);
        let owners = owned(alloc, &world);
        let spots = all_spots(alloc, &world, &allowed);
        match (lattice, owners, spots) {
            (Ok(lattice), Ok(owners), Ok(spots)) => Ok(PackedEngine {
                world,
                lattice,
                owners,
                spots,
                allowed,
                weighs,
            }),
            _ => Err(world),
        }
    }

    /// Gives the world back.
    pub fn into_world(self) -> World
        ensures { result ≡ self }
    {
        let PackedEngine { world, .. } = self;
        world
    }

    /// What `attempt` of `Engine` does, with a count of the looks at sites and places: at most 4 for
    /// the step and 108 for contacts.
    pub fn attempt_counted<L: Ledger>(
        &mut self,
        monomer: u32,
        dir: Dir,
        word: u32,
        steps: &mut Steps<L>,
    ) -> bool
        requires monomer { monomer < length self.old.positions }
        requires reach { reach_of self.old.positions < WORLD_REACH }
        ensures made { result ≡ makes_move self.old monomer dir word }
        ensures world { self.new ≡ (if makes_move self.old monomer dir word then moved self.old monomer dir else self.old) }
        ensures uncrossed { result ≡ true → IsFree self.old.set → CrossesNone self.old monomer dir }
        ensures cost { steps.new ≤ steps.old + 112 }
    {
        if !self.is_legal(monomer, dir, steps) || !self.is_accepted(monomer, dir, word, steps) {
            return false;
        }
        self.shift(monomer, dir);
        true
    }

    /// Whether the step is legal: of a monomer that is not fixed, onto sites that are free, and with a
    /// vector of the set for each bond.
    fn is_legal<L: Ledger>(&self, monomer: u32, dir: Dir, steps: &mut Steps<L>) -> bool
        requires { monomer < length self.now.positions }
        ensures value { result ≡ is_legal self.now monomer dir }
        ensures cost { steps.new ≤ steps.old + 4 }
    {
        let spot = self.spots.at(monomer);
        allows(spot.steps, dir) && has_room(&self.lattice, &self.world, monomer, spot, dir, steps)
    }

    /// Whether the word accepts the step: it is below the threshold of the change of the sum of all
    /// weights.
    fn is_accepted<L: Ledger>(
        &self,
        monomer: u32,
        dir: Dir,
        word: u32,
        steps: &mut Steps<L>,
    ) -> bool
        requires { monomer < length self.now.positions }
        ensures value { result ≡ is_accepted self.now monomer dir word }
        ensures cost { steps.new ≤ steps.old + 108 }
    {
        if !self.weighs {
            return true;
        }
        u64::from(word)
            < self
                .world
                .table()
                .threshold(self.delta(monomer, dir, steps))
    }

    /// How much the step changes the sum of all weights by. A monomer without a class has no contacts that
    /// weigh anything, so nobody looks.
    fn delta<L: Ledger>(&self, monomer: u32, dir: Dir, steps: &mut Steps<L>) -> i64
        requires { monomer < length self.now.positions }
        ensures value { result ≡ delta_of self.now monomer dir }
        ensures cost { steps.new ≤ steps.old + 108 }
    {
        prove!(monomer < self.world.len());
        if self.world.class(monomer) == 0 {
            return 0;
        }
        let from = place_in(self.spots.at(monomer));
        let to = shifted(from, dir.step());
        let before = weight_at(&self.world, &self.owners, monomer, from, steps);
        let after = weight_at(&self.world, &self.owners, monomer, to, steps);
        after - before
    }

    /// Makes the step, which is legal.
    fn shift(&mut self, monomer: u32, dir: Dir)
        requires monomer { monomer < length self.old.positions }
        requires legal { is_legal self.old monomer dir ≡ true }
        requires reach { reach_of self.old.positions < WORLD_REACH }
        ensures moved { self.new ≡ moved self.old monomer dir }
        ensures uncrossed { IsFree self.old.set → CrossesNone self.old monomer dir }
    {
        let spot = self.spots.at(monomer);
        shift_sites(&mut self.lattice, &self.world, monomer, spot, dir);
        shift_owner(&mut self.owners, &self.world, monomer, spot, dir);
        shift_spot(&mut self.spots, &self.world, monomer, dir);
        self.world.shift(monomer, dir);
        renew_beside(&mut self.spots, &self.world, &self.allowed, monomer);
    }
}

impl Engine for PackedEngine {
    ghost configuration = { λ e. e };

    fn world(&self) -> &World {
        &self.world
    }

    fn attempt(&mut self, monomer: u32, dir: Dir, word: u32) -> bool {
        uncounted::<Brand>(self, monomer, dir, word, Blank::new(1))
    }

    fn at(&self, place: P3) -> Option<u32> {
        prove!(self.world.len() > 0);
        self.owners.at(place)
    }

    fn bond(&mut self, i: u32, j: u32) {
        self.world.bond(i, j);
        renew(&mut self.spots, &self.world, &self.allowed, i);
        renew(&mut self.spots, &self.world, &self.allowed, j);
    }
}

/// An attempt whose looks nobody counts.
fn uncounted<L: Ledger>(
    engine: &mut PackedEngine,
    monomer: u32,
    dir: Dir,
    word: u32,
    blank: Blank,
) -> bool
    requires monomer { monomer < length engine.old.positions }
    requires reach { reach_of engine.old.positions < WORLD_REACH }
    requires name { blank.name ≡ L.name }
    requires parts { blank.parts ≡ L.parts }
    requires some { 0 < blank.parts }
    ensures made { result ≡ makes_move engine.old monomer dir word }
    ensures world { engine.new ≡ (if makes_move engine.old monomer dir word then moved engine.old monomer dir else engine.old) }
    ensures uncrossed { result ≡ true → IsFree engine.old.set → CrossesNone engine.old monomer dir }
{
    let mut steps = Steps::<L>::new(blank);
    engine.attempt_counted(monomer, dir, word, &mut steps)
}
