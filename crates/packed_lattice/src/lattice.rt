ghost use Rattle.std.specs.Prelude.{◌≡◌, ◌+◌, ◌^◌, ◌<◌, ◌≤◌, ◌≢◌, ◌↔◌, ℕ, true, false, IsTrue, IfOk};
ghost use Rattle.bfm_base.specs.Direction.{step_of};
ghost use Rattle.bfm_base.specs.declared.limits.TheConstants.{PLACE_REACH};
ghost use Rattle.bfm_geom.specs.Difference.{IsBox, IsWithin, plus};
ghost use Rattle.bfm_geom.specs.Walls.{is_within_walls};
ghost use Rattle.packed_lattice.specs.Sites.{AreFree, AreTaken, IsEmpty, IsSite, Marks, Shifts, covers, is_same_site, is_taken, newly_covers};
ghost use Rattle.packed_lattice.specs.Cube.{IsCube, IsFace, is_in};
ghost use Rattle.packed_lattice.specs.Packing.{is_bit, taken_of};

use crate::site::{
    Cube, Occupancy, Site, corner, entered_face, fill_cube, left_face, lower_face, side,
    stays_inside, upper_face,
};
use bfm_base::{Dir, P3, Shape, Steps};
use std::alloc::{AllocError, Global};
use std::marker::{Brand, Model};
use std::sync::ledger::{Blank, Ledger};

#[cfg(test)]
mod tests;

/// The sites of a box, each free or taken, at one bit a site. A place stands for a monomer's cube:
/// its own site and the next one along each axis, through periodic boundaries. Coordinates are in
/// lattice units and need not be folded into the box.
#[derive(Drop)]
pub struct Lattice {
    shape: Shape,
    // Each row of sites along x begins with a word of its own: so many words a row.
    row: usize,
    words: Vec<u64>,
}

impl Model for Lattice {
    ghost use Rattle.packed_lattice.specs.Sites.{Sites};
    ghost use Rattle.packed_lattice.specs.Packing.{IsPacked, unpacked};

    ghost Value = { Sites };

    ghost view = { λ a. unpacked a.shape a.row a.words.items };

    ghost invariant = { λ a. IsPacked a.shape a.row a.words.items };
}

// Whether a bit of a word is 1.
fn has_bit(word: u64, k: usize) -> bool
    requires { k < 64 }
    ensures { result ≡ is_bit word k }
{
    word & (1 << k) != 0
}

// The word with one bit as the site is to become.
fn with_bit(word: u64, k: usize, occupancy: Occupancy) -> u64
    requires { k < 64 }
    ensures same { is_bit result k ≡ taken_of occupancy }
    ensures others { (j : ℕ) → j < 64 → j ≢ k → is_bit result j ≡ is_bit word j }
{
    match occupancy {
        Occupancy::Free => word & !(1 << k),
        Occupancy::Taken => word | 1 << k,
    }
}

impl Lattice {
    /// The lattice of a box, with every site free.
    pub fn new(alloc: Global, shape: Shape) -> Result<Lattice, AllocError>
        requires { IsBox shape }
        ensures shape { IfOk result (λ sites. sites.shape ≡ shape) }
        ensures free { IfOk result IsEmpty }
    {
        let row = side(&shape, 0).div_ceil(64);
        let words = vec![in alloc; 0u64; side(&shape, 2) * side(&shape, 1) * row]?;
        Ok(Lattice { shape, row, words })
    }

    /// Frees every site. It costs as much as the box is large: a few monomers are lifted faster.
    pub fn clear(&mut self)
        ensures shape { self.new.shape ≡ self.old.shape }
        ensures free { IsEmpty self.new }
    {
        self.words.fill(0);
    }

    /// Whether the eight sites of the cube are free.
    pub fn cube_free(&self, p: P3) -> bool
        requires reach { IsWithin PLACE_REACH p }
        requires inside { is_within_walls self.now.shape p ≡ true }
        ensures { IsTrue result ↔ AreFree self.now (covers self.now.shape p) }
    {
        let cube = fill_cube(&self.shape(), p);
        self.is_cube_free::<Brand>(cube, Blank::new(1))
    }

    /// Whether a monomer may step from the place, as far as walls and sites go: the new place is
    /// within the walls, and the four sites that the step newly covers are free. It counts each
    /// look at a site.
    pub fn face_free<L: Ledger>(&self, p: P3, dir: Dir, steps: &mut Steps<L>) -> bool
        requires reach { IsWithin PLACE_REACH p }
        requires inside { is_within_walls self.now.shape p ≡ true }
        ensures value { IsTrue result ↔
            (is_within_walls self.now.shape (plus p (step_of dir)) ≡ true)
            × AreFree self.now (newly_covers self.now.shape p dir) }
        ensures cost { steps.new ≤ steps.old + 4 }
    {
        let shape = self.shape();
        if !stays_inside(&shape, p, dir) {
            return false;
        }
        let face = entered_face(&shape, fill_cube(&shape, p), dir);
        self.is_face_free(face, steps)
    }

    /// Takes the eight sites of the cube, which are free.
    pub fn place(&mut self, p: P3)
        requires reach { IsWithin PLACE_REACH p }
        requires inside { is_within_walls self.old.shape p ≡ true }
        requires free { AreFree self.old (covers self.old.shape p) }
        ensures { Marks self.old self.new (covers self.old.shape p) true }
    {
        let cube = fill_cube(&self.shape(), p);
        self.mark_cube(cube, Occupancy::Taken);
    }

    /// Frees the eight sites of the cube, which are taken.
    pub fn lift(&mut self, p: P3)
        requires reach { IsWithin PLACE_REACH p }
        requires inside { is_within_walls self.old.shape p ≡ true }
        requires taken { AreTaken self.old (covers self.old.shape p) }
        ensures { Marks self.old self.new (covers self.old.shape p) false }
    {
        let cube = fill_cube(&self.shape(), p);
        self.mark_cube(cube, Occupancy::Free);
    }

    /// Moves a monomer by a step that `face_free` allows: its cube becomes free, and then the cube
    /// one step away taken.
    pub fn shift(&mut self, p: P3, dir: Dir)
        requires reach { IsWithin PLACE_REACH p }
        requires inside { is_within_walls self.old.shape p ≡ true }
        requires taken { AreTaken self.old (covers self.old.shape p) }
        requires stays { is_within_walls self.old.shape (plus p (step_of dir)) ≡ true }
        requires free { AreFree self.old (newly_covers self.old.shape p dir) }
        ensures { Shifts self.old self.new p dir }
    {
        let shape = self.shape();
        let cube = fill_cube(&shape, p);
        self.mark_face(left_face(cube, dir), Occupancy::Free);
        self.mark_face(entered_face(&shape, cube, dir), Occupancy::Taken);
    }

    // The box.
    fn shape(&self) -> Shape
        ensures value { result ≡ self.now.shape }
        ensures limits { IsBox result }
    {
        self.shape
    }

    // Whether a site is free. There is no other look at a site, and each is counted.
    fn is_free<L: Ledger>(&self, site: Site, steps: &mut Steps<L>) -> bool
        requires { IsSite self.now.shape site }
        ensures value { IsTrue result ↔ (is_taken self.now site ≡ false) }
        ensures cost { steps.new ≡ steps.old + 1 }
    {
        steps.tick();
        let side_y = side(&self.shape, 1);
        let word = self.words[(site.z * side_y + site.y) * self.row + (site.x >> 6)];
        !has_bit(word, site.x & 63)
    }

    // Whether the four sites of a face are free. Four looks and one test cost less than a test after
    // each look, whose outcome the processor cannot foresee.
    fn is_face_free<L: Ledger>(&self, face: Cube, steps: &mut Steps<L>) -> bool
        requires range { IsCube self.now.shape face }
        requires face { IsFace face }
        ensures value { IsTrue result ↔ AreFree self.now (is_in face) }
        ensures cost { steps.new ≤ steps.old + 4 }
    {
        let Cube { xs, ys, zs } = face;
        let first = self.is_free(corner(xs.near, ys.near, zs.near), steps);
        let second = self.is_free(corner(xs.near, ys.far, zs.far), steps);
        let third = self.is_free(corner(xs.far, ys.near, zs.far), steps);
        let fourth = self.is_free(corner(xs.far, ys.far, zs.near), steps);
        first & second & third & fourth
    }

    // Whether the eight sites of a cube are free, for a caller that counts no looks.
    fn is_cube_free<L: Ledger>(&self, cube: Cube, blank: Blank) -> bool
        requires range { IsCube self.now.shape cube }
        requires name { blank.name ≡ L.name }
        requires parts { blank.parts ≡ L.parts }
        requires some { 0 < blank.parts }
        ensures { IsTrue result ↔ AreFree self.now (is_in cube) }
    {
        let mut steps = Steps::<L>::new(blank);
        self.is_face_free(lower_face(cube), &mut steps)
            && self.is_face_free(upper_face(cube), &mut steps)
    }

    // The site becomes free or taken, and no other changes.
    fn mark(&mut self, site: Site, occupancy: Occupancy)
        requires { IsSite self.old.shape site }
        ensures { Marks self.old self.new (is_same_site site) (taken_of occupancy) }
    {
        let side_y = side(&self.shape, 1);
        let at = (site.z * side_y + site.y) * self.row + (site.x >> 6);
        self.words[at] = with_bit(self.words[at], site.x & 63, occupancy);
    }

    // The same for the four sites of a face, and the eight of a cube.
    fn mark_face(&mut self, face: Cube, occupancy: Occupancy)
        requires range { IsCube self.old.shape face }
        requires face { IsFace face }
        ensures { Marks self.old self.new (is_in face) (taken_of occupancy) }
    {
        let Cube { xs, ys, zs } = face;
        self.mark(corner(xs.near, ys.near, zs.near), occupancy);
        self.mark(corner(xs.near, ys.far, zs.far), occupancy);
        self.mark(corner(xs.far, ys.near, zs.far), occupancy);
        self.mark(corner(xs.far, ys.far, zs.near), occupancy);
    }

    fn mark_cube(&mut self, cube: Cube, occupancy: Occupancy)
        requires { IsCube self.old.shape cube }
        ensures { Marks self.old self.new (is_in cube) (taken_of occupancy) }
    {
        self.mark_face(lower_face(cube), occupancy);
        self.mark_face(upper_face(cube), occupancy);
    }
}
