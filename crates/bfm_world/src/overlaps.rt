ghost use Rattle.std.specs.Prelude.{◌≡◌, ◌↔◌, ◌≤◌, true, false, All, AllPairs, IsTrue, IfOk};
ghost use Rattle.bfm_geom.specs.Difference.{IsBox, overlaps};
ghost use Rattle.bfm_geom.specs.Walls.{is_within_walls};
ghost use Rattle.bfm_world.specs.Configuration.{reach_of};

use bfm_base::limits::PLACE_REACH;
use bfm_base::{P3, Shape};
use packed_lattice::Lattice;
use std::alloc::{AllocError, Global};

/// Whether no two monomers overlap that stand at these positions, each within the walls. It takes
/// the memory of the sites of the box for as long as it runs, and costs as much as the box is large
/// and as there are monomers: no monomer is compared with another.
pub fn are_apart(alloc: Global, shape: Shape, positions: &[P3]) -> Result<bool, AllocError>
    requires box_limits { IsBox shape }
    requires reach { reach_of positions.now ≤ PLACE_REACH }
    requires inside { All (λ p. is_within_walls shape p ≡ true) positions.now }
    ensures { IfOk result (λ apart. IsTrue apart ↔ AllPairs (λ p q. overlaps shape p q ≡ false) positions.now) }
{
    let mut lattice = Lattice::new(alloc, shape)?;
    for p in positions {
        if !lattice.cube_free(*p) {
            return Ok(false);
        }
        lattice.place(*p);
    }
    Ok(true)
}
