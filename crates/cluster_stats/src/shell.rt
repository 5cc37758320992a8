ghost use Rattle.std.specs.Prelude.{◌≡◌};
ghost use Rattle.cluster_stats.specs.Places.{vector_of};

use bfm_base::P3;

// The differences of two monomers in contact, wrapped: the 54 whose squared length is 4, 5 or 6, in
// lattice units. Half a side is more than their components, so distinct ones lead to distinct places.
pub(crate) const SHELL: [[i64; 3]; 54] = [
    [2, 0, 0],
    [0, 2, 0],
    [0, 0, 2],
    [0, 0, -2],
    [0, -2, 0],
    [-2, 0, 0],
    [2, 1, 0],
    [2, 0, 1],
    [2, 0, -1],
    [2, -1, 0],
    [1, 2, 0],
    [1, 0, 2],
    [1, 0, -2],
    [1, -2, 0],
    [0, 2, 1],
    [0, 2, -1],
    [0, 1, 2],
    [0, 1, -2],
    [0, -1, 2],
    [0, -1, -2],
    [0, -2, 1],
    [0, -2, -1],
    [-1, 2, 0],
    [-1, 0, 2],
    [-1, 0, -2],
    [-1, -2, 0],
    [-2, 1, 0],
    [-2, 0, 1],
    [-2, 0, -1],
    [-2, -1, 0],
    [2, 1, 1],
    [2, 1, -1],
    [2, -1, 1],
    [2, -1, -1],
    [1, 2, 1],
    [1, 2, -1],
    [1, 1, 2],
    [1, 1, -2],
    [1, -1, 2],
    [1, -1, -2],
    [1, -2, 1],
    [1, -2, -1],
    [-1, 2, 1],
    [-1, 2, -1],
    [-1, 1, 2],
    [-1, 1, -2],
    [-1, -1, 2],
    [-1, -1, -2],
    [-1, -2, 1],
    [-1, -2, -1],
    [-2, 1, 1],
    [-2, 1, -1],
    [-2, -1, 1],
    [-2, -1, -1],
];

// The vector with these components.
pub(crate) fn vector(offset: [i64; 3]) -> P3
    ensures { result ≡ vector_of offset }
{
    let [x, y, z] = offset;
    P3 { x, y, z }
}
