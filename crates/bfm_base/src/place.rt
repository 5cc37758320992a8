ghost use Rattle.std.specs.Prelude.{◌≡◌, ◌<◌, Some, slice_get};
ghost use Rattle.bfm_base.specs.Direction.{directions, step_of};
ghost use Rattle.bfm_base.specs.Place.{extent_of};

/// A place on the simple cubic lattice, or the difference of two places, in lattice units.
#[derive(Clone, Copy, Debug, PartialEq, Eq, Hash)]
pub struct P3 {
    pub x: i64,
    pub y: i64,
    pub z: i64,
}

impl P3 {
    /// The greatest absolute value of a coordinate.
    pub fn extent(self) -> u64
        ensures { result ≡ extent_of self }
    {
        let across = self.y.unsigned_abs().max(self.z.unsigned_abs());
        self.x.unsigned_abs().max(across)
    }
}

/// The direction of a local move, numbered 0 to 5 in this order.
#[derive(Clone, Copy, Debug, PartialEq, Eq)]
pub enum Dir {
    XUp,
    XDown,
    YUp,
    YDown,
    ZUp,
    ZDown,
}

impl Dir {
    /// The direction with the number `n`.
    pub fn of(n: u32) -> Dir
        requires { n < 6 }
        ensures { slice_get directions n ≡ Some result }
    {
        match n {
            0 => Dir::XUp,
            1 => Dir::XDown,
            2 => Dir::YUp,
            3 => Dir::YDown,
            4 => Dir::ZUp,
            _ => Dir::ZDown,
        }
    }

    /// The unit vector along the direction.
    pub fn step(&self) -> P3
        ensures { result ≡ step_of self.now }
    {
        let still = P3 { x: 0, y: 0, z: 0 };
        match self {
            Dir::XUp => P3 { x: 1, ..still },
            Dir::XDown => P3 { x: -1, ..still },
            Dir::YUp => P3 { y: 1, ..still },
            Dir::YDown => P3 { y: -1, ..still },
            Dir::ZUp => P3 { z: 1, ..still },
            Dir::ZDown => P3 { z: -1, ..still },
        }
    }
}

/// The simulation box: the side along x, y and z in lattice units (8 to 512 each, at most 2^24
/// sites in all), and for each axis whether it is periodic. An axis that is not periodic is
/// walled: a monomer fills two sites along it, so its coordinate is from 0 to two below the side.
#[derive(Clone, Copy, Debug, PartialEq, Eq)]
pub struct Shape {
    pub sides: [u16; 3],
    pub periodic: [bool; 3],
}
