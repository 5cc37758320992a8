ghost use Rattle.std.specs.Prelude.{◌≡◌};

use bfm_base::P3;
use bfm_world::World;
use std::marker::Model;

/// A list of positions, of all monomers in order. Only a reader of files makes one.
#[derive(Drop)]
pub struct Places {
    list: Vec<P3>,
}

impl Model for Places {
    ghost use Rattle.std.specs.Prelude.{List};
    ghost use Rattle.bfm_base.specs.declared.place.P3.{P3};

    ghost Value = { List P3 };

    ghost view = { λ places. places.list.items };
}

impl Places {
    pub(crate) fn of(list: Vec<P3>) -> Places
        ensures { result ≡ list.items }
    {
        Places { list }
    }

    /// The positions, in lattice units.
    pub fn list(&self) -> &[P3]
        ensures { result.now ≡ self.now }
    {
        &self.list
    }
}

/// What an accepted file gives.
#[derive(Drop)]
pub struct Loaded {
    /// The world of the last whole frame.
    pub world: World,
    /// The positions of the first whole frame.
    pub first: Places,
    /// The time of the last whole frame, in sweeps, 0 to 2^40.
    pub mcs: u64,
    /// The number of whole frames.
    pub frames: u64,
    /// The length in bytes of what is kept: all up to the newline that ends the last whole frame.
    pub kept: u64,
    /// The length of the file, in bytes.
    pub total: u64,
    /// The number of commands that were skipped.
    pub skipped: u64,
}
