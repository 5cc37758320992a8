ghost use Rattle.std.specs.Prelude.{◌≡◌};
ghost use Rattle.bfm_base.specs.Account.{Sends};
ghost use Rattle.bfm_session.specs.Info.{bond_count, info_text};

use crate::lines::number_lines;
use bfm_base::{Failed, Sink};
use bfm_commands::Loaded;
use bfm_world::World;

/// Writes what a file holds, in numbers, a line each. The sink is not flushed.
pub(crate) fn info_lines<S: Sink>(loaded: &Loaded, sink: &mut S) -> Result<(), Failed>
    ensures { Sends result (S.account sink.old) (S.account sink.new) (info_text loaded.now) }
{
    let world = &loaded.world;
    let shape = world.shape();
    let [x, y, z] = shape.sides;
    let [along_x, along_y, along_z] = shape.periodic;
    number_lines(
        sink,
        &[
            (b"monomers", &[u64::from(world.len())]),
            (b"box", &[u64::from(x), u64::from(y), u64::from(z)]),
            (
                b"periodic",
                &[u64::from(along_x), u64::from(along_y), u64::from(along_z)],
            ),
            (b"vectors", &[world.set().len() as u64]),
            (b"bonds", &[bond_count(world)]),
            (b"frames", &[loaded.frames]),
            (b"mcs", &[loaded.mcs]),
            (b"kept", &[loaded.kept]),
            (b"skipped", &[loaded.skipped]),
        ],
    )
}

/// The number of bonds. Each of them makes two monomers neighbours.
fn bond_count(world: &World) -> u64
    ensures { result ≡ bond_count world.now.bonds }
{
    let mut neighbours = 0;
    for monomer in 0..world.len() {
        neighbours += world.neighbours(monomer).len() as u64;
    }
    neighbours / 2
}
