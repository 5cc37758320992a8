ghost use Rattle.std.specs.Prelude.{◌≡◌, ◌<◌, ◌≤◌, Err, IfErr, IfOk};
ghost use Rattle.bfm_base.specs.Account.{Delivers};
ghost use Rattle.bfm_base.specs.declared.limits.TheConstants.{GREATEST_SIDE};
ghost use Rattle.bfm_world.specs.Configuration.{IsValid, reach_of};
ghost use Rattle.bfm_session.specs.Written.{IsReadBack};
ghost use Rattle.bfm_cli.specs.Promise.{DoesBuilt};
ghost use Rattle.bfm_cli.specs.Start.{need_of, room_of, start_text, world_of, IsStart};

use crate::ending::{Ending, Fault};
use crate::start::Start;
use bfm_base::{Failed, Sink};
use bfm_session::write_world;
use bfm_world::{BuildFault, World};
use brush_builder::brush;
use melt_builder::melt;
use network_builder::network;
use std::alloc::Global;

/// Builds a start and writes its file, and flushes. The output is called only once the start stands,
/// so where there is no room for it, or no memory, nothing is written.
pub fn build<O: Sink>(alloc: Global, start: &Start, output: &mut O) -> Result<Ending, Fault>
    requires { IsStart start.now }
    ensures { DoesBuilt result start.now (O.account output.old) (O.account output.new) (output.new ≡ output.old) }
{
    match world_of(alloc, start) {
        Ok(world) => match write_start(&world, output) {
            Ok(()) => Ok(Ending::Built),
            Err(_) => Err(Fault::Write),
        },
        Err(BuildFault::NoRoom { need, have }) => Ok(Ending::NoRoom { need, have }),
        Err(BuildFault::Memory) => Err(Fault::Memory),
    }
}

/// The world of a start. It is refused exactly where it needs more room than there is.
pub(crate) fn world_of(alloc: Global, start: &Start) -> Result<World, BuildFault>
    requires { IsStart start.now }
    ensures no_room { room_of start.now < need_of start.now → result ≡ Err (BuildFault.NoRoom (need_of start.now) (room_of start.now)) }
    ensures room { need_of start.now ≤ room_of start.now → IfErr result (λ fault. fault ≡ BuildFault.Memory) }
    ensures world { IfOk result (λ world. world ≡ world_of start.now) }
    ensures valid { IfOk result IsValid }
    ensures near { IfOk result (λ world. reach_of world.positions ≤ GREATEST_SIDE) }
{
    match start {
        Start::Melt {
            shape,
            chains,
            length,
        } => melt(alloc, *shape, *chains, *length),
        Start::Brush {
            shape,
            spacing,
            length,
        } => brush(alloc, *shape, *spacing, *length),
        Start::Network { nodes, strand } => Ok(network(alloc, *nodes, *strand)?),
    }
}

/// Writes the file of a start, and flushes. The file gives the start back.
fn write_start<O: Sink>(world: &World, output: &mut O) -> Result<(), Failed>
    ensures delivered { Delivers result (O.account output.old) (O.account output.new) (start_text world.now) }
    ensures read_back { reach_of world.now.positions ≤ GREATEST_SIDE → IsReadBack world.now 0 }
{
    write_world(world, 0, output)?;
    output.flush()
}
