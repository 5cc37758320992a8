ghost use Rattle.std.specs.Prelude.{◌≤◌};
ghost use Rattle.bfm_base.specs.Account.{Sends};
ghost use Rattle.bfm_base.specs.declared.limits.TheConstants.{GREATEST_MCS, START_REACH};
ghost use Rattle.bfm_world.specs.Configuration.{reach_of};
ghost use Rattle.bfm_session.specs.Written.{world_text, IsReadBack};

use bfm_base::{Failed, Shape, Sink};
use bfm_world::World;
use bfm_writer::{group, header};

/// Writes a world as a file of one frame, of a time in sweeps. The sink is not flushed. Where no
/// coordinate is beyond 2^44 lattice units and the time is at most 2^40, as the format allows, the
/// file is accepted and gives the same world back.
pub fn write_world<S: Sink>(world: &World, mcs: u64, sink: &mut S) -> Result<(), Failed>
    ensures sent { Sends result (S.account sink.old) (S.account sink.new) (world_text world.now mcs) }
    ensures read_back { reach_of world.now.positions ≤ START_REACH → mcs ≤ GREATEST_MCS → IsReadBack world.now mcs }
{
    let Shape { sides, periodic } = world.shape();
    prove!(sides.len() == 3);
    prove!(periodic.len() == 3);
    prove!(world.len() > 0);
    header(world, sink)?;
    group(world, mcs, &[], sink)
}
