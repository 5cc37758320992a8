ghost use Rattle.std.specs.Prelude.{◌≡◌, ◌≤◌};
ghost use Rattle.bfm_cli.specs.Promise.{DoesTried};
ghost use Rattle.bfm_cli.specs.Start.{need_of, room_of, trial_start, IsStart};

use crate::building::world_of;
use crate::ending::{Ending, Fault};
use crate::start::Start;
use bfm_base::{Shape, Sink};
use bfm_session::{AskFault, trial};
use std::alloc::Global;

/// Builds the start of a trial, makes its sweeps with a number as the seed, writes what they come to,
/// and flushes. All memory is taken before the output is called.
pub fn make_trial<O: Sink>(alloc: Global, number: u64, output: &mut O) -> Result<Ending, Fault>
    ensures { DoesTried result number (O.account output.old) (O.account output.new) (output.new ≡ output.old) }
{
    let Ok(world) = world_of(alloc, &trial_start()) else {
        return Err(Fault::Memory);
    };
    match trial(alloc, world, number, output) {
        Ok(()) => Ok(Ending::Answered),
        Err(AskFault::WriteFault) => Err(Fault::Write),
        Err(AskFault::Memory) => Err(Fault::Memory),
    }
}

/// The start of each trial, for which there is room: 512 chains of 32 monomers in a periodic box of
/// side 64, in lattice units.
fn trial_start() -> Start
    ensures start { result ≡ trial_start }
    ensures range { IsStart result }
    ensures room { need_of result ≤ room_of result }
{
    Start::Melt {
        shape: Shape {
            sides: [64, 64, 64],
            periodic: [true, true, true],
        },
        chains: 512,
        length: 32,
    }
}
