ghost use Rattle.std.specs.Prelude.{◌≡◌, length};
ghost use Rattle.bfm_base.specs.Account.{Delivers};
ghost use Rattle.bfm_commands.specs.Reading.{ArePlaces};
ghost use Rattle.bfm_session.specs.Analysis.{Answers, Judges, answer_text};
ghost use Rattle.bfm_session.specs.CrossingText.{crossing_text};
ghost use Rattle.bfm_session.specs.Info.{info_text};
ghost use Rattle.bfm_session.specs.Tables.{clusters_text, contacts_text, moves_text, radii_text};
ghost use Rattle.crossing_check.specs.declared.judgement.SetVerdict.{SetVerdict};

use crate::crossing::crossing_lines;
use crate::info::info_lines;
use crate::tables::{contact_lines, move_lines, radius_lines, size_lines};
use bfm_base::{Failed, P3, Sink};
use bfm_commands::Loaded;
use bfm_world::World;
use chain_stats::molecules;
use cluster_stats::{clusters, contacts};
use crossing_check::{SetVerdict, verdict};
use std::alloc::{AllocError, Global};
use thiserror::Error;

/// What is asked of a file.
#[derive(Clone, Copy, Debug, PartialEq, Eq)]
pub enum Ask {
    /// Whether its set of bond vectors allows a crossing move.
    Check,
    /// What it holds, in numbers.
    Info,
    /// How large each molecule of its last frame is.
    Radii,
    /// How far monomers and molecules went from its first frame to its last.
    Moves,
    /// How many pairs of monomers of its last frame are in contact, by their classes.
    Contacts,
    /// How many clusters of each size its last frame has.
    Clusters,
}

/// Why an analysis was not written to its end.
#[derive(Debug, Drop, Error)]
pub enum AskFault {
    /// A call of the sink failed.
    #[error("WriteFault")]
    WriteFault,
    /// Want of memory, before the first byte is written.
    #[error("Memory")]
    Memory,
}

impl From<Failed> for AskFault {
    ghost use Rattle.std.specs.Prelude.{◌≡◌};
    ghost use Rattle.bfm_session.specs.declared.analysis.AskFault.TheVariants.{WriteFault};

    ghost from_gives = { λ _ fault. fault ≡ WriteFault };

    fn from(_failed: Failed) -> AskFault {
        AskFault::WriteFault
    }
}

impl From<AllocError> for AskFault {
    ghost use Rattle.std.specs.Prelude.{◌≡◌};
    ghost use Rattle.bfm_session.specs.declared.analysis.AskFault.TheVariants.{Memory};

    ghost from_gives = { λ _ fault. fault ≡ Memory };

    fn from(_error: AllocError) -> AskFault {
        AskFault::Memory
    }
}

/// Writes what is asked of a file that was loaded, and flushes. It takes all its memory before the
/// first byte is written.
pub fn analyse<O: Sink>(
    alloc: Global,
    loaded: &Loaded,
    ask: &Ask,
    output: &mut O,
) -> Result<(), AskFault>
    requires { ask.now ≡ Ask.Moves → ArePlaces (length loaded.now.world.positions) loaded.now.first }
    ensures { (verdict : SetVerdict) × Judges ask.now loaded.now.world.set verdict
        × Answers result (answer_text ask.now loaded.now verdict) (O.account output.old) (O.account output.new) (output.new ≡ output.old) }
{
    let world = &loaded.world;
    match ask {
        Ask::Check => Ok(write_verdict(&verdict(world.set()), output)?),
        Ask::Info => Ok(write_info(loaded, output)?),
        Ask::Radii => write_radii(alloc, world, output),
        Ask::Moves => write_moves(alloc, loaded.first.list(), world, output),
        Ask::Contacts => write_contacts(alloc, world, output),
        Ask::Clusters => write_clusters(alloc, world, output),
    }
}

/// Writes the crossing lines and flushes them.
fn write_verdict<O: Sink>(verdict: &SetVerdict, output: &mut O) -> Result<(), Failed>
    ensures { Delivers result (O.account output.old) (O.account output.new) (crossing_text verdict.now) }
{
    crossing_lines(verdict, output)?;
    output.flush()
}

/// Writes the lines of what a file holds and flushes them.
fn write_info<O: Sink>(loaded: &Loaded, output: &mut O) -> Result<(), Failed>
    ensures { Delivers result (O.account output.old) (O.account output.new) (info_text loaded.now) }
{
    info_lines(loaded, output)?;
    output.flush()
}

/// Writes how large each molecule is, and flushes.
fn write_radii<O: Sink>(alloc: Global, world: &World, output: &mut O) -> Result<(), AskFault>
    ensures { Answers result (radii_text world.now) (O.account output.old) (O.account output.new) (output.new ≡ output.old) }
{
    let molecules = molecules(alloc, world)?;
    radius_lines(world, &molecules, output)?;
    output.flush()?;
    Ok(())
}

/// Writes how far monomers and molecules went since they stood at the first positions, and flushes.
fn write_moves<O: Sink>(
    alloc: Global,
    first: &[P3],
    world: &World,
    output: &mut O,
) -> Result<(), AskFault>
    requires { ArePlaces (length world.now.positions) first.now }
    ensures { Answers result (moves_text first.now world.now) (O.account output.old) (O.account output.new) (output.new ≡ output.old) }
{
    let molecules = molecules(alloc, world)?;
    move_lines(first, world, &molecules, output)?;
    output.flush()?;
    Ok(())
}

/// Writes how many pairs of monomers are in contact, by their classes and in all, and flushes.
fn write_contacts<O: Sink>(alloc: Global, world: &World, output: &mut O) -> Result<(), AskFault>
    ensures { Answers result (contacts_text world.now) (O.account output.old) (O.account output.new) (output.new ≡ output.old) }
{
    let counts = contacts(alloc, world)?;
    contact_lines(&counts, output)?;
    output.flush()?;
    Ok(())
}

/// Writes how many clusters there are of each size, and flushes.
fn write_clusters<O: Sink>(alloc: Global, world: &World, output: &mut O) -> Result<(), AskFault>
    ensures { Answers result (clusters_text world.now) (O.account output.old) (O.account output.new) (output.new ≡ output.old) }
{
    let sizes = clusters(alloc, world)?;
    size_lines(&sizes, output)?;
    output.flush()?;
    Ok(())
}
