ghost use Rattle.std.specs.Prelude.{◌++◌};
ghost use Rattle.std.specs.List.{flat_map};
ghost use Rattle.bfm_base.specs.Account.{Sends};
ghost use Rattle.bfm_writer.specs.Batch.{Passes};
ghost use Rattle.bfm_writer.specs.Text.{added_text, bond_line, group_text};

use crate::batch::Batch;
use crate::frames::{write_rows, write_time};
use bfm_base::{Failed, Sink};
use bfm_world::World;
use itoa::Buffer;

/// Writes an empty line, the bonds that were added since the last frame, where there are any, and
/// the frame of a world at a time, in sweeps. A bond is a pair of monomers, counted from 0, in
/// either order. Where it answers `Failed`, a call of the sink failed, its count of faults rose,
/// and it took a prefix of the text. The sink is not flushed.
pub fn group<S: Sink>(
    world: &World,
    mcs: u64,
    added: &[(u32, u32)],
    sink: &mut S,
) -> Result<(), Failed>
    ensures { Sends result (S.account sink.old) (S.account sink.new) (group_text world.now mcs added.now) }
{
    let mut batch = Batch::new();
    batch.push(b'\n', sink)?;
    write_added_bonds(added, &mut batch, sink)?;
    write_time(mcs, &mut batch, sink)?;
    write_rows(world, &mut batch, sink)?;
    batch.flush(sink)
}

/// Writes the added bonds below their command, where there are any.
fn write_added_bonds<S: Sink>(
    added: &[(u32, u32)],
    batch: &mut Batch,
    sink: &mut S,
) -> Result<(), Failed>
    ensures { Passes result (S.account sink.old) (S.account sink.new) (batch.old ++ added_text added.now) (λ _. batch.new) }
{
    if added.is_empty() {
        return Ok(());
    }
    batch.put(b"!add_bonds\n", sink)?;
    write_bonds(added, batch, sink)
}

/// Writes the lines of bonds.
fn write_bonds<S: Sink>(bonds: &[(u32, u32)], batch: &mut Batch, sink: &mut S) -> Result<(), Failed>
    ensures { Passes result (S.account sink.old) (S.account sink.new) (batch.old ++ flat_map bond_line bonds.now) (λ _. batch.new) }
{
    for bond in bonds {
        write_bond(*bond, batch, sink)?;
    }
    Ok(())
}

/// Writes the line of a bond: its monomers, counted from 1, the lesser one first.
pub(crate) fn write_bond<S: Sink>(
    bond: (u32, u32),
    batch: &mut Batch,
    sink: &mut S,
) -> Result<(), Failed>
    ensures { Passes result (S.account sink.old) (S.account sink.new) (batch.old ++ bond_line bond) (λ _. batch.new) }
{
    let (i, j) = (u64::from(bond.0), u64::from(bond.1));
    let (mut first, mut second) = (Buffer::new(), Buffer::new());
    let first = first.format(i.min(j) + 1).as_bytes();
    let second = second.format(i.max(j) + 1).as_bytes();
    batch.put_pieces(&[first, b" ", second, b"\n"], sink)
}
