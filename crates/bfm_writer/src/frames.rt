ghost use Rattle.std.specs.Prelude.{◌≡◌, ◌-◌, ◌<◌, ◌++◌, ◌∷◌, [], length};
ghost use Rattle.std.specs.List.{flat_map};
ghost use Rattle.bfm_writer.specs.Batch.{Passes};
ghost use Rattle.bfm_writer.specs.Rows.{continuation, rows_of};
ghost use Rattle.bfm_writer.specs.Text.{position_text, row_text, time_line};
ghost use Rattle.bfm_writer.specs.Part.{left_behind, id_text};

use crate::batch::Batch;
use bfm_base::{Failed, P3, Sink};
use bfm_geom::plain_difference;
use bfm_world::World;
use itoa::Buffer;

/// What is written of a row so far.
#[derive(Clone, Copy)]
enum Part {
    /// The position of its first monomer alone.
    Start,
    /// Identifiers too.
    Ids,
}

/// Writes the time of a frame, in sweeps.
pub(crate) fn write_time<S: Sink>(mcs: u64, batch: &mut Batch, sink: &mut S) -> Result<(), Failed>
    ensures { Passes result (S.account sink.old) (S.account sink.new) (batch.old ++ time_line mcs) (λ _. batch.new) }
{
    let mut number = Buffer::new();
    batch.put_pieces(&[b"!mcs=", number.format(mcs).as_bytes(), b"\n"], sink)
}

/// Writes the rows of all monomers.
pub(crate) fn write_rows<S: Sink>(
    world: &World,
    batch: &mut Batch,
    sink: &mut S,
) -> Result<(), Failed>
    ensures { Passes result (S.account sink.old) (S.account sink.new) (batch.old ++ flat_map row_text (rows_of world.now)) (λ _. batch.new) }
{
    let count = world.len();
    write_position(world.position(0), batch, sink)?;
    let mut part = Part::Start;
    for k in 1..count {
        part = write_monomer(world, k, part, batch, sink)?;
    }
    batch.put(b"\n", sink)
}

/// Writes a monomer that is not the first, where a part of the row of the one before it is written,
/// and answers what is then written of its own row.
fn write_monomer<S: Sink>(
    world: &World,
    k: u32,
    part: Part,
    batch: &mut Batch,
    sink: &mut S,
) -> Result<Part, Failed>
    requires later { 0 < k }
    requires monomer { k < length world.now.positions }
    ensures { Passes result (S.account sink.old) (S.account sink.new) (batch.old ++ left_behind part world.now (k - 1)) (λ now. batch.new ++ left_behind now world.now k) }
{
    if let Some(id) = continuation(world, k) {
        write_id(id, part, batch, sink)?;
        return Ok(Part::Ids);
    }
    batch.push(b'\n', sink)?;
    write_position(world.position(k), batch, sink)?;
    Ok(Part::Start)
}

/// Writes an identifier, and a space before the first one of a row.
fn write_id<S: Sink>(id: u8, part: Part, batch: &mut Batch, sink: &mut S) -> Result<(), Failed>
    ensures { Passes result (S.account sink.old) (S.account sink.new) (batch.old ++ id_text part id) (λ _. batch.new) }
{
    match part {
        Part::Start => batch.put(&[b' ', id], sink),
        Part::Ids => batch.push(id, sink),
    }
}

/// Writes a position.
pub(crate) fn write_position<S: Sink>(p: P3, batch: &mut Batch, sink: &mut S) -> Result<(), Failed>
    ensures { Passes result (S.account sink.old) (S.account sink.new) (batch.old ++ position_text p) (λ _. batch.new) }
{
    let (mut x, mut y, mut z) = (Buffer::new(), Buffer::new(), Buffer::new());
    let x = x.format(p.x).as_bytes();
    let y = y.format(p.y).as_bytes();
    let z = z.format(p.z).as_bytes();
    batch.put_pieces(&[x, b" ", y, b" ", z], sink)
}

/// The identifier by which a monomer that is not the first continues the row of the one before it,
/// where it does.
pub(crate) fn continuation(world: &World, k: u32) -> Option<u8>
    requires later { 0 < k }
    requires monomer { k < length world.now.positions }
    ensures { result ≡ continuation world.now (k - 1) }
{
    if !world.bonded(k - 1, k) {
        return None;
    }
    let step = plain_difference(world.position(k - 1), world.position(k));
    world.set().id_of(step)
}
