ghost use Rattle.std.specs.Prelude.{◌≤◌, ◌++◌, length};
ghost use Rattle.std.specs.List.{flat_map};
ghost use Rattle.bfm_base.specs.Account.{Sends};
ghost use Rattle.bfm_base.specs.declared.limits.TheConstants.{GREATEST_CLASS};
ghost use Rattle.bfm_commands.specs.Reading.{ArePlaces};
ghost use Rattle.chain_stats.specs.Fractions.{AreMembers};
ghost use Rattle.chain_stats.specs.Molecules.{AreMolecules};
ghost use Rattle.cluster_stats.specs.Contacts.{count_of};
ghost use Rattle.bfm_session.specs.Tables.{class_line, classes_from, count_lines, drift_line, mean_line, radius_line, size_line};

use crate::lines::number_line;
use bfm_base::limits::GREATEST_CLASS;
use bfm_base::{Failed, P3, Sink, send_pieces};
use bfm_world::World;
use chain_stats::{MoleculeList, drift, end_square, mean_square, radius};
use cluster_stats::{ClusterSizes, ContactCounts};
use itoa::Buffer;

/// Writes the size of each molecule: its radius of gyration and the distance of its ends. The sink
/// is not flushed.
pub(crate) fn radius_lines<S: Sink>(
    world: &World,
    molecules: &MoleculeList,
    sink: &mut S,
) -> Result<(), Failed>
    requires { AreMolecules world.now molecules.now }
    ensures { Sends result (S.account sink.old) (S.account sink.new) (flat_map (radius_line world.now) molecules.now) }
{
    for k in 0..molecules.count() {
        radius_line(world, molecules.members(k), sink)?;
    }
    Ok(())
}

fn radius_line<S: Sink>(world: &World, members: &[u32], sink: &mut S) -> Result<(), Failed>
    requires { AreMembers world.now members.now }
    ensures { Sends result (S.account sink.old) (S.account sink.new) (radius_line world.now members.now) }
{
    let (mut first, mut size) = (Buffer::new(), Buffer::new());
    let first = first.format(u64::from(members[0]) + 1).as_bytes();
    let size = size.format(members.len()).as_bytes();
    let (mut top, mut bottom, mut end) = (Buffer::new(), Buffer::new(), Buffer::new());
    let radius = radius(world, members);
    let top = top.format(radius.top).as_bytes();
    let bottom = bottom.format(radius.bottom).as_bytes();
    let end = end.format(end_square(world, members)).as_bytes();
    send_pieces(
        sink,
        &[
            b"molecule ",
            first,
            b" ",
            size,
            b" ",
            top,
            b"/",
            bottom,
            b" ",
            end,
            b"\n",
        ],
    )
}

/// Writes how far all monomers went, and each molecule, since they stood at the first positions. The
/// sink is not flushed.
pub(crate) fn move_lines<S: Sink>(
    first: &[P3],
    world: &World,
    molecules: &MoleculeList,
    sink: &mut S,
) -> Result<(), Failed>
    requires first { ArePlaces (length world.now.positions) first.now }
    requires molecules { AreMolecules world.now molecules.now }
    ensures { Sends result (S.account sink.old) (S.account sink.new) (mean_line first.now world.now ++ flat_map (drift_line first.now world.now) molecules.now) }
{
    mean_line(first, world, sink)?;
    drift_lines(first, world, molecules, sink)
}

fn mean_line<S: Sink>(first: &[P3], world: &World, sink: &mut S) -> Result<(), Failed>
    requires { ArePlaces (length world.now.positions) first.now }
    ensures { Sends result (S.account sink.old) (S.account sink.new) (mean_line first.now world.now) }
{
    let (mut top, mut bottom) = (Buffer::new(), Buffer::new());
    let mean = mean_square(first, world);
    let top = top.format(mean.top).as_bytes();
    let bottom = bottom.format(mean.bottom).as_bytes();
    send_pieces(sink, &[b"monomers ", top, b"/", bottom, b"\n"])
}

fn drift_lines<S: Sink>(
    first: &[P3],
    world: &World,
    molecules: &MoleculeList,
    sink: &mut S,
) -> Result<(), Failed>
    requires first { ArePlaces (length world.now.positions) first.now }
    requires molecules { AreMolecules world.now molecules.now }
    ensures { Sends result (S.account sink.old) (S.account sink.new) (flat_map (drift_line first.now world.now) molecules.now) }
{
    for k in 0..molecules.count() {
        drift_line(first, world, molecules.members(k), sink)?;
    }
    Ok(())
}

fn drift_line<S: Sink>(
    first: &[P3],
    world: &World,
    members: &[u32],
    sink: &mut S,
) -> Result<(), Failed>
    requires first { ArePlaces (length world.now.positions) first.now }
    requires members { AreMembers world.now members.now }
    ensures { Sends result (S.account sink.old) (S.account sink.new) (drift_line first.now world.now members.now) }
{
    let (mut least, mut size) = (Buffer::new(), Buffer::new());
    let least = least.format(u64::from(members[0]) + 1).as_bytes();
    let size = size.format(members.len()).as_bytes();
    let (mut top, mut bottom) = (Buffer::new(), Buffer::new());
    let drift = drift(first, world, members);
    let top = top.format(drift.top).as_bytes();
    let bottom = bottom.format(drift.bottom).as_bytes();
    send_pieces(
        sink,
        &[
            b"molecule ",
            least,
            b" ",
            size,
            b" ",
            top,
            b"/",
            bottom,
            b"\n",
        ],
    )
}

/// Writes how many contacts there are, between each two classes and in all. The sink is not flushed.
pub(crate) fn contact_lines<S: Sink>(counts: &ContactCounts, sink: &mut S) -> Result<(), Failed>
    ensures { Sends result (S.account sink.old) (S.account sink.new) (count_lines (count_of counts.now) counts.now.total) }
{
    for a in 0..=GREATEST_CLASS {
        class_lines(counts, a, sink)?;
    }
    number_line(sink, b"total", &[counts.total()])
}

/// Writes the contacts of a class with itself and with those after it.
fn class_lines<S: Sink>(counts: &ContactCounts, a: u8, sink: &mut S) -> Result<(), Failed>
    requires { a ≤ GREATEST_CLASS }
    ensures { Sends result (S.account sink.old) (S.account sink.new) (flat_map (λ b. class_line a b (count_of counts.now a b)) (classes_from a)) }
{
    for b in a..=GREATEST_CLASS {
        class_line(a, b, counts.count(a, b), sink)?;
    }
    Ok(())
}

fn class_line<S: Sink>(a: u8, b: u8, contacts: u64, sink: &mut S) -> Result<(), Failed>
    ensures { Sends result (S.account sink.old) (S.account sink.new) (class_line a b contacts) }
{
    if contacts == 0 {
        return Ok(());
    }
    let mut first = Buffer::new();
    number_line(sink, first.format(a).as_bytes(), &[u64::from(b), contacts])
}

/// Writes each size that clusters have, and how many have it. The sink is not flushed.
pub(crate) fn size_lines<S: Sink>(sizes: &ClusterSizes, sink: &mut S) -> Result<(), Failed>
    ensures { Sends result (S.account sink.old) (S.account sink.new) (flat_map size_line sizes.now) }
{
    for (size, number) in sizes.rows() {
        size_line(*size, *number, sink)?;
    }
    Ok(())
}

fn size_line<S: Sink>(size: u32, number: u32, sink: &mut S) -> Result<(), Failed>
    ensures { Sends result (S.account sink.old) (S.account sink.new) (size_line (size, number)) }
{
    let mut name = Buffer::new();
    number_line(sink, name.format(size).as_bytes(), &[u64::from(number)])
}
