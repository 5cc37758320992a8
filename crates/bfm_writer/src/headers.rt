ghost use Rattle.std.specs.Prelude.{◌≡◌, ◌<◌, ◌++◌, length, codes, decimal, is_some, IfOk};
ghost use Rattle.std.specs.List.{flat_map};
ghost use Rattle.bfm_base.specs.Account.{Sends};
ghost use Rattle.bfm_writer.specs.Batch.{Passes};
ghost use Rattle.bfm_writer.specs.Header.{bond_entries, bond_entry, bonds_text, fixed_entry, fixed_text, header_text, is_listed, listed, mark_entry, mark_line, marks_text, monomers_of, number_line, periodic_value, set_text, value_line, values_text, vector_line};
ghost use Rattle.bfm_writer.specs.Rows.{continuation};
ghost use Rattle.bfm_writer.specs.Listing.{behind, command_of, entries_of, mark_of};

use crate::batch::Batch;
use crate::contacts::write_table;
use crate::frames::{continuation, write_position};
use crate::groups::write_bond;
use crate::listing::Listing;
use bfm_base::{Failed, P3, Sink};
use bfm_world::World;
use bond_set::BondSet;
use itoa::Buffer;

/// What is said of single monomers.
#[derive(Clone, Copy)]
enum Mark {
    Label,
    Valence,
}

/// Writes the header of a world: the number of monomers, the box, and, each below its command where
/// it has entries, the set of bond vectors, the bonds that the lines of a frame of the world do not
/// show, the labels and the valences that are not 0, the monomers that are fixed, the pairs of
/// classes whose contacts do not weigh 0, and the thresholds of acceptance. Where it answers
/// `Failed`, a call of the sink failed, its count of faults rose, and it took a prefix of the text.
/// The sink is not flushed.
pub fn header<S: Sink>(world: &World, sink: &mut S) -> Result<(), Failed>
    ensures { Sends result (S.account sink.old) (S.account sink.new) (header_text world.now) }
{
    let mut batch = Batch::new();
    write_values(world, &mut batch, sink)?;
    write_set(world, &mut batch, sink)?;
    write_bonds(world, &mut batch, sink)?;
    write_all_marks(world, &mut batch, sink)?;
    write_table(world.table(), &mut batch, sink)?;
    batch.flush(sink)
}

/// Writes what is said of single monomers: labels, valences, and which of them are fixed.
fn write_all_marks<S: Sink>(world: &World, batch: &mut Batch, sink: &mut S) -> Result<(), Failed>
    ensures { Passes result (S.account sink.old) (S.account sink.new) (batch.old ++ marks_text world.now) (λ _. batch.new) }
{
    write_marks(world, Mark::Label, batch, sink)?;
    write_marks(world, Mark::Valence, batch, sink)?;
    write_fixed(world, batch, sink)
}

/// Writes the numbers of fixed monomers below their command, where there are any.
fn write_fixed<S: Sink>(world: &World, batch: &mut Batch, sink: &mut S) -> Result<(), Failed>
    ensures { Passes result (S.account sink.old) (S.account sink.new) (batch.old ++ fixed_text world.now) (λ _. batch.new) }
{
    let mut listing = Listing::Empty;
    for i in 0..world.len() {
        listing = write_if_fixed(world, i, listing, batch, sink)?;
    }
    Ok(())
}

/// Writes the number of a monomer, where it is fixed.
fn write_if_fixed<S: Sink>(
    world: &World,
    i: u32,
    listing: Listing,
    batch: &mut Batch,
    sink: &mut S,
) -> Result<Listing, Failed>
    requires { i < length world.now.positions }
    ensures entries { Passes result (S.account sink.old) (S.account sink.new) (batch.old ++ entries_of listing (codes "!bfm_fixed\n") (fixed_entry world.now i)) (λ _. batch.new) }
    ensures behind { IfOk result (λ now. now ≡ behind listing (fixed_entry world.now i)) }
{
    if !world.fixed(i) {
        return Ok(listing);
    }
    listing.write_command(b"!bfm_fixed\n", batch, sink)?;
    write_number_line(i, batch, sink)?;
    Ok(Listing::Begun)
}

/// Writes the number of a monomer, from 1, in a line of its own.
fn write_number_line<S: Sink>(i: u32, batch: &mut Batch, sink: &mut S) -> Result<(), Failed>
    ensures { Passes result (S.account sink.old) (S.account sink.new) (batch.old ++ number_line i) (λ _. batch.new) }
{
    let mut monomer = Buffer::new();
    batch.put_pieces(&[monomer.format(u64::from(i) + 1).as_bytes(), b"\n"], sink)
}

/// Writes the number of monomers and the box.
fn write_values<S: Sink>(world: &World, batch: &mut Batch, sink: &mut S) -> Result<(), Failed>
    ensures { Passes result (S.account sink.old) (S.account sink.new) (batch.old ++ values_text world.now) (λ _. batch.new) }
{
    let shape = world.shape();
    let [x, y, z] = shape.sides;
    let [along_x, along_y, along_z] = shape.periodic;
    let values: [(&[u8], u32); 7] = [
        (b"!number_of_monomers=", world.len()),
        (b"!box_x=", u32::from(x)),
        (b"!box_y=", u32::from(y)),
        (b"!box_z=", u32::from(z)),
        (b"!periodic_x=", periodic_value(along_x)),
        (b"!periodic_y=", periodic_value(along_y)),
        (b"!periodic_z=", periodic_value(along_z)),
    ];
    write_value_lines(&values, batch, sink)
}

/// The value of the command of an axis: 1 where it is periodic, 0 where it is walled.
fn periodic_value(periodic: bool) -> u32
    ensures { result ≡ periodic_value periodic }
{
    u32::from(periodic)
}

/// Writes commands, up to the `=`, with their values.
fn write_value_lines<S: Sink>(
    values: &[(&[u8], u32)],
    batch: &mut Batch,
    sink: &mut S,
) -> Result<(), Failed>
    ensures { Passes result (S.account sink.old) (S.account sink.new) (batch.old ++ flat_map (λ v. value_line (v.0.now, v.1)) values.now) (λ _. batch.new) }
{
    for (command, value) in values {
        write_value(command, *value, batch, sink)?;
    }
    Ok(())
}

/// Writes a command, up to the `=`, with its value.
fn write_value<S: Sink>(
    command: &[u8],
    value: u32,
    batch: &mut Batch,
    sink: &mut S,
) -> Result<(), Failed>
    ensures { Passes result (S.account sink.old) (S.account sink.new) (batch.old ++ value_line (command.now, value)) (λ _. batch.new) }
{
    let mut number = Buffer::new();
    batch.put_pieces(&[command, number.format(value).as_bytes(), b"\n"], sink)
}

/// Writes the set of bond vectors below its command, where it has any.
fn write_set<S: Sink>(world: &World, batch: &mut Batch, sink: &mut S) -> Result<(), Failed>
    ensures { Passes result (S.account sink.old) (S.account sink.new) (batch.old ++ set_text world.now) (λ _. batch.new) }
{
    let set = world.set();
    if set.is_empty() {
        return Ok(());
    }
    batch.put(b"!set_of_bondvectors\n", sink)?;
    write_vectors(set, batch, sink)
}

/// Writes the lines of the vectors of a set.
fn write_vectors<S: Sink>(set: &BondSet, batch: &mut Batch, sink: &mut S) -> Result<(), Failed>
    ensures { Passes result (S.account sink.old) (S.account sink.new) (batch.old ++ flat_map vector_line set.now) (λ _. batch.new) }
{
    for k in 0..set.len() {
        write_vector(set.vector(k), set.id(k), batch, sink)?;
    }
    Ok(())
}

/// Writes the line of a vector.
fn write_vector<S: Sink>(v: P3, id: u8, batch: &mut Batch, sink: &mut S) -> Result<(), Failed>
    ensures { Passes result (S.account sink.old) (S.account sink.new) (batch.old ++ vector_line (v, id)) (λ _. batch.new) }
{
    write_position(v, batch, sink)?;
    write_vector_id(id, batch, sink)
}

/// Writes the identifier of a vector, behind a colon.
fn write_vector_id<S: Sink>(id: u8, batch: &mut Batch, sink: &mut S) -> Result<(), Failed>
    ensures { Passes result (S.account sink.old) (S.account sink.new) (batch.old ++ (codes ":" ++ (decimal id ++ codes "\n"))) (λ _. batch.new) }
{
    let mut number = Buffer::new();
    batch.put_pieces(&[b":", number.format(id).as_bytes(), b"\n"], sink)
}

/// Writes the bonds that no line of a frame shows below their command, where there are any.
fn write_bonds<S: Sink>(world: &World, batch: &mut Batch, sink: &mut S) -> Result<(), Failed>
    ensures { Passes result (S.account sink.old) (S.account sink.new) (batch.old ++ bonds_text world.now) (λ _. batch.new) }
{
    let mut listing = Listing::Empty;
    for i in 0..world.len() {
        listing = write_bonds_of(world, i, listing, batch, sink)?;
    }
    Ok(())
}

/// Writes those of them of which a monomer is the lesser one.
fn write_bonds_of<S: Sink>(
    world: &World,
    i: u32,
    listing: Listing,
    batch: &mut Batch,
    sink: &mut S,
) -> Result<Listing, Failed>
    requires { i < length world.now.positions }
    ensures entries { Passes result (S.account sink.old) (S.account sink.new) (batch.old ++ entries_of listing (codes "!bonds\n") (bond_entries world.now i)) (λ _. batch.new) }
    ensures behind { IfOk result (λ now. now ≡ behind listing (bond_entries world.now i)) }
{
    let mut written = listing;
    for j in world.neighbours(i) {
        written = write_bond_entry(world, (i, *j), written, batch, sink)?;
    }
    Ok(written)
}

/// Writes a bond where its first monomer is the lesser one and no line of a frame shows it.
fn write_bond_entry<S: Sink>(
    world: &World,
    bond: (u32, u32),
    listing: Listing,
    batch: &mut Batch,
    sink: &mut S,
) -> Result<Listing, Failed>
    requires { bond.0 < length world.now.positions }
    ensures entries { Passes result (S.account sink.old) (S.account sink.new) (batch.old ++ entries_of listing (codes "!bonds\n") (bond_entry world.now bond.0 bond.1)) (λ _. batch.new) }
    ensures behind { IfOk result (λ now. now ≡ behind listing (bond_entry world.now bond.0 bond.1)) }
{
    if !is_listed(world, bond.0, bond.1) {
        return Ok(listing);
    }
    listing.write_command(b"!bonds\n", batch, sink)?;
    write_bond(bond, batch, sink)?;
    Ok(Listing::Begun)
}

/// Whether the bond of a monomer to a neighbour is listed at that monomer.
fn is_listed(world: &World, i: u32, j: u32) -> bool
    requires { i < length world.now.positions }
    ensures { result ≡ is_listed world.now i j }
{
    i < j && !(j == i + 1 && is_continued(world, i))
}

/// Whether the next monomer, where there is one, continues the row of a monomer.
fn is_continued(world: &World, i: u32) -> bool
    requires { i < length world.now.positions }
    ensures { result ≡ is_some (continuation world.now i) }
{
    let count = world.len();
    i + 1 < count && continuation(world, i + 1).is_some()
}

/// Writes the labels or the valences that are not 0 below their command, where there are any.
fn write_marks<S: Sink>(
    world: &World,
    mark: Mark,
    batch: &mut Batch,
    sink: &mut S,
) -> Result<(), Failed>
    ensures { Passes result (S.account sink.old) (S.account sink.new) (batch.old ++ listed (command_of mark) (flat_map (λ i. mark_entry i (mark_of mark world.now i)) (monomers_of world.now))) (λ _. batch.new) }
{
    let mut listing = Listing::Empty;
    for i in 0..world.len() {
        let value = mark.of_monomer(world, i);
        listing = write_mark(i, value, mark.command(), listing, batch, sink)?;
    }
    Ok(())
}

/// Writes the label or the valence of a monomer, where it is not 0.
fn write_mark<S: Sink>(
    i: u32,
    value: u32,
    command: &[u8],
    listing: Listing,
    batch: &mut Batch,
    sink: &mut S,
) -> Result<Listing, Failed>
    ensures entries { Passes result (S.account sink.old) (S.account sink.new) (batch.old ++ entries_of listing command.now (mark_entry i value)) (λ _. batch.new) }
    ensures behind { IfOk result (λ now. now ≡ behind listing (mark_entry i value)) }
{
    if value == 0 {
        return Ok(listing);
    }
    listing.write_command(command, batch, sink)?;
    write_mark_line(i, value, batch, sink)?;
    Ok(Listing::Begun)
}

/// Writes the line of a label or a valence.
fn write_mark_line<S: Sink>(
    i: u32,
    value: u32,
    batch: &mut Batch,
    sink: &mut S,
) -> Result<(), Failed>
    ensures { Passes result (S.account sink.old) (S.account sink.new) (batch.old ++ mark_line i value) (λ _. batch.new) }
{
    let (mut monomer, mut number) = (Buffer::new(), Buffer::new());
    let monomer = monomer.format(u64::from(i) + 1).as_bytes();
    let number = number.format(value).as_bytes();
    batch.put_pieces(&[monomer, b":", number, b"\n"], sink)
}

impl Mark {
    /// The line of the command.
    fn command(self) -> &'static [u8]
        ensures { result.now ≡ command_of self }
    {
        match self {
            Mark::Label => b"!attributes\n",
            Mark::Valence => b"!bfm_valence\n",
        }
    }

    /// What is said of a monomer, 0 where nothing is.
    fn of_monomer(self, world: &World, i: u32) -> u32
        requires { i < length world.now.positions }
        ensures { result ≡ mark_of self world.now i }
    {
        match self {
            Mark::Label => world.label(i),
            Mark::Valence => u32::from(world.valence(i)),
        }
    }
}
