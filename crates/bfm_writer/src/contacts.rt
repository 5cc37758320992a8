ghost use Rattle.std.specs.Prelude.{◌≡◌, ◌≤◌, ◌++◌, codes, IfOk};
ghost use Rattle.std.specs.List.{flat_map};
ghost use Rattle.bfm_base.specs.declared.limits.TheConstants.{GREATEST_CLASS};
ghost use Rattle.contact_table.specs.Contacts.{IsClass};
ghost use Rattle.contact_table.specs.Entries.{entries_of_class, entry_of};
ghost use Rattle.bfm_writer.specs.Batch.{Passes};
ghost use Rattle.bfm_writer.specs.Header.{acceptance_text, contact_line, contacts_text, table_text, threshold_line};
ghost use Rattle.bfm_writer.specs.Listing.{behind, entries_of};

use crate::batch::Batch;
use crate::listing::Listing;
use bfm_base::limits::GREATEST_CLASS;
use bfm_base::{Failed, Sink};
use contact_table::Table;
use itoa::Buffer;

/// Writes the weights of contacts and the thresholds of acceptance, each below their command, where
/// there are any.
pub(crate) fn write_table<S: Sink>(
    table: &Table,
    batch: &mut Batch,
    sink: &mut S,
) -> Result<(), Failed>
    ensures { Passes result (S.account sink.old) (S.account sink.new) (batch.old ++ table_text table.now) (λ _. batch.new) }
{
    write_contacts(table, batch, sink)?;
    write_acceptance(table, batch, sink)
}

/// Writes the pairs of classes that do not weigh 0 below their command, where there are any.
fn write_contacts<S: Sink>(table: &Table, batch: &mut Batch, sink: &mut S) -> Result<(), Failed>
    ensures { Passes result (S.account sink.old) (S.account sink.new) (batch.old ++ contacts_text table.now) (λ _. batch.new) }
{
    let mut listing = Listing::Empty;
    for a in 1..=GREATEST_CLASS {
        listing = write_contacts_of(table, a, listing, batch, sink)?;
    }
    Ok(())
}

/// Writes those of them of which a class is the lesser one.
fn write_contacts_of<S: Sink>(
    table: &Table,
    a: u8,
    listing: Listing,
    batch: &mut Batch,
    sink: &mut S,
) -> Result<Listing, Failed>
    requires { IsClass a }
    ensures entries { Passes result (S.account sink.old) (S.account sink.new) (batch.old ++ entries_of listing (codes "!bfm_contacts\n") (flat_map contact_line (entries_of_class table.now a))) (λ _. batch.new) }
    ensures behind { IfOk result (λ now. now ≡ behind listing (flat_map contact_line (entries_of_class table.now a))) }
{
    let mut written = listing;
    for b in a..=GREATEST_CLASS {
        written = write_contact(table, (a, b), written, batch, sink)?;
    }
    Ok(written)
}

/// Writes the weight of a pair of classes, where it is not 0.
fn write_contact<S: Sink>(
    table: &Table,
    pair: (u8, u8),
    listing: Listing,
    batch: &mut Batch,
    sink: &mut S,
) -> Result<Listing, Failed>
    requires first { pair.0 ≤ GREATEST_CLASS }
    requires second { pair.1 ≤ GREATEST_CLASS }
    ensures entries { Passes result (S.account sink.old) (S.account sink.new) (batch.old ++ entries_of listing (codes "!bfm_contacts\n") (flat_map contact_line (entry_of table.now pair.0 pair.1))) (λ _. batch.new) }
    ensures behind { IfOk result (λ now. now ≡ behind listing (flat_map contact_line (entry_of table.now pair.0 pair.1))) }
{
    let weight = table.weight(pair.0, pair.1);
    if weight == 0 {
        return Ok(listing);
    }
    listing.write_command(b"!bfm_contacts\n", batch, sink)?;
    write_contact_line(pair, weight, batch, sink)?;
    Ok(Listing::Begun)
}

/// Writes the line of a pair of classes and its weight.
fn write_contact_line<S: Sink>(
    pair: (u8, u8),
    weight: i32,
    batch: &mut Batch,
    sink: &mut S,
) -> Result<(), Failed>
    ensures { Passes result (S.account sink.old) (S.account sink.new) (batch.old ++ contact_line (pair, weight)) (λ _. batch.new) }
{
    let (mut first, mut second, mut number) = (Buffer::new(), Buffer::new(), Buffer::new());
    let first = first.format(pair.0).as_bytes();
    let second = second.format(pair.1).as_bytes();
    let number = number.format(weight).as_bytes();
    batch.put_pieces(&[first, b" ", second, b":", number, b"\n"], sink)
}

/// Writes the thresholds of acceptance below their command, where there are any.
fn write_acceptance<S: Sink>(table: &Table, batch: &mut Batch, sink: &mut S) -> Result<(), Failed>
    ensures { Passes result (S.account sink.old) (S.account sink.new) (batch.old ++ acceptance_text table.now) (λ _. batch.new) }
{
    if table.thresholds() == 0 {
        return Ok(());
    }
    batch.put(b"!bfm_acceptance\n", sink)?;
    write_thresholds(table, batch, sink)
}

/// Writes the lines of the thresholds.
fn write_thresholds<S: Sink>(table: &Table, batch: &mut Batch, sink: &mut S) -> Result<(), Failed>
    ensures { Passes result (S.account sink.old) (S.account sink.new) (batch.old ++ flat_map threshold_line table.now.thresholds) (λ _. batch.new) }
{
    for delta in 1..=table.thresholds() {
        write_threshold(table.threshold(i64::from(delta)), batch, sink)?;
    }
    Ok(())
}

/// Writes the line of a threshold.
fn write_threshold<S: Sink>(threshold: u64, batch: &mut Batch, sink: &mut S) -> Result<(), Failed>
    ensures { Passes result (S.account sink.old) (S.account sink.new) (batch.old ++ threshold_line threshold) (λ _. batch.new) }
{
    let mut number = Buffer::new();
    batch.put_pieces(&[number.format(threshold).as_bytes(), b"\n"], sink)
}
