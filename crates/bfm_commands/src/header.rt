ghost use Rattle.std.specs.Prelude.{◌≡◌, ◌≢◌, ◌≤◌, false, true, [], ◌++◌, length, replicate, All, None, Some, IfOk, IfErr, OnOk, OnErr, IfSome};
ghost use Rattle.std.specs.List.{list_any};
ghost use Rattle.bfm_base.specs.declared.cause.Cause.TheVariants.{TooManyBonds};
ghost use Rattle.bfm_base.specs.declared.limits.TheConstants.{MOST_MONOMERS, GREATEST_NUMBER, GREATEST_LABEL, GREATEST_VALENCE};
ghost use Rattle.bfm_geom.specs.Difference.{IsBox};
ghost use Rattle.bfm_lexer.specs.Kinds.{is_bare};
ghost use Rattle.contact_table.specs.Contacts.{no_contacts};
ghost use Rattle.bfm_world.specs.Configuration.{IsSound};
ghost use Rattle.bfm_world.specs.Draft.{with_bonds};
ghost use Rattle.bfm_commands.specs.Causes.{vector_cause, bond_cause, contact_cause, threshold_cause, some_missing, is_box_too_large, is_beyond, is_overfull};
ghost use Rattle.bfm_commands.specs.Forms.{vector_entry, pair_entry, contact_entry, threshold_entry, value_of};
ghost use Rattle.bfm_commands.specs.History.{shape_in, count_in, with_pairs, with_vector, with_listed, with_contact, with_acceptance, given_in, given_as, stands, said_of_each, fixed_of_each};
ghost use Rattle.bfm_commands.specs.Meaning.{role_of};
ghost use Rattle.bfm_commands.specs.Reading.{IsFault, value_fault, list_fault, entry_fault, with_entry, begin_fault, begun_draft, names_beyond_in, with_marks, with_labels, with_valences};

use crate::commands::Known;
use crate::fault::LineFault;
use crate::fixed::FixedRanges;
use crate::forms::{contact_entry, pair_entry, threshold_entry, value_of, vector_entry};
use crate::pairs::Pairs;
use crate::ranges::Ranges;
use crate::role::Role;
use crate::settings::{Given, Settings};
use bfm_base::Cause;
use bfm_base::limits::{GREATEST_LABEL, GREATEST_VALENCE};
use bfm_lexer::is_bare;
use bfm_world::WorldBuilder;
use bond_set::BondSet;
use contact_table::{MOST_THRESHOLDS, Table};
use std::alloc::{AllocError, Global};
use std::mem;

/// What the lines before the first frame have given so far.
#[derive(Drop)]
pub(crate) struct Header {
    pub settings: Settings,
    pub set: BondSet,
    pub pairs: Pairs,
    pub labels: Ranges<GREATEST_LABEL>,
    pub valences: Ranges<MOST_VALENCE>,
    pub fixed: FixedRanges,
    pub table: Table,
}

/// The greatest valence, as a list of ranges takes it.
const MOST_VALENCE: u32 = GREATEST_VALENCE as u32;

impl Header {
    /// The header of no line.
    pub fn new(alloc: Global) -> Header
        ensures { result ≡ record { settings = []; set = []; pairs = []; labels = []; valences = []; fixed = []; table = no_contacts } }
    {
        Header {
            settings: Settings::new(alloc),
            set: BondSet::new(alloc),
            pairs: Pairs::new(alloc),
            labels: Ranges::new(alloc),
            valences: Ranges::new(alloc),
            fixed: FixedRanges::new(alloc),
            table: Table::new(),
        }
    }

    /// Takes a command with a value from the least to the greatest, by the rest of its line.
    pub fn take_value(
        &mut self,
        command: Known,
        least: u64,
        greatest: u64,
        rest: &[u8],
    ) -> Result<(), LineFault>
        requires role { role_of command ≡ Role.Value least greatest }
        ensures taken { OnOk result ((value_fault (value_of rest.now least greatest) (stands command self.old.settings) ≡ None)
            × (self.new ≡ record self.old { settings = given_as command (Role.Value least greatest) rest.now ++ self.old.settings })) }
        ensures refused { IfErr result (λ fault. IsFault fault (value_fault (value_of rest.now least greatest) (stands command self.old.settings))) }
    {
        let value = value_of(rest, least, greatest)?;
        if self.settings.stands(command) {
            return Err(LineFault::Refused(Cause::Repeated));
        }
        self.settings.give(Given {
            command,
            value: Some(value),
        })?;
        Ok(())
    }

    /// Takes a command whose entries follow, by the rest of its line.
    pub fn take_list(&mut self, command: Known, rest: &[u8]) -> Result<(), LineFault>
        requires role { role_of command ≡ Role.List }
        ensures taken { OnOk result ((list_fault (is_bare rest.now) (stands command self.old.settings) ≡ None)
            × (self.new ≡ record self.old { settings = given_as command Role.List rest.now ++ self.old.settings })) }
        ensures refused { IfErr result (λ fault. IsFault fault (list_fault (is_bare rest.now) (stands command self.old.settings))) }
    {
        if !is_bare(rest) {
            return Err(LineFault::Refused(Cause::BadLine));
        }
        if self.settings.stands(command) {
            return Err(LineFault::Refused(Cause::Repeated));
        }
        self.settings.give(Given {
            command,
            value: None,
        })?;
        Ok(())
    }

    /// Takes a vector of the set of bond vectors.
    fn take_vector(&mut self, text: &[u8]) -> Result<(), LineFault>
        ensures taken { OnOk result ((vector_cause self.old.set text.now ≡ None)
            × (self.new ≡ record self.old { set = with_vector self.old.set (given_in vector_entry (Some text.now)) })) }
        ensures refused { IfErr result (λ fault. IsFault fault (vector_cause self.old.set text.now)) }
    {
        let (vector, id) = vector_entry(text)?;
        self.set.add(vector, id)?;
        Ok(())
    }

    /// Takes a pair of the list of bonds.
    fn take_pair(&mut self, text: &[u8]) -> Result<(), LineFault>
        ensures taken { OnOk result ((bond_cause text.now ≡ None)
            × (self.new ≡ record self.old { pairs = with_listed self.old.pairs (given_in pair_entry (Some text.now)) })) }
        ensures refused { IfErr result (λ fault. IsFault fault (bond_cause text.now)) }
    {
        let pair = pair_entry(text)?;
        self.pairs.add(pair)?;
        Ok(())
    }

    /// Takes the weight of the contacts of two classes, in place of the one that they had.
    fn take_contact(&mut self, text: &[u8]) -> Result<(), LineFault>
        ensures taken { OnOk result ((contact_cause text.now ≡ None)
            × (self.new ≡ record self.old { table = with_contact self.old.table (given_in contact_entry (Some text.now)) })) }
        ensures refused { IfErr result (λ fault. IsFault fault (contact_cause text.now)) }
    {
        let ((a, b), weight) = contact_entry(text)?;
        self.table.set_weight(a, b, weight);
        Ok(())
    }

    /// Takes the next threshold of acceptance, where there are fewer than 1,024.
    fn take_threshold(&mut self, text: &[u8]) -> Result<(), LineFault>
        ensures taken { OnOk result ((threshold_cause self.old.table.thresholds text.now ≡ None)
            × (self.new ≡ record self.old { table = with_acceptance self.old.table (given_in threshold_entry (Some text.now)) })) }
        ensures refused { IfErr result (λ fault. IsFault fault (threshold_cause self.old.table.thresholds text.now)) }
    {
        let threshold = threshold_entry(text)?;
        if self.table.thresholds() as usize >= MOST_THRESHOLDS {
            return Err(LineFault::Refused(Cause::OutOfLimit));
        }
        self.table.push_threshold(threshold);
        Ok(())
    }

    /// Takes an entry of a command.
    pub fn take_entry(&mut self, owner: Known, text: &[u8]) -> Result<(), LineFault>
        ensures taken { OnOk result ((entry_fault self.old owner text.now ≡ None) × (self.new ≡ with_entry self.old owner text.now)) }
        ensures refused { IfErr result (λ fault. IsFault fault (entry_fault self.old owner text.now)) }
    {
        match owner {
            Known::SetOfBondVectors => self.take_vector(text),
            Known::Bonds => self.take_pair(text),
            Known::Attributes => self.labels.take(text),
            Known::Valence => self.valences.take(text),
            Known::Fixed => self.fixed.take(text),
            Known::Contacts => self.take_contact(text),
            Known::Acceptance => self.take_threshold(text),
            _ => Err(LineFault::Refused(Cause::BadLine)),
        }
    }

    /// The world that the header begins: its box, its set of bond vectors, its table of contacts and
    /// its bonds, with no monomer placed. The header is judged as a whole. The set and the table are
    /// taken out of it.
    pub fn begin(&mut self, alloc: Global) -> Result<WorldBuilder, LineFault>
        ensures begun { IfOk result (λ builder. (begin_fault self.old ≡ None) × (builder ≡ begun_draft self.old)) }
        ensures some { IfOk result (λ builder. 1 ≤ builder.count) }
        ensures refused { IfErr result (λ fault. IsFault fault (begin_fault self.old)) }
    {
        if self.settings.is_box_too_large() {
            return Err(LineFault::Refused(Cause::OutOfLimit));
        }
        let set = mem::replace(&mut self.set, BondSet::new(alloc));
        if set.finish().is_err() {
            return Err(LineFault::Refused(Cause::NotSymmetric));
        }
        if self.settings.some_missing() {
            return Err(LineFault::Refused(Cause::Missing));
        }
        let count = self.settings.count();
        if self.some_beyond(count) {
            return Err(LineFault::Refused(Cause::BadMonomer));
        }
        let shape = self.settings.shape();
        let table = mem::replace(&mut self.table, Table::new());
        let mut builder = WorldBuilder::new(alloc, shape, set, table, count)?;
        join_all(&mut builder, self.pairs.list())?;
        self.mark_all(alloc, &mut builder)?;
        Ok(builder)
    }

    /// Whether an entry names a monomer that is not among so many.
    fn some_beyond(&self, count: u32) -> bool
        ensures { result ≡ names_beyond_in count self.now }
    {
        self.pairs.some_beyond(count)
            || self.labels.some_beyond(count)
            || self.valences.some_beyond(count)
            || self.fixed.some_beyond(count)
    }

    /// Gives each monomer its label and its valence, and fixes those that are to be fixed.
    fn mark_all(&self, alloc: Global, builder: &mut WorldBuilder) -> Result<(), AllocError>
        requires present { names_beyond_in builder.old.count self.now ≡ false }
        requires none { builder.old.world.fixed ≡ replicate builder.old.count false }
        ensures { OnOk result (builder.new ≡ with_marks builder.old
            (said_of_each self.now.labels builder.old.count) (said_of_each self.now.valences builder.old.count)
            (fixed_of_each self.now.fixed builder.old.count)) }
    {
        label_all(builder, &self.labels.of_each(alloc, builder.count())?);
        value_all(builder, &self.valences.of_each(alloc, builder.count())?);
        self.fixed.fix_all(alloc, builder)?;
        Ok(())
    }
}

/// Gives each monomer its label.
fn label_all(builder: &mut WorldBuilder, labels: &[u32])
    requires each { length labels.now ≡ builder.old.count }
    requires sound { IsSound builder.old.count builder.old.world }
    requires limit { All (λ label. label ≤ GREATEST_LABEL) labels.now }
    ensures { builder.new ≡ with_labels builder.old labels.now }
{
    for (i, label) in labels.iter().enumerate() {
        builder.label(i as u32, *label);
    }
}

/// Gives each monomer its valence.
fn value_all(builder: &mut WorldBuilder, valences: &[u32])
    requires each { length valences.now ≡ builder.old.count }
    requires sound { IsSound builder.old.count builder.old.world }
    requires limit { All (λ valence. valence ≤ GREATEST_VALENCE) valences.now }
    ensures { builder.new ≡ with_valences builder.old valences.now }
{
    for (i, valence) in valences.iter().enumerate() {
        builder.valence(i as u32, *valence as u8);
    }
}

/// Joins pairs of monomers, none of which is placed. A pair that is bonded has no further effect.
/// It is refused with `TooManyBonds` where a monomer would have more than 8 bonds.
fn join_all(builder: &mut WorldBuilder, pairs: &[(u32, u32)]) -> Result<(), Cause>
    requires present { list_any (is_beyond builder.old.count) pairs.now ≡ false }
    requires differ { All (λ pair. pair.0 ≢ pair.1) pairs.now }
    requires unplaced { builder.old.world.positions ≡ [] }
    requires rows { length builder.old.world.bonds ≡ builder.old.count }
    requires room { is_overfull builder.old.world.bonds ≡ false }
    ensures joined { OnOk result (builder.new ≡ with_bonds builder.old (with_pairs builder.old.world.bonds pairs.now)) }
    ensures full { OnOk result (is_overfull (with_pairs builder.old.world.bonds pairs.now) ≡ false) }
    ensures cause { IfErr result (λ cause. cause ≡ TooManyBonds) }
    ensures overfull { OnErr result (is_overfull (with_pairs builder.old.world.bonds pairs.now) ≡ true) }
{
    for (i, j) in pairs {
        builder.join(*i, *j)?;
    }
    Ok(())
}
