use crate::bonds::Bonds;
use bfm_base::{P3, Shape};
use bond_set::BondSet;
use contact_table::Table;

/// What a world is made of, be it whole or still being built.
#[derive(Drop)]
pub(crate) struct Parts {
    pub shape: Shape,
    pub set: BondSet,
    pub table: Table,
    pub positions: Vec<P3>,
    pub bonds: Bonds,
    pub labels: Vec<u32>,
    /// How many bonds each monomer may have by linking, 0 for none.
    pub valences: Vec<u8>,
    /// Whether each monomer is fixed, so that it never moves.
    pub fixed: Vec<bool>,
}
