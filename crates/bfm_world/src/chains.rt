ghost use Rattle.std.specs.Prelude.{◌≡◌, ℕ, ◌+◌, ◌<◌, length, replicate, [], true, false};
ghost use Rattle.bfm_world.specs.Configuration.{may_bond, position_of};
ghost use Rattle.bfm_world.specs.Draft.{with_bonds};
ghost use Rattle.bfm_world.specs.Chains.{chain_bonds, goes_on};

use crate::builder::WorldBuilder;

/// Joins successive monomers of chains of one length, which follow each other. All monomers are
/// placed, and successive ones of a chain are a vector of the set apart.
pub fn join_chains(builder: &mut WorldBuilder, chain_length: u32)
    requires some { 0 < chain_length }
    requires placed { length builder.old.world.positions ≡ builder.old.count }
    requires none { builder.old.world.bonds ≡ replicate builder.old.count [] }
    requires whole { (k : ℕ) → k + 1 ≡ builder.old.count → goes_on chain_length k ≡ false }
    requires steps { (k : ℕ) → k + 1 < builder.old.count → goes_on chain_length k ≡ true
        → may_bond builder.old.world.shape builder.old.world.set (position_of builder.old.world k) (position_of builder.old.world (k + 1)) ≡ true }
    ensures { builder.new ≡ with_bonds builder.old (chain_bonds chain_length builder.old.count) }
{
    for next in 1..builder.count() {
        if (next - 1) / chain_length == next / chain_length {
            builder.join(next - 1, next).unwrap();
        }
    }
}
