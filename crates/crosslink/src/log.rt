ghost use Rattle.std.specs.Prelude.{◌≡◌, ◌*◌, ◌<◌, ◌≤◌, [], length, IfOk};
ghost use Rattle.bfm_base.specs.declared.limits.TheConstants.{MOST_MONOMERS};
ghost use Rattle.crosslink.specs.Log.{with_pair, with_pairs};

use std::alloc::{AllocError, Global};
use std::marker::Model;

/// The pairs that were linked since it was cleared, in the order of linking, the lesser number
/// first. It takes all its memory when it is made: a pair for each bond that a world may have.
#[derive(Drop)]
pub struct BondLog {
    monomers: u32,
    pairs: Vec<(u32, u32)>,
}

impl Model for BondLog {
    ghost use Rattle.std.specs.Prelude.{◌*◌, ◌≤◌, vec_capacity};
    ghost use Rattle.crosslink.specs.Log.{Log};

    ghost Value = { Log };

    ghost view = { λ log. record { monomers = log.monomers; pairs = log.pairs.items } };

    ghost invariant = { λ log. 4 * log.monomers ≤ vec_capacity log.pairs };
}

impl BondLog {
    /// A log without a pair, for a world of `n` monomers: it has room for four pairs a monomer.
    pub fn new(alloc: Global, n: u32) -> Result<BondLog, AllocError>
        requires { n ≤ MOST_MONOMERS }
        ensures { IfOk result (λ log. log ≡ record { monomers = n; pairs = [] }) }
    {
        Ok(BondLog {
            monomers: n,
            pairs: Vec::with_capacity(alloc, 4 * n as usize)?,
        })
    }

    /// Drops all pairs.
    pub fn clear(&mut self)
        ensures { self.new ≡ with_pairs self.old [] }
    {
        self.pairs.clear();
    }

    /// Puts a pair behind the others.
    pub fn push(&mut self, pair: (u32, u32))
        requires { length self.old.pairs < 4 * self.old.monomers }
        ensures { self.new ≡ with_pair self.old pair }
    {
        self.pairs.push(pair).unwrap();
    }

    /// The pairs, in order.
    pub fn pairs(&self) -> &[(u32, u32)]
        ensures { result.now ≡ self.now.pairs }
    {
        &self.pairs
    }
}
