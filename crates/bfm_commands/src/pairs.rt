ghost use Rattle.std.specs.Prelude.{◌≡◌, ◌≢◌, [], ◌∷◌, ◌++◌, All, OnOk};
ghost use Rattle.std.specs.List.{list_any};
ghost use Rattle.bfm_commands.specs.Causes.{is_beyond};

use std::alloc::{AllocError, Global};
use std::marker::Model;

/// Pairs of monomers that a header lists as bonded, counted from 0. The two of a pair differ.
#[derive(Drop)]
pub(crate) struct Pairs {
    list: Vec<(u32, u32)>,
}

impl Model for Pairs {
    ghost use Rattle.std.specs.Prelude.{ℕ, ◌≢◌, List, All};

    ghost Value = { List (ℕ × ℕ) };

    ghost view = { λ pairs. pairs.list.items };

    ghost invariant = { λ pairs. All (λ pair. pair.0 ≢ pair.1) pairs.list.items };
}

impl Pairs {
    /// No pair.
    pub fn new(alloc: Global) -> Pairs
        ensures { result ≡ [] }
    {
        Pairs {
            list: Vec::new(alloc),
        }
    }

    /// One pair more.
    pub fn add(&mut self, pair: (u32, u32)) -> Result<(), AllocError>
        requires { pair.0 ≢ pair.1 }
        ensures { OnOk result (self.new ≡ self.old ++ pair ∷ []) }
    {
        self.list.push(pair)?;
        Ok(())
    }

    /// Whether a pair names a monomer that is not among so many.
    pub fn some_beyond(&self, count: u32) -> bool
        ensures { result ≡ list_any (is_beyond count) self.now }
    {
        self.list.iter().any(|(i, j)| *i >= count || *j >= count)
    }

    pub fn list(&self) -> &[(u32, u32)]
        ensures list { result.now ≡ self.now }
        ensures differ { All (λ pair. pair.0 ≢ pair.1) result.now }
    {
        &self.list
    }
}
