ghost use Rattle.std.specs.Prelude.{◌≡◌, ◌+◌, ◌^◌, ◌<◌, ◌≤◌, ◌↔◌, [], ◌∷◌, ◌++◌, length, unsigned_abs, IsTrue, IsSome, IfSome, IfOk, OnOk, OnErr, IsOk, IfErr, pos, slice_get};
ghost use Rattle.std.specs.List.{Contains};
ghost use Rattle.bfm_base.specs.declared.place.P3.{P3};
ghost use Rattle.bfm_base.specs.Place.{extent_of};
ghost use Rattle.bond_set.specs.BondSet.{IsBondSet, IsSymmetric, vectors_of, ids_of, negative_of, first_unpaired, refusal_of};
ghost use Rattle.bond_set.specs.BondSet as bond_set;
ghost use Rattle.bond_set.specs.Crossing.{after_step};
ghost use Rattle.bond_set.specs.FlatTables.{digit_of, key_of};
ghost use Rattle.bond_set.specs.SetFault.{refused_cause};
ghost use Rattle.bond_set.specs.UsualSet.{usual_set, IsUsual};

use crate::usual::list_usual_vectors;
use bfm_base::limits::MOST_VECTORS;
use bfm_base::{Cause, Dir, P3};
use indexmap::IndexMap;
use std::alloc::{AllocError, Global};
use std::marker::Model;

/// Why a pair of vector and identifier was not added.
#[derive(Clone, Copy, Debug, PartialEq, Eq)]
pub enum SetFault {
    /// The pair breaks a rule of the set: the least cause.
    Refused(Cause),
    /// Want of memory.
    Memory,
}

impl From<AllocError> for SetFault {
    ghost use Rattle.bond_set.specs.declared.set.SetFault.TheVariants.{Memory};

    ghost from_gives = { λ _ fault. fault ≡ Memory };

    fn from(_error: AllocError) -> SetFault {
        SetFault::Memory
    }
}

/// The vectors that a bond may have (Carmesin and Kremer 1988), in lattice units, each with its
/// identifier: the byte that stands for it in a file. They stay in the order of adding.
#[derive(Drop)]
pub struct BondSet {
    ids: IndexMap<P3, u8>,
    // Tables for look-ups that do not hash: the identifier by the vector's key, and one more than
    // the vector's place by its identifier. 0 stands for none.
    near: [u8; 512],
    places: [u8; 256],
}

impl Model for BondSet {
    ghost use Rattle.std.specs.Prelude.{◌≡◌, List, ℕ};
    ghost use Rattle.bfm_base.specs.declared.place.P3.{P3};
    ghost use Rattle.bfm_base.specs.Place.{extent_of};
    ghost use Rattle.bond_set.specs.BondSet.{IsBondSet};
    ghost use Rattle.bond_set.specs.FlatTables.{AreTables};

    ghost Value = { List (P3 × ℕ) };

    ghost view = { λ s. s.ids.entries };

    ghost invariant = { λ s. IsBondSet s.ids.entries × AreTables s.ids.entries s.near s.places };
}

impl BondSet {
    /// The empty set.
    pub fn new(alloc: Global) -> BondSet
        ensures { result ≡ [] }
    {
        let near = [0; 512];
        let places = [0; 256];
        BondSet {
            ids: IndexMap::new(alloc),
            near,
            places,
        }
    }

    /// The usual 108 vectors (Deutsch and Binder 1991) with the identifiers 17 to 124: each order
    /// and each choice of signs of the kinds (2,0,0), (2,1,0), (2,1,1), (2,2,1), (3,0,0) and
    /// (3,1,0). They come kind by kind, and within a kind the greater x first, then the greater y,
    /// then the greater z.
    pub fn usual(alloc: Global) -> Result<BondSet, AllocError>
        ensures order { IfOk result (λ set. set ≡ usual_set) }
        ensures every_order_and_sign { IfOk result (λ set.
            (v : P3) → Contains (vectors_of set) v ↔ IsUsual v) }
        ensures each_once { IfOk result IsBondSet }
        ensures finished { IfOk result IsSymmetric }
    {
        let vectors = list_usual_vectors(alloc)?;
        let mut set = BondSet::new(alloc);
        for v in &vectors {
            let id = FIRST_USUAL_ID + set.len() as u8;
            set.push(*v, id)?;
        }
        Ok(set)
    }

    /// How many vectors there are, at most 200.
    pub fn len(&self) -> usize
        ensures count { result ≡ length self.now }
        ensures set { IsBondSet self.now }
    {
        self.ids.len()
    }

    /// Whether there are none.
    pub fn is_empty(&self) -> bool
        ensures { IsTrue result ↔ (self.now ≡ []) }
    {
        self.ids.is_empty()
    }

    /// The vector that was added after `k` others.
    pub fn vector(&self, k: usize) -> P3
        requires { k < length self.now }
        ensures value { slice_get (vectors_of self.now) k ≡ Some result }
        ensures reach { extent_of result ≤ 3 }
    {
        let (v, _) = self.ids.get_index(k).unwrap();
        *v
    }

    /// The identifier that was added after `k` others.
    pub fn id(&self, k: usize) -> u8
        requires { k < length self.now }
        ensures { slice_get (ids_of self.now) k ≡ Some result }
    {
        self.ids[k]
    }

    /// The identifier of a vector, where it is in the set.
    pub fn id_of(&self, v: P3) -> Option<u8>
        ensures value { result ≡ bond_set.id_of self.now v }
        ensures present { IsSome result ↔ Contains (vectors_of self.now) v }
        ensures pair { IfSome result (λ id. Contains self.now (v, id)) }
    {
        let id = self.near[key(v)];
        if id == 0 {
            return None;
        }
        Some(id)
    }

    /// The vector of an identifier, where it is in the set.
    pub fn vector_of(&self, id: u8) -> Option<P3>
        ensures value { result ≡ bond_set.vector_of self.now id }
        ensures present { IsSome result ↔ Contains (ids_of self.now) id }
        ensures pair { IfSome result (λ v. Contains self.now (v, id)) }
        ensures reach { IfSome result (λ v. extent_of v ≤ 3) }
    {
        let count = self.places[id as usize];
        if count == 0 {
            return None;
        }
        Some(self.vector(count as usize - 1))
    }

    /// Whether the end of a bond `v` may step: the set holds the vector after the step. Components
    /// of `v` are at most 2^62 in absolute value.
    pub fn may_step(&self, v: P3, dir: Dir) -> bool
        requires { extent_of v ≤ 2 ^ 62 }
        ensures { IsTrue result ↔ Contains (vectors_of self.now) (after_step v dir) }
    {
        self.id_of(stepped(v, dir)).is_some()
    }

    /// Adds a vector and its identifier. It refuses an identifier that is not 1 to 255 or is 9, 10
    /// or 13, and a pair where 200 are there (`OutOfLimit`); then a vector whose greatest absolute
    /// component is not 2 or 3 (`BadVector`); then a vector or an identifier that is there
    /// (`Repeated`). A set that did not take the pair is as it was.
    #[tactic(auto, unfolding(crate::specs::BondSet::refusal_of))]
    pub fn add(&mut self, v: P3, id: i64) -> Result<(), SetFault>
        // Want of memory names no cause, so a pair is refused exactly where one holds.
        ensures refused { IfErr result (λ fault. refusal_of self.old v id ≡ refused_cause fault) }
        ensures accepted { OnOk result (refusal_of self.old v id ≡ None) }
        ensures ok { OnOk result (self.new ≡ self.old ++ (v, unsigned_abs id) ∷ []) }
        ensures err { OnErr result (self.new ≡ self.old) }
    {
        if let Some(cause) = self.refusal(v, id) {
            return Err(SetFault::Refused(cause));
        }
        self.push(v, id as u8)?;
        Ok(())
    }

    /// Whether the set holds the negative of each of its vectors, and else the first vector, in
    /// order, whose negative is missing.
    pub fn finish(&self) -> Result<(), P3>
        ensures symmetric { IsOk result ↔ IsSymmetric self.now }
        ensures none { OnOk result (first_unpaired self.now ≡ None) }
        ensures first { IfErr result (λ v. first_unpaired self.now ≡ Some v) }
        ensures set { IsBondSet self.now }
    {
        for k in 0..self.len() {
            let v = self.vector(k);
            if self.id_of(negative(v)).is_none() {
                return Err(v);
            }
        }
        Ok(())
    }

    // The least cause for which the pair may not be added.
    #[tactic(auto, unfolding(crate::specs::BondSet::refusal_of))]
    fn refusal(&self, v: P3, id: i64) -> Option<Cause>
        ensures { result ≡ refusal_of self.now v id }
    {
        if !is_identifier(id) || self.len() >= MOST_VECTORS {
            return Some(Cause::OutOfLimit);
        }
        if !is_bond_vector(v) {
            return Some(Cause::BadVector);
        }
        if self.id_of(v).is_some() || self.vector_of(id as u8).is_some() {
            return Some(Cause::Repeated);
        }
        None
    }

    // Puts a pair that may be added at the end.
    fn push(&mut self, v: P3, id: u8) -> Result<(), AllocError>
        requires { refusal_of self.old v (pos id) ≡ None }
        ensures ok { OnOk result (self.new ≡ self.old ++ (v, id) ∷ []) }
        ensures err { OnErr result (self.new ≡ self.old) }
    {
        self.ids.insert(v, id)?;
        self.near[key(v)] = id;
        self.places[id as usize] = self.ids.len() as u8;
        Ok(())
    }
}

const FIRST_USUAL_ID: u8 = 17;

fn is_identifier(id: i64) -> bool
    ensures { result ≡ bond_set.is_identifier id }
{
    matches!(id, 1..=255) && !matches!(id, 9 | 10 | 13)
}

fn is_bond_vector(v: P3) -> bool
    ensures { result ≡ bond_set.is_bond_vector v }
{
    matches!(v.extent(), 2 | 3)
}

fn negative(v: P3) -> P3
    requires { extent_of v ≤ 3 }
    ensures { result ≡ negative_of v }
{
    P3 {
        x: -v.x,
        y: -v.y,
        z: -v.z,
    }
}

// The vector after a step of its end.
fn stepped(v: P3, dir: Dir) -> P3
    requires { extent_of v ≤ 2 ^ 62 }
    ensures { result ≡ after_step v dir }
{
    let step = dir.step();
    P3 {
        x: v.x + step.x,
        y: v.y + step.y,
        z: v.z + step.z,
    }
}

// Where the identifier of a vector stands in the table.
fn key(v: P3) -> usize
    ensures value { result ≡ key_of v }
    ensures within { result < 512 }
{
    64 * digit(v.x) + 8 * digit(v.y) + digit(v.z)
}

// One digit for each component that a bond vector may have, and one for all others.
fn digit(component: i64) -> usize
    ensures value { result ≡ digit_of component }
    ensures within { result < 8 }
{
    match component {
        -3 => 0,
        -2 => 1,
        -1 => 2,
        0 => 3,
        1 => 4,
        2 => 5,
        3 => 6,
        _ => 7,
    }
}
