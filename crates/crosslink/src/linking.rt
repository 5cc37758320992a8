ghost use Rattle.std.specs.Prelude.{◌≡◌, ◌<◌, length, IfSome};
ghost use Rattle.crosslink.specs.Linking.{in_order, is_open, new_link, link_vector, with_link};
ghost use Rattle.crosslink.specs.Log.{Log, IsLogOf, TakesPair};

use bfm_base::{Dir, P3};
use bfm_geom::shifted;
use bfm_world::{Engine, World};

/// Tries to link a monomer, counted from 0, with the one that stands two lattice units from it along
/// a direction. They are linked exactly where that vector is in the set, each has fewer bonds than
/// its valence, and they are not bonded. Answers the pair that was linked, the lesser number first.
pub fn link<E: Engine>(engine: &mut E, i: u32, dir: Dir) -> Option<(u32, u32)>
    requires monomer { i < length (E.configuration engine.old).positions }
    ensures pair { result ≡ new_link (E.configuration engine.old) i dir }
    ensures world { E.configuration engine.new ≡ with_link (E.configuration engine.old) result }

    // A log of the world has room for the pair, and with it is a log of the world after.
    ensures logged { IfSome result (λ pair. (log : Log) → IsLogOf (E.configuration engine.old) log → TakesPair (E.configuration engine.new) log pair) }
{
    let world = engine.world();
    prove!(i < world.len());
    let vector = link_vector(dir);
    if !is_open(world, i) || world.set().id_of(vector).is_none() {
        return None;
    }
    let Some(j) = engine.at(shifted(world.position(i), vector)) else {
        return None;
    };
    if !is_open(world, j) || world.bonded(i, j) {
        return None;
    }
    let pair = in_order(i, j);
    engine.bond(pair.0, pair.1);
    Some(pair)
}

/// A pair, the lesser number first.
fn in_order(i: u32, j: u32) -> (u32, u32)
    ensures { result ≡ in_order i j }
{
    if i < j { (i, j) } else { (j, i) }
}

/// The vector of the bond by which a link along a direction joins two monomers.
fn link_vector(dir: Dir) -> P3
    ensures { result ≡ link_vector dir }
{
    shifted(dir.step(), dir.step())
}

/// Whether a monomer may have a further bond by linking: it has fewer bonds than its valence.
fn is_open(world: &World, i: u32) -> bool
    requires { i < length world.now.positions }
    ensures { result ≡ is_open world.now i }
{
    world.neighbours(i).len() < usize::from(world.valence(i))
}
