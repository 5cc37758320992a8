ghost use Rattle.std.specs.Prelude.{◌≡◌, map, string_bytes, IfSome};
ghost use Rattle.bfm_cli.specs.Start.{box_in, brush_in, is_one, melt_in, network_in, IsStart};
ghost use Rattle.bfm_cli.specs.Keys.{key_of};
ghost use Rattle.bfm_cli.specs.Words.{number_for};
ghost use Rattle.bfm_geom.specs.Difference.{IsBox};

use crate::words::{Key, number_for};
use bfm_base::Shape;
use bfm_base::limits::{GREATEST_SIDE, LEAST_SIDE, MOST_MONOMERS, MOST_SITES};
use brush_builder::feet_in;

/// A start that is built.
#[derive(Clone, Copy, Debug, PartialEq, Eq)]
pub enum Start {
    /// So many chains of so many monomers each, at most 2^18 monomers in all, along one way through
    /// the box.
    Melt {
        shape: Shape,
        chains: u32,
        length: u32,
    },
    /// An upright chain of so many monomers on each foot, at most 2^18 monomers in all. The feet
    /// stand so far apart, in lattice units, on the lower wall of the z axis.
    Brush {
        shape: Shape,
        spacing: u32,
        length: u32,
    },
    /// So many nodes along each axis, each joined to the next ones by strands of so many monomers,
    /// at most 2^18 monomers in all, in a periodic box that is as large as this needs.
    Network {
        nodes: u32,
        strand: u32,
    },
}

const X: Key = Key {
    name: "x",
    least: LEAST_SIDE as u64,
    greatest: GREATEST_SIDE as u64,
    usual: None,
};

const Y: Key = Key { name: "y", ..X };

const Z: Key = Key { name: "z", ..X };

const PERIODIC_X: Key = Key {
    name: "px",
    least: 0,
    greatest: 1,
    usual: Some(1),
};

const PERIODIC_Y: Key = Key {
    name: "py",
    ..PERIODIC_X
};

const PERIODIC_Z: Key = Key {
    name: "pz",
    ..PERIODIC_X
};

const CHAINS: Key = Key {
    name: "chains",
    least: 1,
    greatest: MOST_MONOMERS as u64,
    usual: None,
};

const LENGTH: Key = Key {
    name: "length",
    ..CHAINS
};

const SPACING: Key = Key {
    name: "spacing",
    least: 2,
    greatest: GREATEST_SIDE as u64,
    usual: None,
};

const NODES: Key = Key {
    name: "nodes",
    least: 1,
    greatest: 128,
    usual: None,
};

const STRAND: Key = Key {
    name: "strand",
    least: 0,
    greatest: 255,
    usual: None,
};

/// The greatest side of the box of a network, in lattice units.
const GREATEST_NETWORK_SIDE: u64 = 256;

/// The keys of a melt.
pub const MELT_KEYS: [Key; 8] = [X, Y, Z, CHAINS, LENGTH, PERIODIC_X, PERIODIC_Y, PERIODIC_Z];

/// The keys of a brush, whose z axis is walled.
pub const BRUSH_KEYS: [Key; 7] = [X, Y, Z, SPACING, LENGTH, PERIODIC_X, PERIODIC_Y];

/// The keys of a network.
pub const NETWORK_KEYS: [Key; 2] = [NODES, STRAND];

/// The melt that words ask for, which are right for its keys. There is none where a number is
/// missing or they ask for too many sites or monomers.
pub fn melt_in(words: &[String]) -> Option<Start>
    ensures value { result ≡ melt_in (map string_bytes words.now) }
    ensures range { IfSome result IsStart }
{
    let periodic = [
        is_one(&PERIODIC_X, words),
        is_one(&PERIODIC_Y, words),
        is_one(&PERIODIC_Z, words),
    ];
    let shape = box_in(words, periodic)?;
    let chains = number_for(&CHAINS, words)?;
    let length = number_for(&LENGTH, words)?;
    if chains * length > u64::from(MOST_MONOMERS) {
        return None;
    }
    Some(Start::Melt {
        shape,
        chains: chains as u32,
        length: length as u32,
    })
}

/// The brush that words ask for, which are right for its keys. There is none where a number is
/// missing, a foot does not fit or they ask for too many sites or monomers.
pub fn brush_in(words: &[String]) -> Option<Start>
    ensures value { result ≡ brush_in (map string_bytes words.now) }
    ensures range { IfSome result IsStart }
{
    let periodic = [
        is_one(&PERIODIC_X, words),
        is_one(&PERIODIC_Y, words),
        false,
    ];
    let shape = box_in(words, periodic)?;
    let spacing = number_for(&SPACING, words)? as u32;
    let length = number_for(&LENGTH, words)? as u32;
    let [x, y, _] = shape.sides;
    if spacing > u32::from(x) || spacing > u32::from(y) {
        return None;
    }
    if u64::from(feet_in(&shape, spacing)) * u64::from(length) > u64::from(MOST_MONOMERS) {
        return None;
    }
    Some(Start::Brush {
        shape,
        spacing,
        length,
    })
}

/// The network that words ask for, which are right for its keys. There is none where a number is
/// missing, its box would be too small or too large, or it would have too many monomers.
pub fn network_in(words: &[String]) -> Option<Start>
    ensures value { result ≡ network_in (map string_bytes words.now) }
    ensures range { IfSome result IsStart }
{
    let nodes = number_for(&NODES, words)?;
    let strand = number_for(&STRAND, words)?;
    let side = 2 * nodes * (strand + 1);
    if side < u64::from(LEAST_SIDE) || side > GREATEST_NETWORK_SIDE {
        return None;
    }
    if nodes * nodes * nodes * (1 + 3 * strand) > u64::from(MOST_MONOMERS) {
        return None;
    }
    Some(Start::Network {
        nodes: nodes as u32,
        strand: strand as u32,
    })
}

/// The box whose sides the words give. There is none where a side is missing or it has too many
/// sites.
fn box_in(words: &[String], periodic: [bool; 3]) -> Option<Shape>
    ensures value { result ≡ box_in (map string_bytes words.now) periodic }
    ensures range { IfSome result IsBox }
{
    let x = number_for(&X, words)?;
    let y = number_for(&Y, words)?;
    let z = number_for(&Z, words)?;
    if x * y * z > u64::from(MOST_SITES) {
        return None;
    }
    Some(Shape {
        sides: [x as u16, y as u16, z as u16],
        periodic,
    })
}

/// Whether the number of a key is 1.
fn is_one(key: &Key, words: &[String]) -> bool
    ensures { result ≡ is_one (number_for (key_of key.now) (map string_bytes words.now)) }
{
    number_for(key, words) == Some(1)
}
