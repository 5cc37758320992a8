//! Links. By the first six words of seed 42, a world of two monomers tries a step of its second monomer
//! along +y and then one along +z in sweep 0; so does a world of three, whose third attempt takes words
//! that are not used here: in the files below nothing may come of it, whatever they are.

use crate::reading_tests::answers;
use crate::status::Status;
use crate::tests::{ONE, file_with};
use std::alloc::{AllocError, Global};
use std::test::Fail;

/// The set of two units along y. Identifier 65 is the letter A, and 66 is B.
const ALONG_Y: &str = "!set_of_bondvectors\n0 2 0:65\n0 -2 0:66\n";

/// The words of a run of one sweep that links.
const WORDS: &str = "run seed=42 frames=1 every=1 link=on";

/// The second of two monomers comes to two units below the first, and no further.
const APART: &str = "0 3 0\n0 0 0\n";

/// What is written behind them where they are linked on the way: the bond forbids the second step.
pub(crate) const LINKED: &str = "\n!add_bonds\n1 2\n!mcs=1\n0 3 0 B\n";

/// And where they are not: both steps are made.
const BOTH: &str = "\n!mcs=1\n0 3 0\n0 1 1\n";

/// A file of two monomers, each of which may be linked once.
pub(crate) fn two_open(alloc: Global) -> Result<String, AllocError> {
    let lines = format!(in alloc; "{ALONG_Y}!bfm_valence\n1-2:1\n")?;
    file_with(alloc, "2", "8", lines.as_str(), APART)
}

// The frames behind the first one of a run that has linked its only pair: neither monomer has a step.
const LATER: &str = "\n!mcs=2\n0 3 0 B\n\n!mcs=3\n0 3 0 B\n";

const LAST: &str = "\n!mcs=4\n0 3 0 B\n\n!mcs=5\n0 3 0 B\n";

/// Runs a job, and answers whether it writes and reports this.
fn runs(
    alloc: Global,
    words: &str,
    file: &str,
    added: &str,
    counts: &str,
) -> Result<bool, AllocError> {
    let kept = file.len();
    let output = format!(in alloc; "{file}{added}")?;
    let report = format!(in alloc; "kept {kept}\n{counts}crossing free\n")?;
    let wanted = (Status::Done, output.as_bytes(), report.as_str());
    answers(alloc, words, file.as_bytes(), (50, 0), wanted)
}

#[test]
fn a_link_is_written_once_and_holds_the_pair(rt: HostRuntime) -> Result<(), Fail> {
    let file = two_open(rt.alloc())?;
    let three = format!(in rt.alloc(); "{file}{LINKED}{LATER}")?;
    let five = format!(in rt.alloc(); "{LINKED}{LATER}{LAST}")?;
    // (words, input, what is written behind it, counts of the report)
    let table = [
        (
            "run seed=42 frames=5 every=1 link=on",
            file.as_str(),
            five.as_str(),
            "frames 5\nmcs 5\nskipped 0\naccepted 1\nlinks 1\n",
        ),
        (
            "run seed=42 frames=2 every=1 link=on",
            three.as_str(),
            LAST,
            "frames 2\nmcs 5\nskipped 0\naccepted 0\nlinks 0\n",
        ),
        (
            "run link=on seed=42 frames=1 every=5",
            file.as_str(),
            "\n!add_bonds\n1 2\n!mcs=5\n0 3 0 B\n",
            "frames 1\nmcs 5\nskipped 0\naccepted 1\nlinks 1\n",
        ),
        (
            "run seed=42 frames=1 every=1 link=off",
            file.as_str(),
            BOTH,
            "frames 1\nmcs 1\nskipped 0\naccepted 2\nlinks 0\n",
        ),
        (
            "run seed=42 frames=1 every=1",
            file.as_str(),
            BOTH,
            "frames 1\nmcs 1\nskipped 0\naccepted 2\nlinks 0\n",
        ),
    ];
    for (words, input, added, counts) in table {
        assert!(rt; runs(rt.alloc(), words, input, added, counts)?, "{words}");
    }
    let first = "run seed=42 frames=3 every=1 link=on";
    let added = format!(in rt.alloc(); "{LINKED}{LATER}")?;
    let counts = "frames 3\nmcs 3\nskipped 0\naccepted 1\nlinks 1\n";
    assert!(rt; runs(rt.alloc(), first, file.as_str(), added.as_str(), counts)?);
    Ok(())
}

const STEP: &str = "frames 1\nmcs 1\nskipped 0\naccepted 1\nlinks 1\n";

const STEPS: &str = "frames 1\nmcs 1\nskipped 0\naccepted 2\nlinks 0\n";

const LINK: &str = "frames 1\nmcs 1\nskipped 0\naccepted 0\nlinks 1\n";

const NOTHING: &str = "frames 1\nmcs 1\nskipped 0\naccepted 0\nlinks 0\n";

/// The set of two units along x, where a step along y or z would leave it.
const ALONG_X: &str = "!set_of_bondvectors\n2 0 0:65\n-2 0 0:66\n";

// Two monomers: (vectors, valences, frame, what is written behind the file, counts). In the last rows they begin two units
// apart, so the step along +y would overlap, and the link is tried all the same; a monomer at (0, 6, 0) has the one at
// (0, 0, 0) two units along +y of it, through the boundary, but the plain difference of the two is not in the set.
#[rattlefmt::skip]
const PAIRS: [(&str, &str, &str, &str, &str); 10] = [
    (ALONG_Y, "1-2:8", APART, LINKED, STEP),
    (ALONG_Y, "1:1", APART, BOTH, STEPS),
    (ALONG_Y, "2:1", APART, BOTH, STEPS),
    (ALONG_Y, "1-2:1\n1:0", APART, BOTH, STEPS),
    ("", "1-2:1", APART, BOTH, STEPS),
    (ALONG_X, "1-2:1", APART, BOTH, STEPS),
    (ALONG_Y, "1-2:1", "0 3 0\n0 1 0\n", LINKED, LINK),
    (ALONG_Y, "1-2:1", "0 3 0 B\n", "\n!mcs=1\n0 3 0 B\n", NOTHING),
    (ALONG_Y, "1-2:2", "0 3 0 B\n", "\n!mcs=1\n0 3 0 B\n", NOTHING),
    (ALONG_Y, "1-2:1", "0 0 0\n0 5 0\n", "\n!add_bonds\n1 2\n!mcs=1\n0 0 0\n0 6 0\n", STEP),
];

#[test]
fn a_pair_is_linked_where_both_are_open_and_the_vector_is_in_the_set(
    rt: HostRuntime,
) -> Result<(), Fail> {
    for (vectors, valences, frame, added, counts) in PAIRS {
        let lines = format!(in rt.alloc(); "{vectors}!bfm_valence\n{valences}\n")?;
        let file = file_with(rt.alloc(), "2", "8", lines.as_str(), frame)?;
        assert!(rt;
            runs(rt.alloc(), WORDS, file.as_str(), added, counts)?,
            "{vectors}{valences} {frame}"
        );
    }
    Ok(())
}

// Three monomers that are all fixed, the second one two units below the first: (valences, frame, bond, what is written behind
// the file, counts). The third is bonded to the first or to the second, and no two others are ever two units apart.
#[rattlefmt::skip]
const REACHED: [(&str, &str, &str, &str, &str); 6] = [
    ("1-3:1", "0 3 0\n0 1 0\n0 5 0\n", "!bonds\n1 3\n", "\n!mcs=1\n0 3 0\n0 1 0\n0 5 0\n", NOTHING),
    ("1-3:2", "0 3 0\n0 1 0\n0 5 0\n", "!bonds\n1 3\n", "\n!add_bonds\n1 2\n!mcs=1\n0 3 0 B\n0 5 0\n", LINK),
    ("1:2\n2:1", "0 3 0\n0 1 0\n0 5 0\n", "!bonds\n1 3\n", "\n!add_bonds\n1 2\n!mcs=1\n0 3 0 B\n0 5 0\n", LINK),
    ("1-3:1", "0 3 0\n0 1 0 B\n", "", "\n!mcs=1\n0 3 0\n0 1 0 B\n", NOTHING),
    ("1-3:2", "0 3 0\n0 1 0 B\n", "", "\n!add_bonds\n1 2\n!mcs=1\n0 3 0 BB\n", LINK),
    ("1:1\n2:2", "0 3 0\n0 1 0 B\n", "", "\n!add_bonds\n1 2\n!mcs=1\n0 3 0 BB\n", LINK),
];

#[test]
fn a_monomer_with_as_many_bonds_as_its_valence_is_not_linked(rt: HostRuntime) -> Result<(), Fail> {
    for (valences, frame, bond, added, counts) in REACHED {
        let lines = format!(in rt.alloc();
            "{ALONG_Y}{bond}!bfm_valence\n{valences}\n!bfm_fixed\n1-3\n"
        )?;
        let file = file_with(rt.alloc(), "3", "8", lines.as_str(), frame)?;
        assert!(rt;
            runs(rt.alloc(), WORDS, file.as_str(), added, counts)?,
            "{valences} {frame}"
        );
    }
    Ok(())
}

#[test]
fn a_switch_takes_its_two_words_alone_and_once(rt: HostRuntime) -> Result<(), Fail> {
    // (words, the number of the first wrong one)
    let table = [
        ("run seed=42 frames=1 every=1 link=yes", 5),
        ("run seed=42 frames=1 every=1 link=", 5),
        ("run seed=42 frames=1 every=1 link", 5),
        ("run seed=42 frames=1 link=ON every=1", 4),
        ("run seed=42 frames=1 link=on=on every=1", 4),
        ("run seed=42 frames=1 every=1 link=1", 5),
        ("run seed=42 link=on link=off frames=1 every=1", 4),
        ("run link=off seed=42 frames=1 every=1 link=off", 6),
        ("run link=on seed=on frames=1 every=1", 3),
        ("run link=on seed=42 frames=1", 5),
        ("run links=on seed=42 frames=1 every=1", 2),
        ("check link=on", 2),
        ("info link=off", 2),
        ("build network nodes=1 strand=3 link=on", 5),
    ];
    for (words, place) in table {
        let report = format!(in rt.alloc(); "words {place}\n")?;
        let wanted = (Status::BadWords, b"".as_slice(), report.as_str());
        assert!(rt;
            answers(rt.alloc(), words, ONE.as_bytes(), (50, 0), wanted)?,
            "{words}"
        );
    }
    Ok(())
}
