//! Tables of molecules, moves, contacts and clusters. All numbers were worked out by hand, and by the program of another
//! hand in examples/tables.

use crate::reading_tests::answers;
use crate::status::Status;
use crate::tests::file_with;
use std::alloc::{AllocError, Global};
use std::test::Fail;

/// Vectors of two units along x and y, and of three along x. Identifier 65 is the letter A, and so on to F.
const VECTORS: &str =
    "!set_of_bondvectors\n2 0 0:65\n-2 0 0:66\n0 2 0:67\n0 -2 0:68\n3 0 0:69\n-3 0 0:70\n";

// A star of four arms of two monomers, and the bonds that its lines do not show.
const STAR: &str = "8 8 8 AA\n6 8 8 B\n8 10 8 C\n8 6 8 D\n";

const ARMS: &str = "!attributes\n1:3\n!bonds\n1 4\n1 6\n1 8\n";

// (words, monomers, side, lines of the header, frames, output)
#[rattlefmt::skip]
const MOLECULES: [(&str, &str, &str, &str, &str, &str); 13] = [
    // Two monomers at a distance d: 2 d^2 - d^2 over 4. The plain distance of the second pair is 6, and wrapped it is 2.
    ("radii", "2", "8", "", "0 0 0 A\n", "molecule 1 2 4/4 4\n"),
    ("radii", "2", "8", "!bonds\n1 2\n", "0 0 0\n-6 0 0\n", "molecule 1 2 36/4 36\n"),
    ("radii", "2", "8", "", "0 0 0 A\n!mcs=1\n0 0 0\n-6 0 0\n", "molecule 1 2 36/4 36\n"),
    ("radii", "1", "8", "", "-5 3 9\n", "molecule 1 1 0/1 0\n"),
    // Two pairs whose monomers take turns.
    ("radii", "4", "16", "!bonds\n1 3\n2 4\n", "0 0 0\n0 8 0\n2 0 0\n0 10 16\n", "molecule 1 2 4/4 4\nmolecule 2 2 260/4 260\n"),
    // Rings: 4 * 16 - 32, 6 * 52 - 180 and 8 * 112 - 512, and a monomer alone.
    ("radii", "10", "16", "!bonds\n1 4\n5 10\n", "0 0 0 ACB\n0 0 8 AACBB\n", "molecule 1 4 32/16 4\nmolecule 5 6 132/36 4\n"),
    ("radii", "9", "16", "!bonds\n1 8\n", "0 0 0 AACCBBD\n8 8 8\n", "molecule 1 8 384/64 4\nmolecule 9 1 0/1 0\n"),
    // From the middle of the star: 9 * (4 * 4 + 4 * 16) - 0. The last monomer is the end of an arm.
    ("radii", "9", "16", ARMS, STAR, "molecule 1 9 720/81 16\n"),
    ("moves", "2", "8", "", "0 0 0 A\n", "monomers 0/2\nmolecule 1 2 0/4\n"),
    ("moves", "1", "8", "", "3 3 3\n!mcs=9\n3 -5 20\n", "monomers 353/1\nmolecule 1 1 353/1\n"),
    // The second monomer goes by (-2, 2, 0) alone; both by (3, 0, -4), and a third by (1, 2, 2).
    ("moves", "2", "16", "", "0 0 0 A\n!mcs=1\n0 0 0 C\n", "monomers 8/2\nmolecule 1 2 8/4\n"),
    ("moves", "3", "16", "", "0 0 0 A\n8 8 8\n!mcs=1\n0 5 0 A\n8 8 8\n!mcs=2\n3 0 -4 A\n9 10 10\n", "monomers 59/3\nmolecule 1 2 100/4\nmolecule 3 1 9/1\n"),
    ("moves", "2", "16", "", "0 0 0 A\n!remove_bonds\n1 2\n!mcs=1\n0 0 0\n4 0 1\n", "monomers 5/2\nmolecule 1 1 0/1\nmolecule 2 1 5/1\n"),
];

#[rattlefmt::skip]
const CONTACTS: [(&str, &str, &str, &str, &str, &str); 13] = [
    ("contacts", "2", "8", "!attributes\n1-2:1\n", "0 3 0\n0 1 0\n", "1 1 1\ntotal 1\n"),
    ("contacts", "2", "8", "!attributes\n1-2:1\n", "0 3 0\n0 0 0\n", "total 0\n"),
    ("contacts", "2", "8", "", "0 0 0\n2 2 0\n", "total 0\n"),
    ("contacts", "2", "16", "", "0 0 0 E\n", "total 0\n"),
    // The wrapped difference is (-2, -1, 1).
    ("contacts", "2", "8", "!attributes\n1:15\n2:2\n", "0 0 0\n-2 15 -7\n", "2 15 1\ntotal 1\n"),
    // Around a box of side 12: classes 1, 2, 2, 1, 0 and, by the label 16, 0.
    ("contacts", "6", "12", "!attributes\n1:1\n2-3:2\n4:1\n6:16\n", "0 0 0 AAAAA\n", "0 0 1\n0 1 2\n1 2 2\n2 2 1\ntotal 6\n"),
    ("contacts", "9", "16", ARMS, STAR, "0 0 4\n0 3 4\ntotal 8\n"),
    ("clusters", "1", "8", "", "3 3 3\n", "1 1\n"),
    ("clusters", "2", "8", "", "0 0 0\n6 0 0\n", "2 1\n"),
    ("clusters", "2", "16", "", "0 0 0 E\n", "1 2\n"),
    ("clusters", "6", "12", "", "0 0 0 AAAAA\n", "6 1\n"),
    ("clusters", "4", "16", "", "0 0 0 A\n0 2 0 A\n", "4 1\n"),
    ("clusters", "8", "16", "", "0 0 0 AA\n0 8 0 A\n0 8 8\n0 10 9\n8 0 8\n", "1 1\n2 2\n3 1\n"),
];

// Whether a job prints a table of a file with these lines.
fn prints(
    alloc: Global,
    words: &str,
    monomers: &str,
    side: &str,
    lines: &str,
    frames: &str,
    output: &str,
) -> Result<bool, AllocError> {
    let lines = format!(in alloc; "{VECTORS}{lines}")?;
    let file = file_with(alloc, monomers, side, lines.as_str(), frames)?;
    let wanted = (Status::Done, output.as_bytes(), "");
    answers(alloc, words, file.as_bytes(), (50, 0), wanted)
}

#[test]
fn molecules_of_small_worlds(rt: HostRuntime) -> Result<(), Fail> {
    for (words, monomers, side, lines, frames, output) in MOLECULES {
        assert!(rt;
            prints(rt.alloc(), words, monomers, side, lines, frames, output)?,
            "{words} {frames}"
        );
    }
    Ok(())
}

#[test]
fn contacts_of_small_worlds(rt: HostRuntime) -> Result<(), Fail> {
    for (words, monomers, side, lines, frames, output) in CONTACTS {
        assert!(rt;
            prints(rt.alloc(), words, monomers, side, lines, frames, output)?,
            "{words} {frames}"
        );
    }
    Ok(())
}
