use crate::reading_tests::answers;
use crate::status::Status;
use crate::tests::file_with;
use std::test::Fail;

const WORDS: &str = "run seed=42 frames=1 every=1";

// The step of the second monomer to (0, 1, 0) makes a contact with the first, and its next step to (0, 1, 1) keeps it.
const BOTH: &str = "\n!mcs=1\n0 3 0\n0 1 1\n";

// Where the first of these is not accepted, the second one leads to (0, 0, 1).
const SECOND: &str = "\n!mcs=1\n0 3 0\n0 0 1\n";

// The word of the first step is 3122475824: (labels, weight, acceptance number, what is written behind the file, moves)
#[rattlefmt::skip]
const STEPS: [(&str, &str, &str, &str, u64); 10] = [
    ("1-2:1", "1 1:1", "3122475825", BOTH, 2),
    ("1-2:1", "1 1:1", "3122475824", SECOND, 1),
    ("1-2:1", "1 1:1", "4294967296", BOTH, 2),
    ("1-2:1", "1 1:2", "4294967296", SECOND, 1),
    ("1-2:1", "1 1:2", "0\n4294967296", BOTH, 2),
    ("1-2:1", "1 1:1", "0\n4294967296", SECOND, 1),
    ("1-2:1", "1 1:-1", "0", BOTH, 2),
    ("1-2:1", "1 1:1\n1 1:0", "0", BOTH, 2),
    ("1:15\n2:1", "1 15:1", "0", SECOND, 1),
    ("1:16\n2:1", "1 1:1", "0", BOTH, 2),
];

#[test]
fn a_step_that_makes_a_contact_asks_for_its_word(rt: HostRuntime) -> Result<(), Fail> {
    for (labels, weight, threshold, group, moves) in STEPS {
        let lines = format!(in rt.alloc();
            "!attributes\n{labels}\n!bfm_contacts\n{weight}\n!bfm_acceptance\n{threshold}\n"
        )?;
        let file = file_with(rt.alloc(), "2", "8", lines.as_str(), "0 3 0\n0 0 0\n")?;
        let kept = file.len();
        let output = format!(in rt.alloc(); "{file}{group}")?;
        let report = format!(in rt.alloc();
            "kept {kept}\nframes 1\nmcs 1\nskipped 0\naccepted {moves}\nlinks 0\ncrossing free\n"
        )?;
        let wanted = (Status::Done, output.as_bytes(), report.as_str());
        assert!(rt;
            answers(rt.alloc(), WORDS, file.as_bytes(), (50, 0), wanted)?,
            "{weight} {threshold}"
        );
    }
    Ok(())
}

// (a line of the header, what is put behind it, report): the header has seven lines before it
#[rattlefmt::skip]
const WRONG: [(&str, &str, &str); 9] = [
    ("!bfm_contacts", "1 15:1000\n1 15:1001\n", "line 10 cause 2 OutOfLimit\n"),
    ("!bfm_contacts", "15 1:-1000\n15 1:-1001\n", "line 10 cause 2 OutOfLimit\n"),
    ("!bfm_contacts", "0 1:1\n", "line 9 cause 2 OutOfLimit\n"),
    ("!bfm_contacts", "1 16:1\n", "line 9 cause 2 OutOfLimit\n"),
    ("!bfm_contacts", "1 1\n", "line 9 cause 1 BadLine\n"),
    ("!bfm_acceptance", "4294967296\n4294967297\n", "line 10 cause 2 OutOfLimit\n"),
    ("!bfm_acceptance", "0\n-1\n", "line 10 cause 2 OutOfLimit\n"),
    ("!bfm_acceptance", "!bfm_acceptance\n", "line 9 cause 4 Repeated\n"),
    ("!bfm_acceptance=1", "", "line 8 cause 1 BadLine\n"),
];

#[test]
fn weights_and_thresholds_beyond_their_limits_are_refused(rt: HostRuntime) -> Result<(), Fail> {
    for (command, entries, report) in WRONG {
        let lines = format!(in rt.alloc(); "{command}\n{entries}")?;
        let file = file_with(rt.alloc(), "1", "8", lines.as_str(), "3 3 3\n")?;
        let wanted = (Status::BadFile, b"".as_slice(), report);
        assert!(rt;
            answers(rt.alloc(), "info", file.as_bytes(), (65_536, 0), wanted)?,
            "{report}"
        );
    }
    Ok(())
}
