//! The job `trial`. Its figures were computed by a program of another hand, written in C from the rules of the model alone.

use crate::reading_tests::answers;
use crate::status::Status;
use std::test::Fail;

const SEVEN: &str = "trial 7\naccepted 23278\nradius 178974132\n";

#[test]
fn a_trial_gives_the_figures_of_another_hand(rt: HostRuntime) -> Result<(), Fail> {
    let wanted = (Status::Done, SEVEN.as_bytes(), "");
    assert!(rt; answers(rt.alloc(), "trial number=7", b"left alone", (1, 1), wanted)?);
    Ok(())
}

// (words, report)
#[rattlefmt::skip]
const WRONG: [(&str, &str); 9] = [
    ("trial", "words 2\n"),
    ("trial 7", "words 2\n"),
    ("trial number=", "words 2\n"),
    ("trial number=-1", "words 2\n"),
    ("trial number=18446744073709551616", "words 2\n"),
    ("trial seed=1", "words 2\n"),
    ("trial number=1 number=2", "words 3\n"),
    ("trial number=1 limit=5", "words 3\n"),
    ("number=1 trial", "words 1\n"),
];

#[test]
fn wrong_words_of_a_trial(rt: HostRuntime) -> Result<(), Fail> {
    for (words, report) in WRONG {
        let wanted = (Status::BadWords, b"".as_slice(), report);
        assert!(rt;
            answers(rt.alloc(), words, b"left alone", (1, 1), wanted)?,
            "{words}"
        );
    }
    Ok(())
}
