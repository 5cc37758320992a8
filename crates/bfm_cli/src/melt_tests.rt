//! A run of the melt of 4096 chains of 32 in a box of side 128, with the figures of a program of another hand, written in C
//! from the rules of the model and of the format alone.

use crate::status::Status;
use crate::tests::run_over;
use bfm_base::{MemSink, MemSource};
use std::test::Fail;

const MELT: &str = "build melt x=128 y=128 z=128 chains=4096 length=32";

const REPORT: &str =
    "kept 169125\nframes 1\nmcs 64\nskipped 0\naccepted 220832\nlinks 0\ncrossing free\n";

/// The length of the file of the start, and that of the group behind it, in bytes.
const KEPT: usize = 169_125;

const GROUP: usize = 167_996;

/// How much the output takes, in bytes.
const ROOM: usize = 400_000;

/// A sum of bytes in which each place has its own weight: that of the byte before it times 31, below 2^32.
fn digest(bytes: &[u8]) -> u32 {
    bytes.iter().fold(
        0u32,
        |sum, byte| sum.wrapping_mul(31).wrapping_add(u32::from(*byte)),
    )
}

// 8,388,608 attempts: one that went through all monomers would not end in the time that a test has.
#[test]
fn a_melt_of_many_monomers_runs_to_the_figures_of_another_hand(
    rt: HostRuntime,
) -> Result<(), Fail> {
    let mut none = MemSource::new(rt.alloc(), b"", 1, &[])?;
    let mut start = MemSink::new(rt.alloc(), ROOM, ROOM, &[])?;
    let mut report = MemSink::new(rt.alloc(), 1000, 1000, &[])?;
    let built = run_over(rt.alloc(), MELT, &mut none, &mut start, &mut report)?;
    assert_eq!(rt; built, Status::Done);
    assert_eq!(rt; start.bytes().len(), KEPT);
    let mut input = MemSource::new(rt.alloc(), start.bytes(), 65_536, &[])?;
    let mut output = MemSink::new(rt.alloc(), ROOM, ROOM, &[])?;
    let ran = run_over(
        rt.alloc(),
        "run seed=1 frames=1 every=64",
        &mut input,
        &mut output,
        &mut report,
    )?;
    assert_eq!(rt; ran, Status::Done);
    assert!(rt; report.bytes() == REPORT.as_bytes());
    let Some((kept, group)) = output.bytes().split_at_checked(KEPT) else {
        return Err(Fail::from("a short output"));
    };
    assert!(rt; kept == start.bytes());
    assert_eq!(rt; group.len(), GROUP);
    assert_eq!(rt; digest(group), 1_761_057_918);
    Ok(())
}
