//! Cuts the bytes of a file, which come in pieces, into lines, and reads what kind a line is and
//! which number a text is.
//! It stands on `bfm_base` for the causes and on `memchr` for the newlines. It promises that the
//! answers are those of the whole file however it is cut into pieces, that `kind` and `number` are
//! exact, and that nothing but `LineCutter::new` takes memory.
#![tactic(auto)]

mod fields;
mod kinds;
mod lines;
mod numbers;
#[cfg(test)]
mod tests;

pub use fields::{
    behind_mark, lone_natural, lone_number, natural_before, number_before, number_field,
};
pub use kinds::{LineKind, is_bare, kind};
pub use lines::{Cut, LineCutter};
pub use numbers::number;
