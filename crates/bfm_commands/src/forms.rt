ghost use Rattle.std.specs.Prelude.{◌≡◌, ◌≢◌, ◌<◌, ◌≤◌, IfOk, IfSome, MatchResult, Some, Ok, Err, option_map, unsigned_abs};
ghost use Rattle.bfm_base.specs.Place.{extent_of};
ghost use Rattle.bfm_base.specs.declared.limits.TheConstants.{MOST_MONOMERS, START_REACH, GREATEST_CLASS, GREATEST_NUMBER, GREATEST_THRESHOLD, GREATEST_WEIGHT};
ghost use Rattle.bfm_commands.specs.Forms.{contact_entry, contact_numbers, frame_line, frame_numbers, limited_contact, limited_monomers, limited_range, limited_vector, lone_span, monomers_entry, monomers_numbers, monomer_of, natural_within, pair_entry, pair_numbers, range_entry, range_numbers, single_numbers, span_numbers, string_of, threshold_entry, value_number, value_of, vector_entry, vector_numbers};
ghost use Rattle.bfm_lexer.specs.Cursor.{capped};
ghost use Rattle.bfm_commands.specs.Capped.{capped_pair, capped_place, capped_numbered, capped_vector, capped_frame};

use bfm_base::limits::{
    GREATEST_CLASS, GREATEST_NUMBER, GREATEST_THRESHOLD, GREATEST_WEIGHT, MOST_MONOMERS,
    START_REACH,
};
use bfm_base::{Cause, P3};
use bfm_lexer::{
    behind_mark, lone_natural, lone_number, natural_before, number_before, number_field,
};

/// Successive monomers, from the first to the last, both counted from 0.
#[derive(Clone, Copy, Debug, PartialEq, Eq)]
pub struct Range {
    pub first: u32,
    pub last: u32,
}

/// The value of a command, by the rest of its line. `BadLine` is another form than `=` and one whole
/// number, `OutOfLimit` a number outside the range.
#[tactic(auto, using(crate::proofs::FormLemmas::forms))]
pub fn value_of(rest: &[u8], least: u64, greatest: u64) -> Result<u64, Cause>
    requires { greatest ≤ GREATEST_NUMBER }
    ensures value { result ≡ value_of rest.now least greatest }
    ensures within { IfOk result (λ n. (least ≤ n) × (n ≤ greatest)) }
{
    let Some(number) = value_number(rest) else {
        return Err(Cause::BadLine);
    };
    natural_within(number, least, greatest).ok_or(Cause::OutOfLimit)
}

/// The vector and the identifier of an entry `x y z:id`. `BadLine` is another form, `OutOfLimit` a
/// number above 2^62 in absolute value.
#[tactic(auto, using(crate::proofs::FormLemmas::forms))]
pub fn vector_entry(line: &[u8]) -> Result<(P3, i64), Cause>
    ensures entry { result ≡ vector_entry line.now }
    ensures reach { IfOk result (λ e. extent_of e.0 ≤ GREATEST_NUMBER) }
{
    match vector_numbers(line) {
        Some((vector, id)) => limited_vector(vector, id),
        None => Err(Cause::BadLine),
    }
}

/// The two monomers of an entry `i j`, counted from 0. `BadLine` is another form, `OutOfLimit` a
/// number that is not 1 to 2^18, `BadMonomer` twice the same monomer.
#[tactic(auto, using(crate::proofs::FormLemmas::forms))]
pub fn pair_entry(line: &[u8]) -> Result<(u32, u32), Cause>
    ensures entry { result ≡ pair_entry line.now }
    ensures within { IfOk result (λ e. (e.0 < MOST_MONOMERS) × (e.1 < MOST_MONOMERS)) }
    ensures other { IfOk result (λ e. e.0 ≢ e.1) }
{
    let Some((i, j)) = pair_numbers(line) else {
        return Err(Cause::BadLine);
    };
    match (monomer_of(i), monomer_of(j)) {
        (Some(i), Some(j)) if i == j => Err(Cause::BadMonomer),
        (Some(i), Some(j)) => Ok((i, j)),
        _ => Err(Cause::OutOfLimit),
    }
}

/// The monomers of an entry `a-b:t` or `a:t`, and the number that they are given, which is at most
/// `greatest`. `BadLine` is another form, `OutOfLimit` a monomer that is not 1 to 2^18 or another
/// number outside its range, `BadMonomer` a range that ends before it begins.
#[tactic(auto, using(crate::proofs::FormLemmas::forms))]
pub fn range_entry(line: &[u8], greatest: u32) -> Result<(Range, u32), Cause>
    ensures entry { result ≡ range_entry line.now greatest }
    ensures within { IfOk result (λ e. (e.0.first ≤ e.0.last) × (e.0.last < MOST_MONOMERS) × (e.1 ≤ greatest)) }
{
    match range_numbers(line) {
        Some(((first, last), value)) => limited_range(first, last, value, greatest),
        None => Err(Cause::BadLine),
    }
}

/// The monomers of an entry `a-b` or `a`. The refusals are those of `range_entry`.
#[tactic(auto, using(crate::proofs::FormLemmas::forms))]
pub fn monomers_entry(line: &[u8]) -> Result<Range, Cause>
    ensures entry { result ≡ monomers_entry line.now }
    ensures within { IfOk result (λ range. (range.first ≤ range.last) × (range.last < MOST_MONOMERS)) }
{
    match monomers_numbers(line) {
        Some((first, last)) => limited_monomers(first, last),
        None => Err(Cause::BadLine),
    }
}

/// The two classes of an entry `a b:w`, each 1 to 15, and the weight of their contacts, which is
/// -1,000 to 1,000. `BadLine` is another form, `OutOfLimit` a number outside its range.
#[tactic(auto, using(crate::proofs::FormLemmas::forms))]
pub fn contact_entry(line: &[u8]) -> Result<((u8, u8), i32), Cause>
    ensures entry { result ≡ contact_entry line.now }
    ensures classes { IfOk result (λ e. (1 ≤ e.0.0) × (e.0.0 ≤ GREATEST_CLASS) × (1 ≤ e.0.1) × (e.0.1 ≤ GREATEST_CLASS)) }
    ensures weight { IfOk result (λ e. unsigned_abs e.1 ≤ GREATEST_WEIGHT) }
{
    match contact_numbers(line) {
        Some(((first, second), weight)) => limited_contact(first, second, weight),
        None => Err(Cause::BadLine),
    }
}

/// The acceptance threshold of an entry `t`, at most 2^32. `BadLine` is another form, `OutOfLimit` a
/// number outside the range.
#[tactic(auto, using(crate::proofs::FormLemmas::forms))]
pub fn threshold_entry(line: &[u8]) -> Result<u64, Cause>
    ensures entry { result ≡ threshold_entry line.now }
    ensures within { IfOk result (λ n. n ≤ GREATEST_THRESHOLD) }
{
    let Some(number) = lone_number(line) else {
        return Err(Cause::BadLine);
    };
    natural_within(number, 0, GREATEST_THRESHOLD).ok_or(Cause::OutOfLimit)
}

/// The position of the first monomer of a frame line `x y z`, in lattice units, and the identifiers
/// of the vectors to the next ones, which one space parts from it. `BadLine` is another form,
/// `OutOfLimit` a coordinate above 2^44 in absolute value.
#[tactic(auto, using(crate::proofs::FormLemmas::forms))]
pub fn frame_line(line: &[u8]) -> Result<(P3, &[u8]), Cause>
    ensures line { MatchResult result (λ e. frame_line line.now ≡ Ok (e.0, e.1.now)) (λ cause. frame_line line.now ≡ Err cause) }
    ensures reach { IfOk result (λ e. extent_of e.0 ≤ START_REACH) }
{
    let Some((position, ids)) = frame_numbers(line) else {
        return Err(Cause::BadLine);
    };
    if position.extent() <= START_REACH {
        Ok((position, ids))
    } else {
        Err(Cause::OutOfLimit)
    }
}

fn limited_vector(vector: P3, id: i64) -> Result<(P3, i64), Cause>
    ensures entry { result ≡ limited_vector (Some (vector, id)) }
    ensures reach { IfOk result (λ e. extent_of e.0 ≤ GREATEST_NUMBER) }
{
    if vector.extent() > GREATEST_NUMBER {
        return Err(Cause::OutOfLimit);
    }
    if id.unsigned_abs() > GREATEST_NUMBER {
        return Err(Cause::OutOfLimit);
    }
    Ok((vector, id))
}

fn limited_monomers(first: i64, last: i64) -> Result<Range, Cause>
    ensures entry { result ≡ limited_monomers (Some (first, last)) }
    ensures within { IfOk result (λ range. (range.first ≤ range.last) × (range.last < MOST_MONOMERS)) }
{
    let Some(first) = monomer_of(first) else {
        return Err(Cause::OutOfLimit);
    };
    let Some(last) = monomer_of(last) else {
        return Err(Cause::OutOfLimit);
    };
    if last < first {
        return Err(Cause::BadMonomer);
    }
    Ok(Range { first, last })
}

fn limited_range(first: i64, last: i64, value: i64, greatest: u32) -> Result<(Range, u32), Cause>
    ensures entry { result ≡ limited_range greatest (Some ((first, last), value)) }
    ensures within { IfOk result (λ e. (e.0.first ≤ e.0.last) × (e.0.last < MOST_MONOMERS) × (e.1 ≤ greatest)) }
{
    let Some(value) = natural_within(value, 0, u64::from(greatest)) else {
        return Err(Cause::OutOfLimit);
    };
    let range = limited_monomers(first, last)?;
    Ok((range, value as u32))
}

fn limited_contact(first: i64, second: i64, weight: i64) -> Result<((u8, u8), i32), Cause>
    ensures entry { result ≡ limited_contact (Some ((first, second), weight)) }
    ensures classes { IfOk result (λ e. (1 ≤ e.0.0) × (e.0.0 ≤ GREATEST_CLASS) × (1 ≤ e.0.1) × (e.0.1 ≤ GREATEST_CLASS)) }
    ensures weight { IfOk result (λ e. unsigned_abs e.1 ≤ GREATEST_WEIGHT) }
{
    let Some(first) = natural_within(first, 1, u64::from(GREATEST_CLASS)) else {
        return Err(Cause::OutOfLimit);
    };
    let Some(second) = natural_within(second, 1, u64::from(GREATEST_CLASS)) else {
        return Err(Cause::OutOfLimit);
    };
    if weight.unsigned_abs() > GREATEST_WEIGHT {
        return Err(Cause::OutOfLimit);
    }
    Ok(((first as u8, second as u8), weight as i32))
}

// The numbers of the forms, with the lexer's numbers in place of those above 2^62.

#[tactic(auto, using(crate::proofs::FormLemmas::forms))]
fn value_number(rest: &[u8]) -> Option<i64>
    ensures { result ≡ option_map capped (value_number rest.now) }
{
    lone_number(behind_mark(b'=', rest)?)
}

#[tactic(auto, using(crate::proofs::FormLemmas::forms))]
fn vector_numbers(line: &[u8]) -> Option<(P3, i64)>
    ensures { result ≡ option_map capped_vector (vector_numbers line.now) }
{
    let (x, rest) = number_field(line)?;
    let (y, rest) = number_field(rest)?;
    let (z, rest) = number_before(b':', rest)?;
    let id = lone_number(rest)?;
    Some((P3 { x, y, z }, id))
}

#[tactic(auto, using(crate::proofs::FormLemmas::forms))]
fn pair_numbers(line: &[u8]) -> Option<(i64, i64)>
    ensures { result ≡ option_map capped_pair (pair_numbers line.now) }
{
    let (i, rest) = number_field(line)?;
    let j = lone_number(rest)?;
    Some((i, j))
}

#[tactic(auto, using(crate::proofs::FormLemmas::forms))]
fn range_numbers(line: &[u8]) -> Option<((i64, i64), i64)>
    ensures { result ≡ option_map capped_numbered (range_numbers line.now) }
{
    match single_numbers(line) {
        Some(entry) => Some(entry),
        None => span_numbers(line),
    }
}

#[tactic(auto, using(crate::proofs::FormLemmas::forms))]
fn single_numbers(line: &[u8]) -> Option<((i64, i64), i64)>
    ensures { result ≡ option_map capped_numbered (single_numbers line.now) }
{
    let (monomer, rest) = number_before(b':', line)?;
    let value = lone_number(rest)?;
    Some(((monomer, monomer), value))
}

#[tactic(auto, using(crate::proofs::FormLemmas::forms))]
fn span_numbers(line: &[u8]) -> Option<((i64, i64), i64)>
    ensures { result ≡ option_map capped_numbered (span_numbers line.now) }
{
    let (first, rest) = natural_before(b'-', line)?;
    let (last, rest) = natural_before(b':', rest)?;
    let value = lone_number(rest)?;
    Some(((first as i64, last as i64), value))
}

#[tactic(auto, using(crate::proofs::FormLemmas::forms))]
fn monomers_numbers(line: &[u8]) -> Option<(i64, i64)>
    ensures { result ≡ option_map capped_pair (monomers_numbers line.now) }
{
    match lone_number(line) {
        Some(number) => Some((number, number)),
        None => lone_span(line),
    }
}

#[tactic(auto, using(crate::proofs::FormLemmas::forms))]
fn lone_span(line: &[u8]) -> Option<(i64, i64)>
    ensures { result ≡ option_map capped_pair (lone_span line.now) }
{
    let (first, rest) = natural_before(b'-', line)?;
    let last = lone_natural(rest)?;
    Some((first as i64, last as i64))
}

#[tactic(auto, using(crate::proofs::FormLemmas::forms))]
fn contact_numbers(line: &[u8]) -> Option<((i64, i64), i64)>
    ensures { result ≡ option_map capped_numbered (contact_numbers line.now) }
{
    let (first, rest) = number_field(line)?;
    let (second, rest) = number_before(b':', rest)?;
    let weight = lone_number(rest)?;
    Some(((first, second), weight))
}

#[tactic(auto, using(crate::proofs::FormLemmas::forms))]
fn frame_numbers(line: &[u8]) -> Option<(P3, &[u8])>
    ensures { option_map (λ line. (line.0, line.1.now)) result ≡ option_map capped_frame (frame_numbers line.now) }
{
    let (x, rest) = number_field(line)?;
    let (y, rest) = number_field(rest)?;
    let (z, rest) = number_field(rest)?;
    let ids = string_of(rest)?;
    Some((P3 { x, y, z }, ids))
}

// What follows the coordinates of a frame line.
fn string_of(rest: &[u8]) -> Option<&[u8]>
    ensures { option_map (λ ids. ids.now) result ≡ string_of rest.now }
{
    match rest {
        [] => Some(rest),
        [b' ', ids @ ..] => Some(ids),
        _ => None,
    }
}

// The number, where it is in the range.
fn natural_within(number: i64, least: u64, greatest: u64) -> Option<u64>
    ensures number { result ≡ natural_within least greatest number }
    ensures within { IfSome result (λ n. (least ≤ n) × (n ≤ greatest)) }
{
    let size = number.unsigned_abs();
    if number >= 0 && least <= size && size <= greatest {
        Some(size)
    } else {
        None
    }
}

// The monomer with this number in a file.
fn monomer_of(number: i64) -> Option<u32>
    ensures monomer { result ≡ monomer_of number }
    ensures within { IfSome result (λ m. m < MOST_MONOMERS) }
{
    let number = natural_within(number, 1, u64::from(MOST_MONOMERS))?;
    Some(number as u32 - 1)
}
