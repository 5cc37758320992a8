ghost use Rattle.std.specs.Prelude.{◌≡◌, ◌+◌, ◌^◌, ◌≤◌, ◌==◌, ◌&&◌, not, IsTrue, IfSome, option_map};
ghost use Rattle.bfm_base.specs.declared.limits.TheConstants.{GREATEST_NUMBER};
ghost use Rattle.bfm_lexer.specs.Kinds.{is_blank};
ghost use Rattle.bfm_lexer.specs.Fields.{after_blanks, behind_mark, number_field, lone_number, lone_natural, number_before, natural_before, is_mark};
ghost use Rattle.bfm_lexer.specs.Cursor.{begins_with_blank, ends, capped, capped_natural, handed, handed_natural};

use crate::kinds::{is_bare, is_blank};
use crate::numbers::{begins_with, natural_at, number_at};

/// The number that the first field of a text is, and what stands behind that field. Spaces and tabs
/// part fields. A number above 2^62 in absolute value is given as 2^62 + 1 with its sign, here and
/// below.
#[tactic(auto, using(crate::proofs::FieldLemmas::cursor))]
pub fn number_field(text: &[u8]) -> Option<(i64, &[u8])>
    ensures { option_map (λ read. (read.0, read.1.now)) result ≡ handed (number_field text.now) }
{
    let (number, rest) = number_at(after_blanks(text))?;
    if ends(rest) {
        Some((number, rest))
    } else {
        None
    }
}

/// The number that is the only field of a text.
#[tactic(auto, using(crate::proofs::FieldLemmas::cursor))]
pub fn lone_number(text: &[u8]) -> Option<i64>
    ensures { result ≡ option_map capped (lone_number text.now) }
{
    let (number, rest) = number_at(after_blanks(text))?;
    if is_bare(rest) { Some(number) } else { None }
}

/// The same of a number without a sign.
#[tactic(auto, using(crate::proofs::FieldLemmas::cursor))]
pub fn lone_natural(text: &[u8]) -> Option<u64>
    ensures { result ≡ option_map capped_natural (lone_natural text.now) }
{
    let (number, rest) = natural_at(after_blanks(text))?;
    if is_bare(rest) { Some(number) } else { None }
}

/// The number that is the only field before the first such mark, and what stands behind that mark.
#[tactic(auto, using(crate::proofs::FieldLemmas::cursor))]
pub fn number_before(mark: u8, text: &[u8]) -> Option<(i64, &[u8])>
    requires { IsTrue (is_mark mark && not (mark == 45)) }
    ensures { option_map (λ read. (read.0, read.1.now)) result ≡ handed (number_before mark text.now) }
{
    let (number, rest) = number_at(after_blanks(text))?;
    Some((number, behind_mark(mark, rest)?))
}

/// The same of a number without a sign. The mark may be a dash.
#[tactic(auto, using(crate::proofs::FieldLemmas::cursor))]
pub fn natural_before(mark: u8, text: &[u8]) -> Option<(u64, &[u8])>
    requires { IsTrue (is_mark mark) }
    ensures read { option_map (λ read. (read.0, read.1.now)) result ≡ handed_natural (natural_before mark text.now) }
    ensures size { IfSome result (λ read. read.0 ≤ GREATEST_NUMBER + 1) }
{
    let (number, rest) = natural_at(after_blanks(text))?;
    Some((number, behind_mark(mark, rest)?))
}

/// What stands behind the first such mark, where only blanks stand before it.
#[tactic(auto, using(crate::proofs::FieldLemmas::cursor))]
pub fn behind_mark(mark: u8, text: &[u8]) -> Option<&[u8]>
    requires { IsTrue (is_mark mark) }
    ensures { option_map (λ rest. rest.now) result ≡ behind_mark mark text.now }
{
    let rest = after_blanks(text);
    if begins_with(mark, rest) {
        Some(&rest[1..])
    } else {
        None
    }
}

fn after_blanks(text: &[u8]) -> &[u8]
    ensures { result.now ≡ after_blanks text.now }
{
    let mut rest = text;
    while begins_with_blank(rest) {
        rest = &rest[1..];
    }
    rest
}

fn begins_with_blank(text: &[u8]) -> bool
    ensures { result ≡ begins_with_blank text.now }
{
    match text {
        [first, ..] => is_blank(*first),
        [] => false,
    }
}

fn ends(text: &[u8]) -> bool
    ensures { result ≡ ends text.now }
{
    text.is_empty() || begins_with_blank(text)
}
