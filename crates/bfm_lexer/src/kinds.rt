ghost use Rattle.std.specs.Prelude.{◌≡◌};
ghost use Rattle.bfm_lexer.specs.Kinds.{is_blank, is_bare, kind_of};

/// What a line is for. Blank lines and comments have no meaning.
#[derive(Clone, Copy, Debug, PartialEq, Eq)]
pub enum LineKind {
    /// Empty, or spaces and tabs only.
    Blank,
    /// Begins with `#`, and is no command.
    Comment,
    /// Begins with `!` or with `#!`.
    Command,
    /// Any other line. One that begins with a blank and goes on with something else is an entry.
    Entry,
}

/// The kind of a line, which is given without its newline.
pub fn kind(line: &[u8]) -> LineKind
    ensures { result ≡ kind_of line.now }
{
    match line {
        [] => LineKind::Blank,
        [b'!', ..] | [b'#', b'!', ..] => LineKind::Command,
        [b'#', ..] => LineKind::Comment,
        [b' ' | b'\t', rest @ ..] if is_bare(rest) => LineKind::Blank,
        _ => LineKind::Entry,
    }
}

/// Empty, or spaces and tabs only.
pub fn is_bare(line: &[u8]) -> bool
    ensures { result ≡ is_bare line.now }
{
    line.iter().all(|byte| is_blank(*byte))
}

pub(crate) fn is_blank(byte: u8) -> bool
    ensures { result ≡ is_blank byte }
{
    byte == b' ' || byte == b'\t'
}
