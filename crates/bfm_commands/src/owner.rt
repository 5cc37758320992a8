use crate::commands::Known;

/// Who owns the entries of a file that stand at a place: the last command line before them.
#[derive(Clone, Copy, Debug, PartialEq, Eq)]
pub(crate) enum Owner {
    /// No command line stands before.
    Nobody,
    /// A command that the format does not know. Its entries are skipped.
    Unknown,
    Command(Known),
}
