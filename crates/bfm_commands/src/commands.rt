ghost use Rattle.std.specs.Prelude.{◌≡◌, length, option_map};
ghost use Rattle.bfm_commands.specs.Commands.{command_of, is_name_byte, known_of, marked, name_at, name_of};

/// A command that the format knows.
#[derive(Clone, Copy, Debug, PartialEq, Eq)]
pub enum Known {
    NumberOfMonomers,
    BoxX,
    BoxY,
    BoxZ,
    PeriodicX,
    PeriodicY,
    PeriodicZ,
    SetOfBondVectors,
    Bonds,
    /// The labels of monomers.
    Attributes,
    /// How many bonds monomers may have by linking.
    Valence,
    /// Monomers that never move.
    Fixed,
    /// The weights of contacts between classes of monomers.
    Contacts,
    /// Acceptance thresholds.
    Acceptance,
    /// The time of a frame, in sweeps.
    Mcs,
    AddBonds,
    RemoveBonds,
    Stream,
    Solid,
}

const KNOWN: [Known; 19] = [
    Known::NumberOfMonomers,
    Known::BoxX,
    Known::BoxY,
    Known::BoxZ,
    Known::PeriodicX,
    Known::PeriodicY,
    Known::PeriodicZ,
    Known::SetOfBondVectors,
    Known::Bonds,
    Known::Attributes,
    Known::Valence,
    Known::Fixed,
    Known::Contacts,
    Known::Acceptance,
    Known::Mcs,
    Known::AddBonds,
    Known::RemoveBonds,
    Known::Stream,
    Known::Solid,
];

impl Known {
    /// The command as a file names it, without its mark.
    pub fn name(&self) -> &'static [u8]
        ensures { result.now ≡ name_of self.now }
    {
        match self {
            Known::NumberOfMonomers => b"number_of_monomers",
            Known::BoxX => b"box_x",
            Known::BoxY => b"box_y",
            Known::BoxZ => b"box_z",
            Known::PeriodicX => b"periodic_x",
            Known::PeriodicY => b"periodic_y",
            Known::PeriodicZ => b"periodic_z",
            Known::SetOfBondVectors => b"set_of_bondvectors",
            Known::Bonds => b"bonds",
            Known::Attributes => b"attributes",
            Known::Valence => b"bfm_valence",
            Known::Fixed => b"bfm_fixed",
            Known::Contacts => b"bfm_contacts",
            Known::Acceptance => b"bfm_acceptance",
            Known::Mcs => b"mcs",
            Known::AddBonds => b"add_bonds",
            Known::RemoveBonds => b"remove_bonds",
            Known::Stream => b"bfm_stream",
            Known::Solid => b"bfm_solid",
        }
    }

    /// The command that has this name. Case counts.
    #[tactic(auto, unfolding(crate::specs::Commands::known_of))]
    pub fn named(name: &[u8]) -> Option<Known>
        ensures { result ≡ known_of name.now }
    {
        KNOWN.iter().copied().find(|command| command.name() == name)
    }
}

/// A line that begins with `!` or `#!`.
#[derive(Clone, Copy, Debug)]
pub struct CommandLine<'a> {
    /// The command, or `None` where the name is no known one's.
    pub known: Option<Known>,
    /// What follows the name.
    pub rest: &'a [u8],
}

/// Reads a command line. Another line is `None`.
#[tactic(auto, unfolding(crate::specs::Commands::command_of))]
pub fn command_of(line: &[u8]) -> Option<CommandLine<'_>>
    ensures { option_map (λ c. (c.known, c.rest.now)) result ≡ command_of line.now }
{
    let text = marked(line)?;
    let end = name_length(text);
    Some(CommandLine {
        known: Known::named(&text[..end]),
        rest: &text[end..],
    })
}

// What stands behind the mark of a command line.
fn marked(line: &[u8]) -> Option<&[u8]>
    ensures { option_map (λ text. text.now) result ≡ marked line.now }
{
    match line {
        [b'!', text @ ..] | [b'#', b'!', text @ ..] => Some(text),
        _ => None,
    }
}

// How many bytes at the start of a text are a command's name.
fn name_length(text: &[u8]) -> usize
    ensures { result ≡ length (name_at text.now) }
{
    text.iter().take_while(|byte| is_name_byte(**byte)).count()
}

fn is_name_byte(byte: u8) -> bool
    ensures { result ≡ is_name_byte byte }
{
    byte.is_ascii_alphanumeric() || byte == b'_'
}
