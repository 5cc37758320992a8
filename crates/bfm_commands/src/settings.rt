ghost use Rattle.std.specs.Prelude.{◌≡◌, ◌≤◌, true, false, [], ◌∷◌, IfSome, OnOk};
ghost use Rattle.bfm_base.specs.declared.limits.TheConstants.{MOST_MONOMERS};
ghost use Rattle.bfm_geom.specs.Difference.{IsBox};
ghost use Rattle.bfm_commands.specs.Causes.{some_missing, is_box_too_large};
ghost use Rattle.bfm_commands.specs.History.{find_given, stands, value_in, value_or_zero, count_in, shape_in};
ghost use Rattle.bfm_commands.specs.Meaning.{role_of};
ghost use Rattle.bfm_commands.specs.Settings.{IsGivenRight, IsInRange, IsRightValue, IsGivenAs};

use crate::commands::Known;
use bfm_base::Shape;
use bfm_base::limits::MOST_SITES;
use std::alloc::{AllocError, Global};
use std::marker::Model;

/// A command that stands in a header, and the number that it gives, if it gives one.
#[derive(Clone, Copy, Debug, PartialEq, Eq)]
pub(crate) struct Given {
    pub command: Known,
    pub value: Option<u64>,
}

/// The commands that a header must have.
const REQUIRED: [Known; 7] = [
    Known::NumberOfMonomers,
    Known::BoxX,
    Known::BoxY,
    Known::BoxZ,
    Known::PeriodicX,
    Known::PeriodicY,
    Known::PeriodicZ,
];

/// The commands of a header, the newest first. Each number is in the range of its command.
#[derive(Drop)]
pub(crate) struct Settings {
    given: Vec<Given>,
}

impl Model for Settings {
    ghost use Rattle.std.specs.Prelude.{List, All};
    ghost use Rattle.bfm_commands.specs.declared.settings.Given.{Given};
    ghost use Rattle.bfm_commands.specs.Settings.{IsGivenRight};

    ghost Value = { List Given };

    ghost view = { λ settings. settings.given.items };

    ghost invariant = { λ settings. All IsGivenRight settings.given.items };
}

impl Settings {
    /// No command.
    pub fn new(alloc: Global) -> Settings
        ensures { result ≡ [] }
    {
        Settings {
            given: Vec::new(alloc),
        }
    }

    /// One command more.
    pub fn give(&mut self, given: Given) -> Result<(), AllocError>
        requires { IsGivenRight given }
        ensures { OnOk result (self.new ≡ given ∷ self.old) }
    {
        self.given.insert(0, given)?;
        Ok(())
    }

    fn find(&self, command: Known) -> Option<Given>
        ensures found { result ≡ find_given command self.now }
        ensures right { IfSome result (λ given. IsRightValue (role_of command) given.value) }
    {
        self.given
            .iter()
            .copied()
            .find(|given| given.command == command)
    }

    pub fn stands(&self, command: Known) -> bool
        ensures { result ≡ stands command self.now }
    {
        self.find(command).is_some()
    }

    /// The number that a command gives, which is in its range.
    pub fn value(&self, command: Known) -> Option<u64>
        ensures value { result ≡ value_in command self.now }
        ensures range { IsInRange (role_of command) result }
    {
        self.find(command)?.value
    }

    /// Whether a command is missing that a header must have.
    pub fn some_missing(&self) -> bool
        ensures { result ≡ some_missing self.now }
    {
        REQUIRED.iter().any(|command| !self.stands(*command))
    }

    /// Whether all sides are there and the box has more than 2^24 sites.
    pub fn is_box_too_large(&self) -> bool
        ensures { result ≡ is_box_too_large self.now }
    {
        match (
            self.value(Known::BoxX),
            self.value(Known::BoxY),
            self.value(Known::BoxZ),
        ) {
            (Some(x), Some(y), Some(z)) => x * y * z > u64::from(MOST_SITES),
            _ => false,
        }
    }

    /// The number that a command gives, or 0 where it gives none.
    fn number(&self, command: Known) -> u64
        ensures value { result ≡ value_or_zero command self.now }
        ensures given { stands command self.now ≡ true → IsGivenAs (role_of command) (value_in command self.now) result }
    {
        match self.find(command) {
            Some(given) => given.value.unwrap_or(0),
            None => 0,
        }
    }

    /// The number of monomers.
    pub fn count(&self) -> u32
        requires { some_missing self.now ≡ false }
        ensures value { result ≡ count_in self.now }
        ensures some { 1 ≤ result }
        ensures few { result ≤ MOST_MONOMERS }
    {
        self.number(Known::NumberOfMonomers) as u32
    }

    /// The box.
    pub fn shape(&self) -> Shape
        requires there { some_missing self.now ≡ false }
        requires small { is_box_too_large self.now ≡ false }
        ensures value { result ≡ shape_in self.now }
        ensures limits { IsBox result }
    {
        let sides = [
            self.number(Known::BoxX) as u16,
            self.number(Known::BoxY) as u16,
            self.number(Known::BoxZ) as u16,
        ];
        let periodic = [
            self.number(Known::PeriodicX) == 1,
            self.number(Known::PeriodicY) == 1,
            self.number(Known::PeriodicZ) == 1,
        ];
        Shape { sides, periodic }
    }
}
