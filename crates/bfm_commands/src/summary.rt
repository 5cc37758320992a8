ghost use Rattle.std.specs.Prelude.{◌≡◌, ◌+◌, ◌-◌, ◌<◌, ◌≤◌, ℕ, List, [], ◌∷◌, None, Some, ⊤, MatchOption, IfErr, OnOk, if◌then◌else◌};
ghost use Rattle.bfm_commands.specs.Causes.{meaning_cause, command_cause, entry_cause, is_cut_short};
ghost use Rattle.bfm_commands.specs.Held.{IsEmpty, IsFew, stage_held};
ghost use Rattle.bfm_commands.specs.History.{History, owner_of};
ghost use Rattle.bfm_commands.specs.Meaning.{meaning_of, text_meaning, command, entry, role_of};
ghost use Rattle.bfm_commands.specs.Reading.{IsFault, IsFit, CountsAtMost, Sums, GivesHeader, GivesFrame, whole_frames};
ghost use Rattle.bfm_commands.specs.Verdict.{bytes_in};
ghost use Rattle.bfm_commands.specs.declared.fault.LineFault.TheVariants.{Refused};

use crate::commands::{CommandLine, Known, command_of};
use crate::fault::LineFault;
use crate::forms::value_of;
use crate::frames::Frames;
use crate::header::Header;
use crate::owner::Owner;
use crate::role::{Role, role_of};
use bfm_base::Cause;
use bfm_base::limits::GREATEST_MCS;
use bfm_lexer::{LineKind, is_bare, kind};
use std::alloc::Global;

/// What later lines can depend on of the finished lines before them.
#[derive(Drop)]
pub(crate) struct Summary {
    pub owner: Owner,
    /// How many commands are not known.
    pub skipped: u64,
    /// What stands before the first frame.
    pub header: Header,
    pub frames: Option<Frames>,
}

impl Summary {
    /// The summary of no line.
    pub fn new(alloc: Global) -> Summary
        ensures sums { Sums result [] }
        ensures fit { IsFit result }
        ensures none { CountsAtMost 0 result }
        ensures empty { IsEmpty result }
    {
        Summary {
            owner: Owner::Nobody,
            skipped: 0,
            header: Header::new(alloc),
            frames: None,
        }
    }

    /// How many positions and bonded pairs are held.
    pub fn held(&self) -> u64
        requires { IsFit self.now }
        ensures held { result ≡ stage_held self.now.header self.now.frames }
        ensures few { MatchOption self.now.frames ⊤ (λ frames. IsFew frames result) }
    {
        match &self.frames {
            None => self.header.pairs.list().len() as u64,
            Some(frames) => frames.held(),
        }
    }

    /// Takes the next line, without one carriage return at its end, with which so many bytes have
    /// come.
    pub fn take(&mut self, alloc: Global, text: &[u8], bytes: u64) -> Result<(), LineFault>
        requires fit { IsFit self.old }
        requires room { CountsAtMost (u64.MAX - 1) self.old }
        ensures taken { OnOk result ((before : History) (line : List ℕ) → Sums self.old before → meaning_of line ≡ text_meaning text.now → bytes_in (line ∷ before) ≡ bytes
            → (meaning_cause before (text_meaning text.now) ≡ None) × Sums self.new (line ∷ before)) }
        ensures fit { OnOk result (IsFit self.new) }
        ensures more { OnOk result ((n : ℕ) → CountsAtMost n self.old → CountsAtMost (n + 1) self.new) }
        ensures refused { IfErr result (λ fault. (before : History) → Sums self.old before → IsFault fault (meaning_cause before (text_meaning text.now))) }
    {
        match command_of(text) {
            Some(CommandLine { known, rest }) => match known {
                Some(known) => self.take_command(alloc, known, rest),
                None => self.skip(),
            },
            None => match kind(text) {
                LineKind::Entry => self.take_entry(alloc, text, bytes),
                LineKind::Blank | LineKind::Comment | LineKind::Command => Ok(()),
            },
        }
    }

    /// Takes a line with a known command, and what follows its name.
    fn take_command(&mut self, alloc: Global, known: Known, rest: &[u8]) -> Result<(), LineFault>
        requires fit { IsFit self.old }
        ensures taken { OnOk result ((before : History) (line : List ℕ) → Sums self.old before → meaning_of line ≡ command (Some known) rest.now
            → (command_cause before (Some known) rest.now ≡ None) × Sums self.new (line ∷ before)) }
        ensures fit { OnOk result (IsFit self.new) }
        ensures more { OnOk result ((n : ℕ) → CountsAtMost n self.old → CountsAtMost n self.new) }
        ensures refused { IfErr result (λ fault. (before : History) → Sums self.old before → IsFault fault (command_cause before (Some known) rest.now)) }
    {
        match role_of(known) {
            Role::Value(least, greatest) => self.take_value(known, least, greatest, rest)?,
            Role::List => self.take_list(known, rest)?,
            Role::Frame => self.begin_frame(alloc, rest)?,
            Role::Change => self.begin_changes(rest)?,
            Role::Unbuilt => return Err(self.refusal_behind(Cause::Unbuilt)),
        }
        self.owner = Owner::Command(known);
        Ok(())
    }

    /// Takes a header command with a value.
    fn take_value(
        &mut self,
        command: Known,
        least: u64,
        greatest: u64,
        rest: &[u8],
    ) -> Result<(), LineFault>
        requires fit { IsFit self.old }
        requires role { role_of command ≡ Role.Value least greatest }
        ensures taken { OnOk result ((before : History) → Sums self.old before
            → (command_cause before (Some command) rest.now ≡ None) × GivesHeader command rest.now before self.new) }
        ensures same { OnOk result ((self.new.frames ≡ self.old.frames) × (self.new.skipped ≡ self.old.skipped)) }
        ensures refused { IfErr result (λ fault. (before : History) → Sums self.old before → IsFault fault (command_cause before (Some command) rest.now)) }
    {
        match &self.frames {
            None => self.header.take_value(command, least, greatest, rest),
            Some(_) => {
                value_of(rest, least, greatest)?;
                Err(self.refusal_behind(Cause::Misplaced))
            }
        }
    }

    /// Takes a header command whose entries follow.
    fn take_list(&mut self, command: Known, rest: &[u8]) -> Result<(), LineFault>
        requires fit { IsFit self.old }
        requires role { role_of command ≡ Role.List }
        ensures taken { OnOk result ((before : History) → Sums self.old before
            → (command_cause before (Some command) rest.now ≡ None) × GivesHeader command rest.now before self.new) }
        ensures same { OnOk result ((self.new.frames ≡ self.old.frames) × (self.new.skipped ≡ self.old.skipped)) }
        ensures refused { IfErr result (λ fault. (before : History) → Sums self.old before → IsFault fault (command_cause before (Some command) rest.now)) }
    {
        match &self.frames {
            None => self.header.take_list(command, rest),
            Some(_) if !is_bare(rest) => Err(LineFault::Refused(Cause::BadLine)),
            Some(_) => Err(self.refusal_behind(Cause::Misplaced)),
        }
    }

    /// Takes a command whose entries change the bonds of a whole frame.
    fn begin_changes(&self, rest: &[u8]) -> Result<(), LineFault>
        requires fit { IsFit self.now }
        ensures taken { OnOk result ((before : History) (known : Known) → Sums self.now before → role_of known ≡ Role.Change
            → (command_cause before (Some known) rest.now ≡ None) × GivesFrame known rest.now before self.now) }
        ensures refused { IfErr result (λ fault. (before : History) (known : Known) → Sums self.now before → role_of known ≡ Role.Change
            → IsFault fault (command_cause before (Some known) rest.now)) }
    {
        match &self.frames {
            _ if !is_bare(rest) => Err(LineFault::Refused(Cause::BadLine)),
            None => Err(LineFault::Refused(Cause::Misplaced)),
            Some(frames) if !frames.is_whole() => Err(LineFault::Refused(Cause::FrameShort)),
            Some(_) => Ok(()),
        }
    }

    /// Begins the first frame, or the next one.
    fn begin_frame(&mut self, alloc: Global, rest: &[u8]) -> Result<(), LineFault>
        requires fit { IsFit self.old }
        ensures taken { OnOk result ((before : History) → Sums self.old before
            → (command_cause before (Some Known.Mcs) rest.now ≡ None) × GivesFrame Known.Mcs rest.now before self.new) }
        ensures fit { OnOk result (IsFit self.new) }
        ensures same { OnOk result ((self.new.skipped ≡ self.old.skipped) × (whole_frames self.new.frames ≡ whole_frames self.old.frames)) }
        ensures refused { IfErr result (λ fault. (before : History) → Sums self.old before → IsFault fault (command_cause before (Some Known.Mcs) rest.now)) }
    {
        let mcs = value_of(rest, 0, GREATEST_MCS)?;
        match &mut self.frames {
            Some(frames) => frames.next(mcs)?,
            None => {
                let builder = self.header.begin(alloc)?;
                self.frames = Some(Frames::new(alloc, builder, mcs));
                self.header = Header::new(alloc);
            }
        }
        Ok(())
    }

    /// Why a command line is refused that has this cause, where no frame is cut short by it.
    fn refusal_behind(&self, cause: Cause) -> LineFault
        requires { IsFit self.now }
        ensures { (before : History) → Sums self.now before → result ≡ Refused (if is_cut_short before then Cause.FrameShort else cause) }
    {
        LineFault::Refused(if self.is_cut_short() {
            Cause::FrameShort
        } else {
            cause
        })
    }

    /// Whether a frame has begun that is not whole.
    fn is_cut_short(&self) -> bool
        requires { IsFit self.now }
        ensures { (before : History) → Sums self.now before → result ≡ is_cut_short before }
    {
        match &self.frames {
            Some(frames) => !frames.is_whole(),
            None => false,
        }
    }

    /// Takes a command that is not known, whose entries are skipped.
    fn skip(&mut self) -> Result<(), LineFault>
        requires fit { IsFit self.old }
        requires room { self.old.skipped < u64.MAX }
        ensures taken { OnOk result ((before : History) (line rest : List ℕ) → Sums self.old before → meaning_of line ≡ command None rest
            → (command_cause before None rest ≡ None) × Sums self.new (line ∷ before)) }
        ensures same { OnOk result ((self.new.frames ≡ self.old.frames) × (self.new.skipped ≡ self.old.skipped + 1)) }
        ensures refused { IfErr result (λ fault. (before : History) (rest : List ℕ) → Sums self.old before → IsFault fault (command_cause before None rest)) }
    {
        if self.is_cut_short() {
            return Err(LineFault::Refused(Cause::FrameShort));
        }
        self.skipped += 1;
        self.owner = Owner::Unknown;
        Ok(())
    }

    /// Takes an entry.
    fn take_entry(&mut self, alloc: Global, text: &[u8], bytes: u64) -> Result<(), LineFault>
        requires fit { IsFit self.old }
        requires room { whole_frames self.old.frames < u64.MAX }
        ensures taken { OnOk result ((before : History) (line : List ℕ) → Sums self.old before → meaning_of line ≡ entry text.now → bytes_in (line ∷ before) ≡ bytes
            → (entry_cause before (owner_of before) text.now ≡ None) × Sums self.new (line ∷ before)) }
        ensures fit { OnOk result (IsFit self.new) }
        ensures same { OnOk result (self.new.skipped ≡ self.old.skipped) }
        ensures more { OnOk result (whole_frames self.new.frames ≤ whole_frames self.old.frames + 1) }
        ensures refused { IfErr result (λ fault. (before : History) → Sums self.old before → IsFault fault (entry_cause before (owner_of before) text.now)) }
    {
        match (self.owner, &mut self.frames) {
            (Owner::Nobody, _) => Err(LineFault::Refused(Cause::BadLine)),
            (Owner::Unknown, _) => Ok(()),
            (Owner::Command(known), Some(frames)) => frames.take_entry(alloc, known, text, bytes),
            (Owner::Command(known), None) => self.header.take_entry(known, text),
        }
    }
}
