//! A conversion's words, recorded one after another.
ghost use Rattle.std.specs.Prelude.{◌≡◌, ◌<◌, [], IfOk, IfErr, length, take, slice_get, Some};
ghost use Rattle.oc_words.specs.Faults.{IsFaultAt, IsFaultOf};
ghost use Rattle.oc_words.specs.Jobs as jobs;
ghost use Rattle.oc_words.specs.Readings.{IsReadingOf, listed, listed_target, with_name, with_said};

use crate::fault::{WordCode, WordFault};
use crate::job::Job;
use crate::option::Argument;
use oc_base::{Format, Text};
use oc_names::{Choice, Edit, Edits};
use std::alloc::Global;

/// The recorded names of files.
#[derive(Drop)]
pub enum Names {
    /// None yet.
    NoName,
    /// That of the input.
    Input(Text),
    /// Both.
    Both(Text, Text),
}

/// What the recorded words of a conversion mean.
#[derive(Drop)]
pub struct Reading {
    /// The target.
    pub to: Option<Format>,
    /// The edits and the choices.
    pub wishes: Edits,
    /// The names of files.
    pub names: Names,
}

/// The fault of the word at an index. Constant time, no memory.
pub(crate) fn bad(index: u32, code: WordCode) -> WordFault
    ensures { result ≡ WordFault.Bad index code }
{
    WordFault::Bad { index, code }
}

// whether one choice comes after the other
fn conflicts(before: Choice, choice: Choice) -> bool
    ensures { result ≡ jobs.conflicts before choice }
{
    matches!(
        (before, choice),
        (Choice::Strip, Choice::Keep) | (Choice::Keep, Choice::Strip)
    )
}

impl Names {
    // the names with one more, which is the word at `index`
    fn with_name(self, alloc: Global, index: u32, name: &str) -> Result<Names, WordFault>
        ensures ok { IfOk result (λ names. with_name self name.now ≡ Ok names) }
        ensures err { IfErr result (IsFaultAt index (with_name self name.now)) }
    {
        match self {
            Names::NoName => Ok(Names::Input(Text::from_str(alloc, name)?)),
            Names::Input(input) => {
                if name == input.as_str() {
                    return Err(bad(index, WordCode::SameFile));
                }
                Ok(Names::Both(input, Text::from_str(alloc, name)?))
            }
            Names::Both(_, _) => Err(bad(index, WordCode::ExtraName)),
        }
    }
}

impl Reading {
    /// Nothing is recorded yet. Constant time, no memory.
    pub(crate) fn new(alloc: Global) -> Reading
        ensures { IsReadingOf [] result }
    {
        Reading {
            to: None,
            wishes: Edits::new(alloc),
            names: Names::NoName,
        }
    }

    // with one more name of a file, the word at `index`
    fn with_operand(self, alloc: Global, index: u32, name: &str) -> Result<Reading, WordFault>
        ensures ok { IfOk result (λ after. with_said self name.now Argument.Operand ≡ Ok after) }
        ensures err { IfErr result (IsFaultAt index (with_said self name.now Argument.Operand)) }
    {
        let Reading { to, wishes, names } = self;
        let names = names.with_name(alloc, index, name)?;
        Ok(Reading { to, wishes, names })
    }

    // with a target, which the word at `index` names
    fn with_target(self, index: u32, to: Format) -> Result<Reading, WordFault>
        ensures ok { IfOk result (λ after. with_said self [] (Argument.Target to) ≡ Ok after) }
        ensures err { IfErr result (IsFaultAt index (with_said self [] (Argument.Target to))) }
    {
        match self.to {
            None => Ok(Reading {
                to: Some(to),
                wishes: self.wishes,
                names: self.names,
            }),
            Some(_) => Err(bad(index, WordCode::SecondTarget)),
        }
    }

    // with one more edit
    fn with_edit(mut self, edit: Edit) -> Result<Reading, WordFault>
        ensures ok { IfOk result (λ after. with_said self [] (Argument.Asks edit) ≡ Ok after) }
        ensures err { IfErr result (λ fault. fault ≡ WordFault.NoMemory) }
    {
        self.wishes.push(edit)?;
        Ok(self)
    }

    // with a choice for Debug sections, which the word at `index` makes
    fn with_debug(mut self, index: u32, choice: Choice) -> Result<Reading, WordFault>
        ensures ok { IfOk result (λ after. with_said self [] (Argument.Debug choice) ≡ Ok after) }
        ensures err { IfErr result (IsFaultAt index (with_said self [] (Argument.Debug choice))) }
    {
        if conflicts(self.wishes.debug(), choice) {
            return Err(bad(index, WordCode::Conflict));
        }
        self.wishes.set_debug(choice);
        Ok(self)
    }

    // with a choice for Exception sections, which the word at `index` makes
    fn with_exceptions(mut self, index: u32, choice: Choice) -> Result<Reading, WordFault>
        ensures ok { IfOk result (λ after. with_said self [] (Argument.Exceptions choice) ≡ Ok after) }
        ensures err { IfErr result (IsFaultAt index (with_said self [] (Argument.Exceptions choice))) }
    {
        if conflicts(self.wishes.exceptions(), choice) {
            return Err(bad(index, WordCode::Conflict));
        }
        self.wishes.set_exceptions(choice);
        Ok(self)
    }

    /// With what the word at `index` means. The fault is at that word; `NoMemory` where there is no
    /// memory for a name. Linear in the word.
    pub(crate) fn with_said(
        self,
        alloc: Global,
        index: u32,
        word: &str,
        said: Argument,
    ) -> Result<Reading, WordFault>
        ensures ok { IfOk result (λ after. with_said self word.now said ≡ Ok after) }
        ensures err { IfErr result (IsFaultAt index (with_said self word.now said)) }
    {
        match said {
            Argument::Operand => self.with_operand(alloc, index, word),
            Argument::Target(to) => self.with_target(index, to),
            Argument::Asks(edit) => self.with_edit(edit),
            Argument::Debug(choice) => self.with_debug(index, choice),
            Argument::Exceptions(choice) => self.with_exceptions(index, choice),
            Argument::Faulty(code) => Err(bad(index, code)),
        }
    }

    /// The conversion that all the words ask for, where `count` is their number; the fault is what is
    /// missing. Constant time, no memory.
    pub(crate) fn finish(self, count: u32) -> Result<Job, WordFault>
        ensures ok { IfOk result (λ job. jobs.converted count self.wishes (listed_target self.to) (listed self.names) ≡ Ok job) }
        ensures err { IfErr result (IsFaultOf (jobs.converted count self.wishes (listed_target self.to) (listed self.names))) }
    {
        let Reading { to, wishes, names } = self;
        let Some(to) = to else {
            return Err(bad(count, WordCode::MissingTarget));
        };
        match names {
            Names::NoName | Names::Input(_) => Err(bad(count, WordCode::MissingName)),
            Names::Both(input, output) => Ok(Job::Convert {
                to,
                edits: wishes,
                input,
                output,
            }),
        }
    }
}
