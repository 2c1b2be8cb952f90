//! Why words are no job.

use oc_base::NoMemory;
use thiserror::Error;

/// What is wrong with a word.
#[derive(Clone, Copy, Debug, PartialEq, Eq)]
pub enum WordCode {
    /// It begins with `-` and is none of the options.
    UnknownOption,
    /// It is a second `-fTARGET`.
    SecondTarget,
    /// It is an option that names symbols, and lacks a colon, or a name that may not be empty.
    BadPair,
    /// A choice to strip or to keep comes before it, and it chooses the other.
    Conflict,
    /// It is one name more than the command takes.
    ExtraName,
    /// It is the name of the output, and equals that of the input.
    SameFile,
    /// The N of `--make=N` is no decimal of 1 to 100,000 without a leading zero.
    BadNumber,
    /// The target of `--make` is none of the formats for few sections.
    BadTarget,
    /// There is no target.
    MissingTarget,
    /// The name of the input or of the output is not there.
    MissingName,
}

/// Why words are no job.
#[derive(Clone, Copy, Debug, PartialEq, Eq, Error)]
pub enum WordFault {
    /// The first word at fault.
    #[error("a word is at fault")]
    Bad {
        /// Its index, counted from 0 without the program's name; the number of words where one is
        /// missing.
        index: u32,
        /// What is wrong with it.
        code: WordCode,
    },
    /// Memory ran out.
    #[error("out of memory")]
    NoMemory,
}

impl From<NoMemory> for WordFault {
    ghost use Rattle.std.specs.Prelude.{◌≡◌};
    ghost use Rattle.oc_words.specs.declared.fault.WordFault.TheVariants as fault;

    ghost from_gives = { λ _ e. e ≡ fault.NoMemory };

    fn from(_: NoMemory) -> WordFault {
        WordFault::NoMemory
    }
}
