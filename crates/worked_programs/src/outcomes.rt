//! What came of a run, as a line and the text that was shown.
use anyhow::Result;
use oc_base::NoMemory;
use oc_outside::MemConsole;
use oc_words::Words;
use std::alloc::Global;
use std::fmt;
use std::fmt::{Display, Formatter, Write};

/// How many bytes of a text are printed; of a longer one its length is.
const MOST: usize = 1000;

/// A call of a device, by its number, counted from 1.
#[derive(Clone, Copy)]
pub enum Call {
    File(u64),
    Console(u64),
}

/// What came of a run.
#[derive(Debug, PartialEq, Eq, Drop)]
pub struct Outcome {
    pub status: u8,
    pub told: String,
    pub shown: String,
    /// Whether each file is as it was.
    pub calm: bool,
}

impl Outcome {
    /// Of a run with this status over this console.
    pub fn of(alloc: Global, status: u8, console: &MemConsole, calm: bool) -> Result<Outcome> {
        Ok(Outcome {
            status,
            told: String::from_utf8(console.told().to_vec(alloc)?)?,
            shown: String::from_utf8(console.shown().to_vec(alloc)?)?,
            calm,
        })
    }
}

impl Display for Outcome {
    fn fmt<W: Write>(&self, f: &mut Formatter<W>) -> fmt::Result {
        let (status, told) = (self.status, self.told.as_str().trim_end());
        write!(f, "status {status}, \"{told}\"")?;
        if !self.calm {
            write!(f, ", and a file changed")?;
        }
        let shown = self.shown.len();
        if shown > MOST {
            write!(f, ", and {shown} bytes shown")?;
        } else if shown > 0 {
            write!(f, ", and shown\n{}", self.shown.as_str().trim_end())?;
        }
        Ok(())
    }
}

/// Prints what came of a run.
pub fn show(rt: &impl Print, name: &str, outcome: &Outcome) -> Result<()> {
    println!(rt; "{name}: {outcome}")?;
    Ok(())
}

/// Adds a word.
fn add_word(words: &mut Words, word: &str) -> Result<(), NoMemory> {
    if words.count() == u32::MAX {
        return Err(NoMemory);
    }
    words.push(word)
}

/// These words.
pub fn words_of(alloc: Global, list: &[&str]) -> Result<Words, NoMemory> {
    let mut words = Words::new(alloc);
    for word in list {
        add_word(&mut words, word)?;
    }
    Ok(words)
}
