//! The command's words.
ghost use Rattle.std.specs.Prelude.{◌≡◌, ◌+◌, ◌-◌, ◌^◌, ◌<◌, ◌≤◌, Some, [], ◌∷◌, ◌++◌, length, slice_get, OnOk, OnErr};

use oc_base::{NoMemory, Text};
use std::alloc::Global;
use std::marker::Model;

/// The words of a command, without the program's name. Contracts see a list of texts.
#[derive(Debug, Drop)]
pub struct Words {
    alloc: Global,
    texts: Vec<Text>,
}

impl Model for Words {
    ghost use Rattle.std.specs.Prelude.{◌-◌, ◌^◌, ◌≤◌, ℕ, List, length};

    ghost Value = { List (List ℕ) };

    ghost view = { λ w. w.texts.items };

    ghost invariant = { λ w. length w.texts.items ≤ 2 ^ 32 - 1 };
}

impl Words {
    /// No words. Constant time, no memory.
    pub fn new(alloc: Global) -> Words
        ensures { result ≡ [] }
    {
        Words {
            alloc,
            texts: Vec::new(alloc),
        }
    }

    /// Adds a copy of a word after the others. `NoMemory` leaves the words as they were. Amortized
    /// linear in the word.
    pub fn push(&mut self, word: &str) -> Result<(), NoMemory>
        requires { length self.old < 2 ^ 32 - 1 }
        ensures ok { OnOk result (self.new ≡ self.old ++ word.now ∷ []) }
        ensures err { OnErr result (self.new ≡ self.old) }
    {
        let text = Text::from_str(self.alloc, word)?;
        self.texts.push(text)?;
        Ok(())
    }

    /// How many words there are. Constant time, no memory.
    pub fn count(&self) -> u32
        ensures { result ≡ length self.now }
    {
        self.texts.len() as u32
    }

    /// The word at `index`, counted from 0. Constant time, no memory.
    pub fn word(&self, index: u32) -> &str
        requires { index < length self.now }
        ensures { slice_get self.now index ≡ Some result.now }
    {
        let text = &self.texts[index as usize];
        text.as_str()
    }
}
