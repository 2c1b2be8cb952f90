//! Relocation entries, alone and in pairs.
ghost use Rattle.std.specs.Prelude.{◌≡◌, ◌&&◌, not, is_none, is_some, true};
ghost use Rattle.oc_macho.specs.Entries as entries;
ghost use Rattle.oc_macho.specs.RelocationFaults as rules;

use crate::meaning::meaning_of;
use crate::relocation_info::{Reference, RelocationInfo};
use oc_base::Word;
use oc_neutral::Less;
use oc_neutral::mach::{GENERIC_RELOC_PAIR, X86_64_RELOC_UNSIGNED};

/// The entries of one field: one that stands alone, or a pair.
#[derive(Clone, Copy, Debug, PartialEq, Eq)]
pub struct Item {
    /// The first of them.
    pub first: RelocationInfo,
    /// The second, of a pair.
    pub second: Option<RelocationInfo>,
}

/// Whether the type of an entry is that of the first of a pair. Constant time.
pub fn is_first(word: Word, e: &RelocationInfo) -> bool
    ensures { result ≡ entries.is_first word e.now }
{
    match meaning_of(word, e) {
        Some(meaning) => matches!(meaning.form.less, Less::Section(_)),
        None => false,
    }
}

// whether an entry is scattered
fn is_scattered(refers: Reference) -> bool
    ensures { result ≡ entries.is_scattered refers }
{
    match refers {
        Reference::Symbol(_) | Reference::Section(_) => false,
        Reference::Address(_) => true,
    }
}

// whether the type of an entry is that of the second of a pair
fn is_second(word: Word, e: &RelocationInfo) -> bool
    ensures { result ≡ entries.is_second word e.now }
{
    match word {
        Word::W32 => is_scattered(e.refers) && e.r_type == GENERIC_RELOC_PAIR,
        Word::W64 => !is_scattered(e.refers) && e.r_type == X86_64_RELOC_UNSIGNED,
    }
}

// whether it has what else a second has
fn is_known_second(word: Word, e: &RelocationInfo) -> bool
    ensures { result ≡ entries.is_known_second word e.now }
{
    match word {
        Word::W32 => e.r_length == 2 && e.r_pcrel == 0,
        Word::W64 => meaning_of(word, e).is_some(),
    }
}

// whether an entry is the second of a pair, and no first is before it
fn is_lone_second(word: Word, e: &RelocationInfo) -> bool
    ensures { result ≡ rules.is_lone_second word e.now }
{
    match word {
        Word::W32 => is_second(word, e) && is_known_second(word, e),
        Word::W64 => false,
    }
}

// whether an entry has the type of a second, and lacks what else a second has
fn is_odd_second(word: Word, e: &RelocationInfo) -> bool
    ensures { result ≡ rules.is_odd_second word e.now }
{
    is_second(word, e) && !is_known_second(word, e)
}

// whether two entries are a pair
fn are_pair(word: Word, e: &RelocationInfo, x: &RelocationInfo) -> bool
    ensures { result ≡ rules.are_pair word e.now x.now }
{
    let apart = match word {
        Word::W32 => false,
        Word::W64 => e.r_address != x.r_address,
    };
    is_second(word, x) && e.r_length == x.r_length && !apart
}

impl Item {
    /// Whether one of the entries is of no known kind. Constant time.
    #[tactic(auto, unfolding(crate::specs::RelocationFaults::is_unknown))]
    pub fn is_unknown(&self, word: Word) -> bool
        ensures { result ≡ rules.is_unknown word self.now }
    {
        if meaning_of(word, &self.first).is_none() && !is_lone_second(word, &self.first) {
            return true;
        }
        match self.second {
            Some(second) => is_odd_second(word, &second),
            None => false,
        }
    }

    /// Whether an entry that must be one of a pair is not. Constant time.
    #[tactic(auto, unfolding(crate::specs::RelocationFaults::is_no_pair))]
    pub fn is_no_pair(&self, word: Word) -> bool
        ensures { result ≡ rules.is_no_pair word self.now }
    {
        if is_lone_second(word, &self.first) {
            return true;
        }
        if !is_first(word, &self.first) {
            return false;
        }
        match self.second {
            Some(second) => !are_pair(word, &self.first, &second),
            None => true,
        }
    }

    /// What the entry that gives the target refers to. Constant time.
    pub fn target(&self, word: Word) -> Reference
        ensures { result ≡ (entries.target_entry word self.now).refers }
    {
        match (word, self.second) {
            (Word::W64, Some(second)) => second.refers,
            (Word::W32, _) | (Word::W64, None) => self.first.refers,
        }
    }

    /// What the entry of a pair that gives what is taken refers to. Constant time.
    pub fn taken(&self, word: Word) -> Option<Reference>
        ensures { result ≡ entries.taken_reference word self.now }
    {
        match self.second {
            None => None,
            Some(second) => match word {
                Word::W32 => Some(second.refers),
                Word::W64 => Some(self.first.refers),
            },
        }
    }
}
