//! Options that name symbols: `HEAD:OLD:NEW` and `HEAD:NAME`.
ghost use Rattle.std.specs.Prelude.{◌≡◌, IfOk};
ghost use Rattle.oc_words.specs.Texts.{looked_up};
ghost use Rattle.oc_words.specs.Options as options;

use crate::fault::WordCode;
use crate::option::Argument;
use crate::text::cut;
use oc_base::{Bytes, NoMemory};
use oc_names::Edit;
use std::alloc::Global;

/// The head of an option that takes an old and a new name.
#[derive(Clone, Copy)]
pub enum PairHead {
    /// `-nr`
    Rename,
    /// `-np`
    Prefix,
    /// `-ns`
    Suffix,
    /// `-ar`
    Alias,
    /// `-ap`
    AliasPrefix,
    /// `-as`
    AliasSuffix,
}

/// The head of an option that takes one name.
#[derive(Clone, Copy)]
pub enum NameHead {
    /// `-nw`
    Weaken,
    /// `-nl`
    MakeLocal,
}

/// The head of an option that names symbols.
#[derive(Clone, Copy)]
pub enum OptionHead {
    /// An old and a new name follow.
    OfPair(PairHead),
    /// One name follows.
    OfName(NameHead),
}

// the head with this text
fn head_of(text: &str) -> Option<OptionHead>
    ensures { result ≡ looked_up options.heads text.now }
{
    if text == "-nr" {
        Some(OptionHead::OfPair(PairHead::Rename))
    } else if text == "-np" {
        Some(OptionHead::OfPair(PairHead::Prefix))
    } else if text == "-ns" {
        Some(OptionHead::OfPair(PairHead::Suffix))
    } else if text == "-ar" {
        Some(OptionHead::OfPair(PairHead::Alias))
    } else if text == "-ap" {
        Some(OptionHead::OfPair(PairHead::AliasPrefix))
    } else if text == "-as" {
        Some(OptionHead::OfPair(PairHead::AliasSuffix))
    } else if text == "-nw" {
        Some(OptionHead::OfName(NameHead::Weaken))
    } else if text == "-nl" {
        Some(OptionHead::OfName(NameHead::MakeLocal))
    } else {
        None
    }
}

impl PairHead {
    // whether the new name may be empty
    fn takes_empty(self) -> bool
        ensures { result ≡ options.takes_empty self }
    {
        match self {
            PairHead::Rename | PairHead::Alias => false,
            PairHead::Prefix | PairHead::Suffix | PairHead::AliasPrefix | PairHead::AliasSuffix =>
                true,
        }
    }

    // the edit from one name to another
    fn edit(self, from: Bytes, to: Bytes) -> Edit
        ensures { result ≡ options.pair_edit self from to }
    {
        match self {
            PairHead::Rename => Edit::Rename { from, to },
            PairHead::Prefix => Edit::Prefix { from, to },
            PairHead::Suffix => Edit::Suffix { from, to },
            PairHead::Alias => Edit::Alias { from, to },
            PairHead::AliasPrefix => Edit::AliasPrefix { from, to },
            PairHead::AliasSuffix => Edit::AliasSuffix { from, to },
        }
    }
}

impl NameHead {
    // the edit of a name
    fn edit(self, name: Bytes) -> Edit
        ensures { result ≡ options.name_edit self name }
    {
        match self {
            NameHead::Weaken => Edit::Weaken { name },
            NameHead::MakeLocal => Edit::MakeLocal { name },
        }
    }
}

// what an old and a new name say
fn said_pair(alloc: Global, head: PairHead, old: &str, new: &str) -> Result<Argument, NoMemory>
    ensures { IfOk result (λ said. said ≡ options.said_pair head (record { before = old.now; after = new.now })) }
{
    if old.is_empty() || (new.is_empty() && !head.takes_empty()) {
        return Ok(Argument::Faulty(WordCode::BadPair));
    }
    let from = Bytes::from_slice(alloc, old.as_bytes())?;
    let to = Bytes::from_slice(alloc, new.as_bytes())?;
    Ok(Argument::Asks(head.edit(from, to)))
}

// what one name means
fn said_name(alloc: Global, head: NameHead, name: &str) -> Result<Argument, NoMemory>
    ensures { IfOk result (λ said. said ≡ options.said_name head name.now) }
{
    if name.is_empty() {
        return Ok(Argument::Faulty(WordCode::BadPair));
    }
    let name = Bytes::from_slice(alloc, name.as_bytes())?;
    Ok(Argument::Asks(head.edit(name)))
}

// what a head means with the text after its colon
fn said_with(alloc: Global, head: OptionHead, text: &str) -> Result<Argument, NoMemory>
    ensures { IfOk result (λ said. said ≡ options.said_with head text.now) }
{
    match head {
        OptionHead::OfPair(head) => match cut(text) {
            Some((old, new)) => said_pair(alloc, head, old, new),
            None => Ok(Argument::Faulty(WordCode::BadPair)),
        },
        OptionHead::OfName(head) => said_name(alloc, head, text),
    }
}

// what an option that is cut at its first colon means
fn said_cut(alloc: Global, head: &str, text: &str) -> Result<Argument, NoMemory>
    ensures { IfOk result (λ said. said ≡ options.said_cut (record { before = head.now; after = text.now })) }
{
    match head_of(head) {
        Some(head) => said_with(alloc, head, text),
        None => Ok(Argument::Faulty(WordCode::UnknownOption)),
    }
}

// what an option that has no colon means
fn said_bare(word: &str) -> Argument
    ensures { result ≡ options.said_bare word.now }
{
    match head_of(word) {
        Some(_) => Argument::Faulty(WordCode::BadPair),
        None => Argument::Faulty(WordCode::UnknownOption),
    }
}

/// What an option with a head means. `NoMemory` where there is no memory for the names. Linear.
pub(crate) fn headed_word(alloc: Global, word: &str) -> Result<Argument, NoMemory>
    ensures { IfOk result (λ said. said ≡ options.headed_word word.now) }
{
    match cut(word) {
        Some((head, text)) => said_cut(alloc, head, text),
        None => Ok(said_bare(word)),
    }
}
