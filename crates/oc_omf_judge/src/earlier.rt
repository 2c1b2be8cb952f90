//! Symbols of the entries so far.
ghost use Rattle.std.specs.Prelude.{[], IfOk};
ghost use Rattle.oc_omf_judge.specs.EarlierSymbols.{AreEarlierSymbols, IsNameTaken};
ghost use Rattle.oc_omf.specs.Tables.{tables_of};

use crate::held::take_up;
use oc_base::NoMemory;
use oc_omf::Segment;
use std::alloc::Global;
use std::collections::BTreeMap;

/// A symbol that is defined elsewhere, or a communal.
#[derive(Drop)]
pub struct SeenExternal<'a> {
    /// Whether it is of this module alone.
    pub local: bool,
    /// Its name.
    pub name: &'a [u8],
}

/// What symbols the entries so far have.
#[derive(Drop)]
pub struct EarlierSymbols<'a> {
    /// The segments.
    pub segments: Vec<Segment>,
    /// Of each group, the index of its name.
    pub groups: Vec<u16>,
    /// The names of symbols that this module alone sees.
    pub locals: BTreeMap<&'a [u8], u32>,
    /// The names of symbols that other modules see.
    pub globals: BTreeMap<&'a [u8], u32>,
    /// The names of communals, each with its length.
    pub communals: BTreeMap<&'a [u8], u32>,
    /// The externals and communals.
    pub externals: Vec<SeenExternal<'a>>,
}

impl<'a> EarlierSymbols<'a> {
    /// Nothing. No memory.
    pub fn new(alloc: Global) -> EarlierSymbols<'a>
        ensures { AreEarlierSymbols (tables_of []) result }
    {
        EarlierSymbols {
            segments: Vec::new(alloc),
            groups: Vec::new(alloc),
            locals: BTreeMap::new(alloc),
            globals: BTreeMap::new(alloc),
            communals: BTreeMap::new(alloc),
            externals: Vec::new(alloc),
        }
    }

    /// Records the name of a definition, and gives whether it was there already. `NoMemory` where
    /// memory ran out. The time is that of about log2(n) comparisons of names.
    pub fn take_name(&mut self, local: bool, name: &'a [u8]) -> Result<bool, NoMemory>
        ensures { IfOk result (λ again. IsNameTaken self.old local name.now again self.new) }
    {
        if local {
            let before = take_up(&mut self.locals, name, 0)?;
            return Ok(before.is_some());
        }
        let before = take_up(&mut self.globals, name, 0)?;
        Ok(before.is_some())
    }
}
