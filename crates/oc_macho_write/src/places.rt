//! Where headers point to: the places of parts by the positions of their sections.
ghost use Rattle.std.specs.Prelude.{◌≡◌, IfOk, length};
ghost use Rattle.oc_base.specs.declared.format.Word.{Word};
ghost use Rattle.oc_neutral.specs.Objects.{Object};
ghost use Rattle.oc_macho_file.specs.Layout as layout;
ghost use Rattle.oc_macho_file.specs.Layout.{parts_of};
ghost use Rattle.oc_macho_write.specs.LaidParts.{begins_by};
ghost use Rattle.oc_macho_write.specs.Parts.{AreParts};
ghost use Rattle.oc_macho_write.specs.Places.{ArePlaces, CanGive, HasRoom, IsBlank, IsGiven, IsGivenIf};

use crate::parts::Part;
use oc_base::NoMemory;
use oc_neutral::Neutral;
use std::alloc::Global;

/// Where parts begin, offsets in the file; 0 where there is no part.
#[derive(Drop)]
pub(crate) struct Places {
    /// Of each section its bytes.
    pub(crate) raws: Vec<u64>,
    /// Of each section its relocation entries.
    pub(crate) relocs: Vec<u64>,
    /// The symbols.
    pub(crate) symbols: u64,
    /// The strings.
    pub(crate) strings: u64,
}

impl Places {
    // the places of nothing yet
    fn new(alloc: Global, neutral: &Neutral) -> Result<Places, NoMemory>
        ensures room { IfOk result (λ places. HasRoom neutral.now places) }
        ensures zero { IfOk result IsBlank }
    {
        let sections = neutral.section_count() as usize;
        Ok(Places {
            raws: vec![in alloc; 0; sections]?,
            relocs: vec![in alloc; 0; sections]?,
            symbols: 0,
            strings: 0,
        })
    }

    // gives a place to a part
    fn give(&mut self, part: Part, place: u64)
        requires { CanGive self.old part }
        ensures room { (n : Object) → HasRoom n self.old → HasRoom n self.new }
        ensures raws { IsGiven layout.is_raw part place self.old.raws.items self.new.raws.items }
        ensures relocs { IsGiven layout.is_relocs part place self.old.relocs.items self.new.relocs.items }
        ensures symbols { IsGivenIf layout.is_symbol_table part place self.old.symbols self.new.symbols }
        ensures strings { IsGivenIf layout.is_string_table part place self.old.strings self.new.strings }
    {
        match part {
            Part::FileHead
            | Part::SegmentHead
            | Part::SectionHeads
            | Part::SymtabHead
            | Part::DysymtabHead => {}
            Part::Raw(k) => self.raws[k as usize] = place,
            Part::Relocs(k) => self.relocs[k as usize] = place,
            Part::SymbolTable => self.symbols = place,
            Part::StringTable => self.strings = place,
        }
    }

    /// The places of these parts, which begin there. `NoMemory` where memory ran out. Linear in the
    /// parts.
    pub(crate) fn of(
        alloc: Global,
        neutral: &Neutral,
        parts: &[Part],
        begins: &[u64],
    ) -> Result<Places, NoMemory>
        requires parts { AreParts neutral.now parts.now }
        requires counted { length begins.now ≡ length parts.now }
        ensures { IfOk result (λ places. (w : Word) → begins.now ≡ begins_by w neutral.now (parts_of neutral.now) → ArePlaces w neutral.now places) }
    {
        let mut places = Places::new(alloc, neutral)?;
        for at in 0..parts.len() {
            places.give(parts[at], begins[at]);
        }
        Ok(places)
    }
}
