//! The groups, sections and symbols of the object, before its relocations.
ghost use Rattle.std.specs.Prelude.{◌≡◌, length, None, IfOk};
ghost use Rattle.oc_linking.specs.FirstFault.{stage_fault};
ghost use Rattle.oc_shelf.specs.Reading.Slots.{AreSlots};
ghost use Rattle.oc_coff.specs.Forms.{format_by};
ghost use Rattle.oc_coff.specs.SectionFaults.{section_stage};
ghost use Rattle.oc_coff.specs.SymbolFaults.{symbol_stage};
ghost use Rattle.oc_coff.specs.Files as files;
ghost use Rattle.oc_coff_read.specs.Adding.{started};
ghost use Rattle.oc_coff_judge.specs.Found.{IsFound};
ghost use Rattle.oc_coff_judge.specs.Tagged.{symbol_position};

use crate::built_groups::add_groups;
use crate::built_sections::{Memberships, add_sections};
use crate::built_symbols::{Positions, add_symbols};
use oc_base::{Format, NoMemory, Word};
use oc_coff::{Coff, Shape};
use oc_coff_judge::Found;
use oc_neutral::Builder;
use oc_shelf::Slots;
use std::alloc::Global;

// the format of a word and a shape
fn format_of(word: Word, shape: Shape) -> Format
    ensures { result ≡ format_by word shape }
{
    match (word, shape) {
        (Word::W32, Shape::Usual) => Format::Coff32,
        (Word::W64, Shape::Usual) => Format::Coff64,
        (Word::W32, Shape::Big) => Format::BigCoff32,
        (Word::W64, Shape::Big) => Format::BigCoff64,
    }
}

/// The groups, sections and symbols of a file that are carried, by what was found in it, where
/// `symbols` has the position of each symbol, by its entry. `NoMemory` where memory ran out. Linear in
/// the sections and the symbols, their names, and the bytes of sections.
pub(crate) fn start(
    alloc: Global,
    word: Word,
    coff: &Coff,
    found: &Found,
    symbols: &Slots,
) -> Result<Builder, NoMemory>
    requires sections { stage_fault (section_stage coff.now.bytes (files.tables_in coff.now)) ≡ None }
    requires symbols { stage_fault (symbol_stage (files.tables_in coff.now)) ≡ None }
    requires found { IsFound coff.now found.now }
    requires positions { AreSlots (symbol_position (files.tables_in coff.now)) (length (files.tables_in coff.now).entries) symbols.now }
    ensures { IfOk result (λ b. b ≡ started word coff.now) }
{
    let mut builder = Builder::new(alloc, format_of(word, coff.shape()));
    let owners = found.owners();
    let begun = add_groups(alloc, word, coff, &owners, &mut builder)?;
    let known = Memberships {
        owners: &owners,
        begun: &begun,
    };
    add_sections(alloc, word, coff, &known, &mut builder)?;
    let positions = Positions {
        sections: &found.sections,
        tagged: &found.tagged,
        symbols,
    };
    let numbers = found.numbers.as_slice();
    add_symbols(alloc, word, coff, numbers, &positions, &mut builder)?;
    Ok(builder)
}
