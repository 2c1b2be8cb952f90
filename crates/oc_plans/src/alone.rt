//! A smallest object, for trials of plans.
ghost use Rattle.std.specs.Prelude.{◌≡◌, IfOk};
ghost use Rattle.oc_target.specs.Fitted.{CanFit};
ghost use Rattle.oc_neutral.specs.Invariants.{HasItsBytes};
ghost use Rattle.oc_plans.specs.Alone.{IsData, elf_of};

use oc_base::{Bytes, Format, NoMemory, Word, word_of};
use oc_neutral::{BuildFault, Builder, Kind, Neutral, Section};
use std::alloc::Global;

/// The tag of a section of data of ELF: SHT_PROGBITS, above the bits for SHF_WRITE and SHF_ALLOC.
const DATA: u64 = 11;

// a section of data of ELF, of so many sevens
fn data(alloc: Global, size: u32) -> Result<Section, NoMemory>
    ensures bytes { IfOk result HasItsBytes }
    ensures data { IfOk result IsData }
{
    Ok(Section {
        name: Bytes::from_slice(alloc, b".data")?,
        kind: Kind::Data,
        align: 16,
        size,
        bytes: Bytes::from_vec(vec![in alloc; 7u8; size as usize]?),
        tag: DATA,
        number: 1,
        group: None,
    })
}

// ELF of a word
fn elf_of(word: Word) -> Format
    ensures { result ≡ elf_of word }
{
    match word {
        Word::W32 => Format::Elf32,
        Word::W64 => Format::Elf64,
    }
}

/// An ELF object of the target's word that can be fitted to the target: one section of data, of so many
/// sevens, and nothing else. `Limit` where that is above a limit, `NoMemory` where memory ran out. Linear
/// in the size.
pub fn object_of_data(alloc: Global, target: Format, size: u32) -> Result<Neutral, BuildFault>
    ensures { IfOk result (CanFit target) }
{
    let mut builder = Builder::new(alloc, elf_of(word_of(target)));
    builder.add_section(data(alloc, size)?)?;
    Ok(builder.finish())
}
