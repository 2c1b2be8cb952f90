//! The bytes of sections: in ELF32 with the addends of relocations in their fields (gABI, "Relocation").
ghost use Rattle.std.specs.Prelude.{◌≡◌, ◌<◌, ℕ, length};
ghost use Rattle.oc_base.specs.declared.format.Word.TheVariants.{W32};
ghost use Rattle.oc_chains.specs.Lists.{list_of};
ghost use Rattle.oc_neutral.specs.Constants.{LieWithin};
ghost use Rattle.oc_elf_write.specs.Raws.{AreHeld, with_addends};

use crate::forms::field_number;
use oc_base::Word;
use oc_neutral::{Reloc, Relocs, Section};
use oc_plans::{FieldNumbers, with_numbers};

/// The addends of relocations, which the fields of ELF32 hold.
struct Addends;

impl FieldNumbers for Addends {
    ghost use Rattle.std.specs.Prelude.{◌≡◌};
    ghost use Rattle.oc_elf_write.specs.Raws.{addend_in, IsHeld};

    ghost tells = { λ x number_of. number_of ≡ addend_in };

    ghost knows = { λ x position at r. IsHeld r };

    fn number(&self, _position: u32, _at: u32, reloc: Reloc) -> u64 {
        field_number(reloc)
    }
}

/// The sections with the addends of relocations in their bytes, where the entries have none.
/// Linear in the sections and relocations, no memory.
pub(crate) fn with_addends(word: Word, relocs: &Relocs, sections: Vec<Section>) -> Vec<Section>
    requires held { word ≡ W32 → (k : ℕ) → k < length relocs.now.lists → AreHeld (list_of relocs.now.lists k) }
    requires within { LieWithin sections.items relocs.now.lists }
    ensures { result.items ≡ with_addends word relocs.now.lists sections.items }
{
    match word {
        Word::W32 => with_numbers(&Addends, relocs, sections),
        Word::W64 => sections,
    }
}
