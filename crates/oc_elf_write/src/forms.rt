//! How the form and the addend of a relocation are written (i386 and x86-64 psABI, "Relocation Types").
ghost use Rattle.std.specs.Prelude.{◌≡◌, IsSome};
ghost use Rattle.oc_neutral.specs.Spelling.{written_row};
ghost use Rattle.oc_elf.specs.Classes.{format_of};
ghost use Rattle.oc_elf_file.specs.Bodies as bodies;
ghost use Rattle.oc_elf_write.specs.Raws.{IsHeld};

use oc_algebra::{residue, to_field};
use oc_base::Word;
use oc_elf::ElfClass;
use oc_neutral::Reloc;
use oc_target::{Spelling, lookup};

/// The type of a relocation that the format has. Constant time.
#[tactic(auto, unfolding(oc_elf_file::specs::Bodies::type_of))]
pub(crate) fn type_of(class: ElfClass, reloc: Reloc) -> u32
    requires { IsSome (written_row (format_of class) reloc.form reloc.hint) }
    ensures { result ≡ bodies.type_of class reloc }
{
    match lookup(class.format(), reloc.form, reloc.hint) {
        Ok(Spelling::One(number) | Spelling::Pair(number, _)) => u32::from(number),
        Err(_) => unreachable!(),
    }
}

/// The number in the field of a relocation of ELF32: its addend, which the field holds. Constant time.
pub(crate) fn field_number(reloc: Reloc) -> u64
    requires { IsHeld reloc }
    ensures { result ≡ bodies.field_number reloc }
{
    to_field(Word::W32, reloc.form.width, 0, reloc.addend).unwrap()
}

/// The addend in the entry of a relocation: ELF32 has none. Constant time.
pub(crate) fn addend_of(word: Word, reloc: Reloc) -> u64
    ensures { result ≡ bodies.addend_of word reloc }
{
    match word {
        Word::W32 => 0,
        Word::W64 => residue(Word::W64, i128::from(reloc.addend)),
    }
}
