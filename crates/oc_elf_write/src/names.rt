//! The names of section headers, and where names lie in a string table.
ghost use Rattle.std.specs.Prelude.{◌≡◌, ◌++◌, ℕ, List, IfOk, IsSome, Some};
ghost use Rattle.oc_elf_file.specs.Heads as elf_heads;
ghost use Rattle.oc_elf_file.specs.Symbols as symbols;
ghost use Rattle.oc_elf_write.specs.Heads.{head_in};
ghost use Rattle.oc_elf_write.specs.Strings.{HasPlace, table_with};

use crate::heads::Head;
use oc_base::{Bytes, NoMemory, Word};
use oc_elf::ElfClass;
use oc_neutral::Neutral;
use oc_strings::Table;
use std::alloc::Global;

/// The offset of a name in a string table; the empty one lies before those that were given. Others are
/// looked for first at the position `near` among these: time as for `Table::offset_near`.
pub(crate) fn offset_in(names: &Table, near: usize, name: &[u8]) -> u32
    requires { HasPlace names.now name.now }
    ensures { (given : List (List ℕ)) → names.now ≡ table_with given → result ≡ symbols.offset_in given name.now }
{
    if name.is_empty() {
        return 0;
    }
    names.offset_near(near, name).unwrap()
}

// what comes before the name of a section in that of its relocation table
fn reloc_prefix(word: Word) -> &'static [u8]
    ensures { result.now ≡ elf_heads.reloc_prefix word }
{
    match word {
        Word::W32 => b".rel",
        Word::W64 => b".rela",
    }
}

// the name of the relocation table of a section
fn table_name(alloc: Global, word: Word, section: &[u8]) -> Result<Bytes, NoMemory>
    ensures { IfOk result (λ name. name ≡ elf_heads.reloc_prefix word ++ section.now) }
{
    let mut name = Vec::new(alloc);
    name.extend_from_slice(reloc_prefix(word))?;
    name.extend_from_slice(section)?;
    Ok(Bytes::from_vec(name))
}

/// The name of a section header. `NoMemory` where memory ran out. Linear in the name.
pub(crate) fn head_name(
    alloc: Global,
    class: ElfClass,
    neutral: &Neutral,
    head: Head,
) -> Result<Bytes, NoMemory>
    requires { IsSome (head_in neutral.now head) }
    ensures { IfOk result (λ name. (is : elf_heads.Head) → head_in neutral.now head ≡ Some is → name ≡ elf_heads.head_name class is) }
{
    match head {
        Head::Null => Bytes::from_slice(alloc, b""),
        Head::Group(_) => Bytes::from_slice(alloc, b".group"),
        Head::Section(k) => Bytes::from_slice(alloc, neutral.section(k).name.as_slice()),
        Head::Relocs(k) => table_name(alloc, class.word(), neutral.section(k).name.as_slice()),
        Head::Symtab => Bytes::from_slice(alloc, b".symtab"),
        Head::Shndx => Bytes::from_slice(alloc, b".symtab_shndx"),
        Head::Strtab => Bytes::from_slice(alloc, b".strtab"),
        Head::Shstrtab => Bytes::from_slice(alloc, b".shstrtab"),
    }
}
