//! What headers say of a section and of the file besides names and places (PE/COFF, "Section Flags" and
//! "Machine Types").
ghost use Rattle.std.specs.Prelude.{◌≡◌, ◌+◌, ◌*◌, ◌<◌, ◌≤◌, ◌^◌, if◌then◌else◌, List, length};
ghost use Rattle.std.specs.Option.{option_map_or};
ghost use Rattle.oc_coff.specs.Flags as flags;
ghost use Rattle.oc_coff.specs.declared.relocation.Relocation.{Relocation as Entry};

use crate::alignment::align_field;
use crate::constants::{BIG_VERSION, IMAGE_FILE_MACHINE_AMD64, IMAGE_FILE_MACHINE_I386};
use crate::counts::is_crowded;
use crate::form::Shape;
use oc_base::Word;
use oc_neutral::Section;
use oc_neutral::coff::{IMAGE_SCN_ALIGN_1BYTES, IMAGE_SCN_LNK_COMDAT, IMAGE_SCN_LNK_NRELOC_OVFL};

/// The machine of a word. Constant time.
pub fn machine_of(word: Word) -> u16
    ensures { result ≡ flags.machine_of word }
{
    match word {
        Word::W32 => IMAGE_FILE_MACHINE_I386,
        Word::W64 => IMAGE_FILE_MACHINE_AMD64,
    }
}

/// A pointer to a part of that many bytes or entries: 0 where it has none. Constant time.
pub fn pointer_to(place: u64, size: usize) -> u32
    requires { place < 2 ^ 32 }
    ensures { result ≡ flags.pointer_to place size }
{
    if size == 0 { 0 } else { place as u32 }
}

/// The version of a shape. Constant time.
pub fn version_of(shape: Shape) -> u16
    ensures { result ≡ flags.version_of shape }
{
    match shape {
        Shape::Usual => 0,
        Shape::Big => BIG_VERSION,
    }
}

// the flag of a section of which there are copies, where it is in a group
fn comdat_flag(group: Option<u32>) -> u32
    ensures flag { result ≡ option_map_or (λ g. IMAGE_SCN_LNK_COMDAT) group 0 }
    ensures small { result ≤ 2 ^ 12 }
{
    match group {
        Some(_) => IMAGE_SCN_LNK_COMDAT,
        None => 0,
    }
}

// the flag of a section with more relocations than its header can count
fn overflow_flag(relocs: usize) -> u32
    ensures flag { (entries : List Entry) → length entries ≡ relocs → result ≡ (if flags.is_crowded entries then IMAGE_SCN_LNK_NRELOC_OVFL else 0) }
    ensures small { result ≤ 2 ^ 24 }
{
    if is_crowded(relocs) {
        IMAGE_SCN_LNK_NRELOC_OVFL
    } else {
        0
    }
}

/// The characteristics of a section with so many relocations, whose tag leaves room for its alignment
/// and for both flags. Constant time.
pub fn section_flags(section: &Section, relocs: usize) -> u32
    requires { section.now.tag + flags.align_field section.now.align * IMAGE_SCN_ALIGN_1BYTES + 2 ^ 12 + 2 ^ 24 < 2 ^ 32 }
    ensures { (entries : List Entry) → length entries ≡ relocs → result ≡ flags.section_flags section.now entries }
{
    let align = align_field(section.align) * IMAGE_SCN_ALIGN_1BYTES;
    let comdat = comdat_flag(section.group);
    let overflow = overflow_flag(relocs);
    section.tag as u32 + align + comdat + overflow
}
