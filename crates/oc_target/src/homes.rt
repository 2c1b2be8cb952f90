//! Where the kinds of sections are at home in a target: names and tags across formats.
ghost use Rattle.std.specs.Prelude.{◌≡◌};
ghost use Rattle.oc_neutral.specs.Family as family;
ghost use Rattle.oc_neutral.specs.HomeNames as names;
ghost use Rattle.oc_neutral.specs.HomeNames.{home_of};
ghost use Rattle.oc_neutral.specs.Coff.Family.{coff_home};
ghost use Rattle.oc_neutral.specs.Elf.Family.{elf_home};
ghost use Rattle.oc_neutral.specs.Mach.Family.{mach_home};
ghost use Rattle.oc_neutral.specs.Omf.Family.{omf_home};
ghost use Rattle.oc_target.specs.Homes.{meant_home};

use crate::formats::same_format;
use oc_base::Format;
use oc_neutral::coff::{
    CODE_TAG, IMAGE_SCN_CNT_INITIALIZED_DATA, IMAGE_SCN_CNT_UNINITIALIZED_DATA, IMAGE_SCN_MEM_READ,
    IMAGE_SCN_MEM_WRITE,
};
use oc_neutral::elf::{
    SHF_ALLOC, SHF_EXECINSTR, SHF_WRITE, SHT_FINI_ARRAY, SHT_INIT_ARRAY, SHT_NOBITS, SHT_PROGBITS,
    elf_tag,
};
use oc_neutral::mach::{
    S_ATTR_PURE_INSTRUCTIONS, S_ATTR_SOME_INSTRUCTIONS, S_MOD_INIT_FUNC_POINTERS,
    S_MOD_TERM_FUNC_POINTERS, S_REGULAR, S_ZEROFILL,
};
use oc_neutral::{Kind, Section};

/// Where a kind is at home in a format.
#[derive(Clone, Copy)]
pub(crate) struct Home {
    /// The name of its sections; where there is none, a section keeps its own.
    pub(crate) name: Option<&'static [u8]>,
    /// Their tag.
    pub(crate) tag: u64,
}

// under that name
fn named(name: &'static [u8], tag: u64) -> Option<Home>
    ensures { meant_home result ≡ family.named name.now tag }
{
    Some(Home {
        name: Some(name),
        tag,
    })
}

// under the section's own name
fn unnamed(tag: u64) -> Option<Home>
    ensures { meant_home result ≡ family.unnamed tag }
{
    Some(Home { name: None, tag })
}

// in ELF
fn elf_home(kind: Kind) -> Option<Home>
    ensures { meant_home result ≡ elf_home kind }
{
    let allocated = elf_tag(SHT_PROGBITS, SHF_ALLOC);
    match kind {
        Kind::Code => named(b".text", elf_tag(SHT_PROGBITS, SHF_ALLOC + SHF_EXECINSTR)),
        Kind::ReadOnly => named(b".rodata", allocated),
        Kind::Data => named(b".data", elf_tag(SHT_PROGBITS, SHF_WRITE + SHF_ALLOC)),
        Kind::Zero => named(b".bss", elf_tag(SHT_NOBITS, SHF_WRITE + SHF_ALLOC)),
        Kind::Init => named(
            b".init_array",
            elf_tag(SHT_INIT_ARRAY, SHF_WRITE + SHF_ALLOC),
        ),
        Kind::Fini => named(
            b".fini_array",
            elf_tag(SHT_FINI_ARRAY, SHF_WRITE + SHF_ALLOC),
        ),
        Kind::Exception => unnamed(allocated),
        Kind::Debug | Kind::Note => None,
    }
}

/// The flags of a section of data of COFF, which can be read.
const COFF_DATA: u32 = IMAGE_SCN_CNT_INITIALIZED_DATA + IMAGE_SCN_MEM_READ;
/// The flags of its zeros.
const COFF_ZERO: u32 = IMAGE_SCN_CNT_UNINITIALIZED_DATA + IMAGE_SCN_MEM_READ + IMAGE_SCN_MEM_WRITE;

// in COFF
fn coff_home(kind: Kind) -> Option<Home>
    ensures { meant_home result ≡ coff_home kind }
{
    match kind {
        Kind::Code => named(b".text", CODE_TAG.into()),
        Kind::ReadOnly => named(b".rdata", COFF_DATA.into()),
        Kind::Data => named(b".data", (COFF_DATA + IMAGE_SCN_MEM_WRITE).into()),
        Kind::Zero => named(b".bss", COFF_ZERO.into()),
        Kind::Init => named(b".CRT$XCU", COFF_DATA.into()),
        Kind::Fini => named(b".CRT$XTU", COFF_DATA.into()),
        Kind::Exception => unnamed(COFF_DATA.into()),
        Kind::Debug | Kind::Note => None,
    }
}

/// The flags of instructions in Mach-O.
const MACH_CODE: u32 = S_ATTR_PURE_INSTRUCTIONS + S_ATTR_SOME_INSTRUCTIONS;

// in Mach-O, by whether the section has relocations
fn mach_home(relocated: bool, kind: Kind) -> Option<Home>
    ensures { meant_home result ≡ mach_home relocated kind }
{
    match kind {
        Kind::Code => named(b"__TEXT,__text", MACH_CODE.into()),
        Kind::ReadOnly if relocated => named(b"__DATA,__const", S_REGULAR.into()),
        Kind::ReadOnly => named(b"__TEXT,__const", S_REGULAR.into()),
        Kind::Data => named(b"__DATA,__data", S_REGULAR.into()),
        Kind::Zero => named(b"__DATA,__bss", S_ZEROFILL.into()),
        Kind::Init => named(b"__DATA,__mod_init_func", S_MOD_INIT_FUNC_POINTERS.into()),
        Kind::Fini => named(b"__DATA,__mod_term_func", S_MOD_TERM_FUNC_POINTERS.into()),
        Kind::Exception | Kind::Debug | Kind::Note => None,
    }
}

// in OMF
fn omf_home(kind: Kind) -> Option<Home>
    ensures { meant_home result ≡ omf_home kind }
{
    match kind {
        Kind::Code => named(b"_TEXT", 0),
        Kind::ReadOnly => named(b"CONST", 0),
        Kind::Data => named(b"_DATA", 0),
        Kind::Zero => named(b"_BSS", 0),
        Kind::Init | Kind::Fini | Kind::Exception | Kind::Debug | Kind::Note => None,
    }
}

/// Where a kind is at home in a target, by whether the section has relocations there. Constant time.
pub(crate) fn home_of(target: Format, relocated: bool, kind: Kind) -> Option<Home>
    ensures { meant_home result ≡ home_of target relocated kind }
{
    match target {
        Format::Elf32 | Format::Elf64 | Format::BigElf32 | Format::BigElf64 => elf_home(kind),
        Format::Coff32 | Format::Coff64 | Format::BigCoff32 | Format::BigCoff64 => coff_home(kind),
        Format::Mac32 | Format::Mac64 => mach_home(relocated, kind),
        Format::Omf => omf_home(kind),
    }
}

/// The tag of a section of an object of another format in a target; its own where its kind has no home
/// there. Constant time.
#[tactic(auto, unfolding(oc_neutral::specs::HomeNames::output_tag))]
pub(crate) fn output_tag(target: Format, from: Format, section: &Section) -> u64
    ensures { result ≡ names.output_tag target from section.now }
{
    if same_format(target, from) {
        return section.tag;
    }
    match home_of(target, false, section.kind) {
        Some(home) => home.tag,
        None => section.tag,
    }
}
