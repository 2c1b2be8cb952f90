//! What the types of relocation entries mean.
ghost use Rattle.std.specs.Prelude.{◌≡◌};
ghost use Rattle.oc_base.specs.declared.format.Word.TheVariants.{W32, W64};
ghost use Rattle.oc_macho.specs.Meanings as meanings;

use crate::relocation_info::{Reference, RelocationInfo};
use oc_base::Word;
use oc_neutral::mach::{
    GENERIC_RELOC_LOCAL_SECTDIFF, GENERIC_RELOC_SECTDIFF, GENERIC_RELOC_VANILLA,
    X86_64_RELOC_BRANCH, X86_64_RELOC_GOT, X86_64_RELOC_GOT_LOAD, X86_64_RELOC_SIGNED,
    X86_64_RELOC_SIGNED_1, X86_64_RELOC_SIGNED_2, X86_64_RELOC_SIGNED_4, X86_64_RELOC_SUBTRACTOR,
    X86_64_RELOC_UNSIGNED,
};
use oc_neutral::{Base, Check, Form, Hint, Less, Width};

/// What the type of a field's first entry means.
#[derive(Clone, Copy, Debug, PartialEq, Eq)]
pub struct Meaning {
    /// What the value is made of, and which values fit. Of a pair, the section at position 0 stands
    /// for the one that its entries say.
    pub form: Form,
    /// How an instruction uses the field.
    pub hint: Hint,
    /// A self-relative value is taken from so many bytes after the field's place.
    pub behind: u8,
    /// Also where the entry refers to a symbol, what is taken is how far the field's own section is
    /// moved, and not the field's place.
    pub by_move: bool,
}

// an address of that width, less something
fn address(width: Width, check: Check, less: Less) -> Meaning
    ensures { result ≡ meanings.meaning_with (record { base = Base.Address; less = less; width = width; check = check }) Hint.Plain 0 }
{
    Meaning {
        form: Form {
            base: Base::Address,
            less,
            width,
            check,
        },
        hint: Hint::Plain,
        behind: 0,
        by_move: false,
    }
}

// a distance of four bytes from their end
fn distance(base: Base, hint: Hint) -> Meaning
    ensures { result ≡ meanings.meaning_with (record { base = base; less = Less.Place; width = Width.Four; check = Check.Signed }) hint 4 }
{
    Meaning {
        form: Form {
            base,
            less: Less::Place,
            width: Width::Four,
            check: Check::Signed,
        },
        hint,
        behind: 4,
        by_move: false,
    }
}

// the types of x86-64 by which an entry may refer to a section
fn by_section_x86_64(e: &RelocationInfo) -> Option<Meaning>
    ensures { result ≡ meanings.meaning_by (λ m. m.by_section) W64 e.now }
{
    match (e.r_type, e.r_pcrel, e.r_length) {
        (X86_64_RELOC_UNSIGNED, 0, 3) => Some(address(Width::Eight, Check::Wrap, Less::Zero)),
        (X86_64_RELOC_UNSIGNED, 0, 2) => Some(address(Width::Four, Check::Unsigned, Less::Zero)),
        (X86_64_RELOC_SIGNED, 1, 2) => Some(distance(Base::Address, Hint::Plain)),
        (X86_64_RELOC_SIGNED_1, 1, 2) => Some(distance(Base::Address, Hint::Plain)),
        (X86_64_RELOC_SIGNED_2, 1, 2) => Some(distance(Base::Address, Hint::Plain)),
        (X86_64_RELOC_SIGNED_4, 1, 2) => Some(distance(Base::Address, Hint::Plain)),
        (X86_64_RELOC_BRANCH, 1, 2) => Some(distance(Base::Address, Hint::Call)),
        _ => None,
    }
}

// those by which one may refer to a symbol: slots and differences besides
fn by_symbol_x86_64(e: &RelocationInfo) -> Option<Meaning>
    ensures { result ≡ meanings.meaning_by (λ m. m.by_symbol) W64 e.now }
{
    match (e.r_type, e.r_pcrel, e.r_length) {
        (X86_64_RELOC_GOT, 1, 2) => Some(distance(Base::Slot, Hint::Plain)),
        (X86_64_RELOC_GOT_LOAD, 1, 2) => Some(distance(Base::Slot, Hint::Plain)),
        (X86_64_RELOC_SUBTRACTOR, 0, 3) => {
            Some(address(Width::Eight, Check::Wrap, Less::Section(0)))
        }
        (X86_64_RELOC_SUBTRACTOR, 0, 2) => {
            Some(address(Width::Four, Check::Signed, Less::Section(0)))
        }
        _ => by_section_x86_64(e),
    }
}

// the types of i386 by which an entry may refer to a symbol or a section
fn by_number_386(e: &RelocationInfo) -> Option<Meaning>
    ensures symbol { result ≡ meanings.meaning_by (λ m. m.by_symbol) W32 e.now }
    ensures section { result ≡ meanings.meaning_by (λ m. m.by_section) W32 e.now }
{
    match (e.r_type, e.r_pcrel, e.r_length) {
        (GENERIC_RELOC_VANILLA, 0, 2) => Some(address(Width::Four, Check::Wrap, Less::Zero)),
        (GENERIC_RELOC_VANILLA, 1, 2) => Some(Meaning {
            by_move: true,
            ..address(Width::Four, Check::Wrap, Less::Place)
        }),
        _ => None,
    }
}

// those by which one may be scattered: differences besides
fn by_address_386(e: &RelocationInfo) -> Option<Meaning>
    ensures { result ≡ meanings.meaning_by (λ m. m.by_address) W32 e.now }
{
    match (e.r_type, e.r_pcrel, e.r_length) {
        (GENERIC_RELOC_LOCAL_SECTDIFF, 0, 2) => {
            Some(address(Width::Four, Check::Wrap, Less::Section(0)))
        }
        (GENERIC_RELOC_SECTDIFF, 0, 2) => Some(address(Width::Four, Check::Wrap, Less::Section(0))),
        _ => by_number_386(e),
    }
}

/// What an entry means in files of a word, where there is such a type by which it may refer as it
/// does. Constant time.
#[tactic(auto, unfolding(crate::specs::Entries::row_for))]
pub fn meaning_of(word: Word, e: &RelocationInfo) -> Option<Meaning>
    ensures { result ≡ meanings.meaning_of word e.now }
{
    match (word, e.refers) {
        (Word::W32, Reference::Symbol(_) | Reference::Section(_)) => by_number_386(e),
        (Word::W32, Reference::Address(_)) => by_address_386(e),
        (Word::W64, Reference::Symbol(_)) => by_symbol_x86_64(e),
        (Word::W64, Reference::Section(_)) => by_section_x86_64(e),
        (Word::W64, Reference::Address(_)) => None,
    }
}
