//! What the types of relocations mean.
ghost use Rattle.std.specs.Prelude.{◌≡◌, Some};
ghost use Rattle.oc_base.specs.declared.format.Word.TheVariants.{W32, W64};
ghost use Rattle.oc_coff.specs.Meanings as meanings;

use oc_base::Word;
use oc_neutral::coff::{
    IMAGE_REL_AMD64_ADDR32, IMAGE_REL_AMD64_ADDR32NB, IMAGE_REL_AMD64_ADDR64,
    IMAGE_REL_AMD64_REL32, IMAGE_REL_AMD64_REL32_1, IMAGE_REL_AMD64_REL32_2,
    IMAGE_REL_AMD64_REL32_3, IMAGE_REL_AMD64_REL32_4, IMAGE_REL_AMD64_REL32_5,
    IMAGE_REL_AMD64_SECREL, IMAGE_REL_AMD64_SECTION, IMAGE_REL_I386_DIR32, IMAGE_REL_I386_DIR32NB,
    IMAGE_REL_I386_REL32, IMAGE_REL_I386_SECREL, IMAGE_REL_I386_SECTION,
};
use oc_neutral::{Base, Check, Form, Less, Width};

/// What a type of relocation means: what its value is made of, and from how many bytes after the
/// field's place a self-relative value is taken.
#[derive(Clone, Copy, Debug, PartialEq, Eq)]
pub struct Meaning {
    /// What the value is made of, and which values fit.
    pub form: Form,
    /// How many bytes after the field's place a self-relative value is taken from.
    pub behind: u8,
}

// a meaning that is not self-relative
fn plain(width: Width, check: Check, base: Base, less: Less) -> Option<Meaning>
    ensures { result ≡ Some (record { form = record { base = base; less = less; width = width; check = check }; behind = 0 }) }
{
    Some(Meaning {
        form: Form {
            base,
            less,
            width,
            check,
        },
        behind: 0,
    })
}

// a distance from so many bytes after the field's place
fn relative(check: Check, behind: u8) -> Option<Meaning>
    ensures { result ≡ Some (record { form = record { base = Base.Address; less = Less.Place; width = Width.Four; check = check }; behind = behind }) }
{
    Some(Meaning {
        form: Form {
            base: Base::Address,
            less: Less::Place,
            width: Width::Four,
            check,
        },
        behind,
    })
}

// the types of Intel 386 (PE/COFF, "Type Indicators")
fn meaning_i386(r_type: u16) -> Option<Meaning>
    ensures { result ≡ meanings.meaning_of W32 r_type }
{
    match r_type {
        IMAGE_REL_I386_DIR32 => plain(Width::Four, Check::Wrap, Base::Address, Less::Zero),
        IMAGE_REL_I386_DIR32NB => plain(Width::Four, Check::Wrap, Base::Address, Less::ImageBase),
        IMAGE_REL_I386_SECREL => plain(Width::Four, Check::Wrap, Base::Address, Less::Home),
        IMAGE_REL_I386_SECTION => plain(Width::Two, Check::Wrap, Base::HomeNumber, Less::Zero),
        IMAGE_REL_I386_REL32 => relative(Check::Wrap, 4),
        _ => None,
    }
}

// the types of x64 (PE/COFF, "Type Indicators")
fn meaning_amd64(r_type: u16) -> Option<Meaning>
    ensures { result ≡ meanings.meaning_of W64 r_type }
{
    match r_type {
        IMAGE_REL_AMD64_ADDR64 => plain(Width::Eight, Check::Wrap, Base::Address, Less::Zero),
        IMAGE_REL_AMD64_ADDR32 => plain(Width::Four, Check::Unsigned, Base::Address, Less::Zero),
        IMAGE_REL_AMD64_ADDR32NB => {
            plain(Width::Four, Check::Unsigned, Base::Address, Less::ImageBase)
        }
        IMAGE_REL_AMD64_SECREL => plain(Width::Four, Check::Unsigned, Base::Address, Less::Home),
        IMAGE_REL_AMD64_SECTION => plain(Width::Two, Check::Wrap, Base::HomeNumber, Less::Zero),
        IMAGE_REL_AMD64_REL32 => relative(Check::Signed, 4),
        IMAGE_REL_AMD64_REL32_1 => relative(Check::Signed, 5),
        IMAGE_REL_AMD64_REL32_2 => relative(Check::Signed, 6),
        IMAGE_REL_AMD64_REL32_3 => relative(Check::Signed, 7),
        IMAGE_REL_AMD64_REL32_4 => relative(Check::Signed, 8),
        IMAGE_REL_AMD64_REL32_5 => relative(Check::Signed, 9),
        _ => None,
    }
}

/// What a type of relocation means for a word, where it has a row. Constant time.
pub fn meaning_of(word: Word, r_type: u16) -> Option<Meaning>
    ensures { result ≡ meanings.meaning_of word r_type }
{
    match word {
        Word::W32 => meaning_i386(r_type),
        Word::W64 => meaning_amd64(r_type),
    }
}
