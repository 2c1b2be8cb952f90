//! What the types of relocations mean.
ghost use Rattle.std.specs.Prelude.{◌≡◌, Some};
ghost use Rattle.oc_elf.specs.Meanings as meanings;
ghost use Rattle.oc_elf.specs.declared.class.ElfClass.TheVariants.{Class32, Class64};

use crate::class::ElfClass;
use oc_neutral::elf::{
    R_386_8, R_386_16, R_386_32, R_386_GOT32, R_386_GOT32X, R_386_GOTOFF, R_386_GOTPC, R_386_PC8,
    R_386_PC16, R_386_PC32, R_386_PLT32, R_X86_64_8, R_X86_64_16, R_X86_64_32, R_X86_64_32S,
    R_X86_64_64, R_X86_64_GOTOFF64, R_X86_64_GOTPC32, R_X86_64_GOTPCREL, R_X86_64_GOTPCRELX,
    R_X86_64_PC8, R_X86_64_PC16, R_X86_64_PC32, R_X86_64_PC64, R_X86_64_PLT32,
    R_X86_64_REX_GOTPCRELX,
};
use oc_neutral::{Base, Check, Form, Hint, Less, Width};

/// What a type of relocation means: what its value is made of, and how an instruction uses it.
#[derive(Clone, Copy, Debug, PartialEq, Eq)]
pub struct Meaning {
    /// What the value is made of, and which values fit.
    pub form: Form,
    /// How an instruction uses the field.
    pub hint: Hint,
}

// a meaning without a hint
fn plain(width: Width, check: Check, base: Base, less: Less) -> Option<Meaning>
    ensures { result ≡ Some (record { form = record { base = base; less = less; width = width; check = check }; hint = Hint.Plain }) }
{
    Some(Meaning {
        form: Form {
            base,
            less,
            width,
            check,
        },
        hint: Hint::Plain,
    })
}

// the distance of a call
fn call(check: Check) -> Option<Meaning>
    ensures { result ≡ Some (record { form = record { base = Base.Address; less = Less.Place; width = Width.Four; check = check }; hint = Hint.Call }) }
{
    Some(Meaning {
        form: Form {
            base: Base::Address,
            less: Less::Place,
            width: Width::Four,
            check,
        },
        hint: Hint::Call,
    })
}

// the types of i386 (i386 psABI, "Relocation Types")
fn meaning_386(r_type: u8) -> Option<Meaning>
    ensures { result ≡ meanings.meaning_of Class32 r_type }
{
    match r_type {
        R_386_32 => plain(Width::Four, Check::Wrap, Base::Address, Less::Zero),
        R_386_PC32 => plain(Width::Four, Check::Wrap, Base::Address, Less::Place),
        R_386_PLT32 => call(Check::Wrap),
        R_386_GOT32 | R_386_GOT32X => plain(Width::Four, Check::Wrap, Base::Slot, Less::GotBase),
        R_386_GOTOFF => plain(Width::Four, Check::Wrap, Base::Address, Less::GotBase),
        R_386_GOTPC => plain(Width::Four, Check::Wrap, Base::GotBase, Less::Place),
        R_386_16 => plain(Width::Two, Check::Either, Base::Address, Less::Zero),
        R_386_8 => plain(Width::One, Check::Either, Base::Address, Less::Zero),
        R_386_PC16 => plain(Width::Two, Check::Signed, Base::Address, Less::Place),
        R_386_PC8 => plain(Width::One, Check::Signed, Base::Address, Less::Place),
        _ => None,
    }
}

// the types of x86-64 (x86-64 psABI, "Relocation Types")
fn meaning_x86_64(r_type: u32) -> Option<Meaning>
    ensures { result ≡ meanings.meaning_of Class64 r_type }
{
    match r_type {
        R_X86_64_64 => plain(Width::Eight, Check::Wrap, Base::Address, Less::Zero),
        R_X86_64_32 => plain(Width::Four, Check::Unsigned, Base::Address, Less::Zero),
        R_X86_64_32S => plain(Width::Four, Check::Signed, Base::Address, Less::Zero),
        R_X86_64_16 => plain(Width::Two, Check::Either, Base::Address, Less::Zero),
        R_X86_64_8 => plain(Width::One, Check::Either, Base::Address, Less::Zero),
        R_X86_64_PC32 => plain(Width::Four, Check::Signed, Base::Address, Less::Place),
        R_X86_64_PLT32 => call(Check::Signed),
        R_X86_64_PC64 => plain(Width::Eight, Check::Wrap, Base::Address, Less::Place),
        R_X86_64_PC16 => plain(Width::Two, Check::Signed, Base::Address, Less::Place),
        R_X86_64_PC8 => plain(Width::One, Check::Signed, Base::Address, Less::Place),
        R_X86_64_GOTPCREL | R_X86_64_GOTPCRELX | R_X86_64_REX_GOTPCRELX => {
            plain(Width::Four, Check::Signed, Base::Slot, Less::Place)
        }
        R_X86_64_GOTOFF64 => plain(Width::Eight, Check::Wrap, Base::Address, Less::GotBase),
        R_X86_64_GOTPC32 => plain(Width::Four, Check::Signed, Base::GotBase, Less::Place),
        _ => None,
    }
}

/// What a type of relocation means in a class, where it has a row. Constant time.
pub fn meaning_of(class: ElfClass, r_type: u32) -> Option<Meaning>
    ensures { result ≡ meanings.meaning_of class r_type }
{
    match class {
        ElfClass::Class32 | ElfClass::Big32 => match u8::try_from(r_type) {
            Ok(narrow) => meaning_386(narrow),
            Err(_) => None,
        },
        ElfClass::Class64 | ElfClass::Big64 => meaning_x86_64(r_type),
    }
}
