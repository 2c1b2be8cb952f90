//! Worked cases. Expected numbers are those of the standards.
ghost use Rattle.std.specs.Prelude.{◌≡◌, false, IfOk};
ghost use Rattle.oc_neutral.specs.Building.{is_zero};
ghost use Rattle.oc_target.specs.Fitted.{CanFit};
ghost use Rattle.oc_neutral.specs.Invariants.{HasItsBytes};
ghost use Rattle.tests_object.specs.Small.{IsAlone, IsPlain};
ghost use Rattle.tests_object.specs.Elf.{IsGiven, elf_of};

use crate::small::{add_first, begun, plain};
use oc_base::{Bytes, Code, Format, NoMemory, Phase, Stop, Word, word_of};
use oc_express::fit;
use oc_neutral::{
    Base, Binding, Check, Fallback, Form, Hint, Kind, Less, Neutral, Section, Symbol, Width,
};
use oc_target::{NoForm, Spelling, lookup};
use std::alloc::Global;
use std::test::Fail;

/// An address of this width.
fn address(less: Less, width: Width, check: Check) -> Form {
    Form {
        base: Base::Address,
        less,
        width,
        check,
    }
}

/// Numbers as the standards give them: R_X86_64_32S, R_X86_64_PLT32 and R_386_PC32,
/// IMAGE_REL_AMD64_REL32, VANILLA of i386, SUBTRACTOR before UNSIGNED, and the self-relative fixup.
#[test]
fn forms_have_the_numbers_of_their_standard(rt: HostRuntime) {
    let signed = address(Less::Place, Width::Four, Check::Signed);
    let wrapping = address(Less::Place, Width::Four, Check::Wrap);
    let extended = address(Less::Zero, Width::Four, Check::Signed);
    let difference = address(Less::Place, Width::Eight, Check::Wrap);
    for (format, form, hint, want) in [
        (Format::Elf64, extended, Hint::Plain, Ok(Spelling::One(11))),
        (Format::Elf64, signed, Hint::Call, Ok(Spelling::One(4))),
        (Format::Elf32, wrapping, Hint::Plain, Ok(Spelling::One(2))),
        (Format::Coff64, signed, Hint::Call, Ok(Spelling::One(4))),
        (Format::Coff64, extended, Hint::Plain, Err(NoForm)),
        (Format::Mac32, wrapping, Hint::Call, Ok(Spelling::One(0))),
        (
            Format::Mac64,
            difference,
            Hint::Plain,
            Ok(Spelling::Pair(5, 0)),
        ),
        (Format::Omf, wrapping, Hint::Plain, Ok(Spelling::One(2))),
        (Format::Omf, signed, Hint::Plain, Err(NoForm)),
    ] {
        assert_eq!(rt; lookup(format, form, hint), want);
    }
}

/// What a section of ELF is for.
#[derive(Clone, Copy, Debug)]
enum For {
    Code,
    Init,
    Exception,
}

/// A section of that name, kind and tag; of section 3 in the input.
fn named(alloc: Global, name: &[u8], kind: Kind, tag: u64) -> Result<Section, NoMemory>
    requires { is_zero kind ≡ false }
    ensures bytes { IfOk result HasItsBytes }
    ensures alone { IfOk result IsAlone }
    ensures name { IfOk result (λ s. s.name ≡ name.now) }
    ensures kind { IfOk result (λ s. s.kind ≡ kind) }
    ensures tag { IfOk result (λ s. s.tag ≡ tag) }
{
    Ok(Section {
        name: Bytes::from_slice(alloc, name)?,
        kind,
        align: 4,
        size: 4,
        bytes: Bytes::from_slice(alloc, &[0; 4])?,
        tag,
        number: 3,
        group: None,
    })
}

/// A section of ELF, whose name lies in a string table of COFF. Its tag is the type, PROGBITS or
/// INIT_ARRAY, above the bits for EXECINSTR, ALLOC and WRITE.
fn section(alloc: Global, purpose: For) -> Result<Section, NoMemory>
    ensures bytes { IfOk result HasItsBytes }
    ensures alone { IfOk result IsAlone }
    ensures given { IfOk result IsGiven }
{
    match purpose {
        For::Code => named(alloc, b".text.long", Kind::Code, 14),
        For::Init => named(alloc, b".init_array", Kind::Init, 115),
        For::Exception => named(alloc, b".eh_frame", Kind::Exception, 10),
    }
}

/// A symbol, Undefined or a Weak of the number 0; of number 5 in the input.
fn symbol(alloc: Global, weak: bool) -> Result<Symbol, NoMemory>
    ensures { IfOk result (IsPlain false) }
{
    if weak {
        plain(alloc, b"f", Binding::Weak(Fallback::Zero), 5)
    } else {
        plain(alloc, b"f", Binding::Undefined, 5)
    }
}

/// ELF of a word.
fn elf_of(word: Word) -> Format
    ensures { result ≡ elf_of word }
{
    match word {
        Word::W32 => Format::Elf32,
        Word::W64 => Format::Elf64,
    }
}

/// An object of ELF of the target's word, of such a section and such a symbol.
fn object(alloc: Global, target: Format, purpose: For, weak: bool) -> Result<Neutral, Fail>
    ensures { IfOk result (CanFit target) }
{
    let format = elf_of(word_of(target));
    let mut builder = begun(alloc, format, section(alloc, purpose)?)?;
    add_first(&mut builder, symbol(alloc, weak)?)?;
    Ok(builder.finish())
}

/// The first condition that an object of ELF breaks, by the lists of our profile: of a Weak in each target,
/// and of a kind that the target has not.
#[test]
fn first_conditions_of_targets(rt: HostRuntime) -> Result<(), Fail> {
    let kind = Some((Phase::TargetSection, 3, Code::KindUnavailable));
    let exception = Some((Phase::TargetSection, 3, Code::ExceptionKept));
    let weak = Some((Phase::TargetSymbol, 5, Code::WeakForm));
    let few = Some((Phase::TargetSection, 0, Code::TooFew));
    for (target, purpose, is_weak, want) in [
        (Format::Elf32, For::Exception, true, None),
        (Format::Coff32, For::Exception, true, None),
        (Format::Coff64, For::Exception, true, None),
        (Format::Mac32, For::Init, true, None),
        (Format::Mac64, For::Exception, true, exception),
        (Format::Omf, For::Code, false, None),
        (Format::Omf, For::Code, true, weak),
        (Format::Omf, For::Init, true, kind),
        (Format::Omf, For::Exception, true, exception),
        (Format::BigElf32, For::Code, false, few),
        (Format::BigElf64, For::Exception, true, few),
        (Format::BigCoff32, For::Exception, true, None),
        (Format::BigCoff64, For::Init, true, None),
    ] {
        let object = object(rt.alloc(), target, purpose, is_weak)?;
        let found = match fit(rt.alloc(), target, object) {
            Ok(_fitted) => None,
            Err(Stop::Refused(fault)) => Some((fault.phase, fault.index, fault.code)),
            Err(Stop::NoMemory) => Err(NoMemory)?,
        };
        assert_eq!(rt; found, want, "{target:?}");
    }
    Ok(())
}
