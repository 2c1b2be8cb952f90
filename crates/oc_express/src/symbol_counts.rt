//! How many symbols an output has, where a format bounds them.
ghost use Rattle.std.specs.Prelude.{◌≡◌, ℕ, IfOk, [], length, count_by};
ghost use Rattle.std.specs.Option.{option_map_or};
ghost use Rattle.oc_base.specs.declared.format.Word.TheVariants.{W32, W64};
ghost use Rattle.oc_linking.specs.FirstFault.{first_broken};
ghost use Rattle.oc_neutral.specs.declared.symbol.Symbol.{Symbol as HeldSymbol};
ghost use Rattle.oc_neutral.specs.Bindings as bindings;
ghost use Rattle.oc_neutral.specs.Elf.Family as elf;
ghost use Rattle.oc_neutral.specs.Families.{family_of};
ghost use Rattle.oc_neutral.specs.Mach.Family as mach;
ghost use Rattle.oc_neutral.specs.TargetSymbols as conditions;
ghost use Rattle.oc_neutral.specs.WrittenSymbols as written;

use oc_base::{Code, Fault, Format, NoMemory, Phase, Spot};
use oc_neutral::{Binding, Neutral};
use oc_target::{is_written, needed_count, signature_count};
use std::alloc::Global;

/// The most symbols that an entry of 24 bits can distinguish.
const MOST_SYMBOLS: u64 = 0xFF_FFFF;

/// The most externals that an index of 15 bits can distinguish (TIS OMF 1.1, "EXTDEF").
const MOST_EXTERNALS: u64 = 32_767;

// whether the symbol is Undefined or Common
fn is_external(binding: Binding) -> bool
    ensures { result ≡ bindings.is_external binding }
{
    match binding {
        Binding::Undefined | Binding::Common { .. } => true,
        Binding::Local(_) | Binding::Global(_) | Binding::Weak(_) => false,
    }
}

// how many symbols are Undefined or Common
fn external_count(neutral: &Neutral) -> u32
    ensures { result ≡ count_by (λ (s : HeldSymbol). bindings.is_external s.binding) neutral.now.symbols }
{
    let mut count = 0;
    for k in 0..neutral.symbol_count() {
        count += u32::from(is_external(neutral.symbol(k).binding));
    }
    count
}

// how many symbols a target writes
fn written_count(alloc: Global, target: Format, neutral: &Neutral) -> Result<u32, NoMemory>
    ensures { IfOk result (λ count. count ≡ count_by (written.is_written target) neutral.now.symbols) }
{
    let mut count = 0;
    for k in 0..neutral.symbol_count() {
        count += u32::from(is_written(alloc, target, neutral.symbol(k))?);
    }
    Ok(count)
}

// symbols of ELF: the null one, one for each section, the signatures of groups, and all others
fn elf_count(alloc: Global, neutral: &Neutral) -> Result<u64, NoMemory>
    ensures { IfOk result (λ count. count ≡ elf.elf_symbol_count neutral.now) }
{
    let signatures = u64::from(signature_count(alloc, neutral)?);
    let sections = u64::from(neutral.section_count());
    Ok(1 + sections + signatures + u64::from(neutral.symbol_count()))
}

// symbols of mac32: those that are written
fn mac32_count(alloc: Global, neutral: &Neutral) -> Result<u64, NoMemory>
    ensures { IfOk result (λ count. count ≡ mach.mach_symbol_count W32 neutral.now) }
{
    Ok(u64::from(written_count(alloc, Format::Mac32, neutral)?))
}

// symbols of mac64: those of sections that are needed, and those that are written
fn mac64_count(alloc: Global, neutral: &Neutral) -> Result<u64, NoMemory>
    ensures { IfOk result (λ count. count ≡ mach.mach_symbol_count W64 neutral.now) }
{
    let needed = u64::from(needed_count(alloc, neutral)?);
    Ok(needed + u64::from(written_count(alloc, Format::Mac64, neutral)?))
}

// the fault of a target on a number of symbols, of which it has room for so many
fn bounded_fault(counted: u64, most: u64) -> Option<Fault>
    ensures { result ≡ first_broken (conditions.bounded (record { counted = counted; most = most })) }
{
    if counted <= most {
        return None;
    }
    let spot = Spot {
        phase: Phase::TargetSymbol,
        index: 0,
        place: counted,
    };
    Some(spot.fault(Code::TooMany))
}

/// The fault of a target on the number of symbols of an object. `NoMemory` where memory ran out.
///
/// Time is linear in the object, but for the sorting of names where an object with groups goes to
/// elf32.
pub(crate) fn symbol_count_fault(
    alloc: Global,
    target: Format,
    neutral: &Neutral,
) -> Result<Option<Fault>, NoMemory>
    ensures { IfOk result (λ fault. fault ≡ first_broken (option_map_or conditions.bounded ((family_of target).symbols neutral.now) [])) }
{
    match target {
        Format::Elf32 | Format::BigElf32 => Ok(bounded_fault(
            elf_count(alloc, neutral)?,
            MOST_SYMBOLS,
        )),
        Format::Mac32 => Ok(bounded_fault(mac32_count(alloc, neutral)?, MOST_SYMBOLS)),
        Format::Mac64 => Ok(bounded_fault(mac64_count(alloc, neutral)?, MOST_SYMBOLS)),
        Format::Omf => Ok(bounded_fault(external_count(neutral).into(), MOST_EXTERNALS)),
        Format::Elf64
        | Format::BigElf64
        | Format::Coff32
        | Format::Coff64
        | Format::BigCoff32
        | Format::BigCoff64 => Ok(None),
    }
}
