//! Which Locals a target writes.
ghost use Rattle.std.specs.Prelude.{◌≡◌, ◌&&◌, bytes_eq, IfOk, false};
ghost use Rattle.oc_linking.specs.Parts as parts;
ghost use Rattle.oc_neutral.specs.Families.{family_of};
ghost use Rattle.oc_neutral.specs.Mach.SectionSymbols as section_symbols;
ghost use Rattle.oc_neutral.specs.WrittenSymbols as written;
ghost use Rattle.oc_neutral.specs.Bindings as bindings;

use oc_base::{Format, NoMemory};
use oc_neutral::{Binding, Symbol, Value};
use std::alloc::Global;

// whether this is the name of the symbol of section k, counted from 1
fn is_section_symbol_name(alloc: Global, name: &[u8], k: u64) -> Result<bool, NoMemory>
    ensures { IfOk result (λ named. named ≡ bytes_eq name.now (section_symbols.section_symbol_name k)) }
{
    let text = format!(in alloc; "l_section_{k}")?;
    Ok(name == text.as_bytes())
}

// whether the place is the first byte of a section, and the name that of the section's symbol
fn is_start_named(alloc: Global, name: &[u8], value: Value) -> Result<bool, NoMemory>
    ensures { IfOk result (λ named. named ≡ section_symbols.is_start_named name.now value) }
{
    match value {
        Value::Place { section, offset: 0 } => {
            is_section_symbol_name(alloc, name, u64::from(section) + 1)
        }
        Value::Place { .. } | Value::Absolute(_) => Ok(false),
    }
}

// whether a Local of this name and value is written
fn writes_local(alloc: Global, target: Format, name: &[u8], value: Value) -> Result<bool, NoMemory>
    ensures { IfOk result (λ writes. writes ≡ (family_of target).writes_local name.now value) }
{
    match target {
        Format::Elf32
        | Format::Elf64
        | Format::BigElf32
        | Format::BigElf64
        | Format::Coff32
        | Format::BigCoff32
        | Format::Mac32 => Ok(true),
        Format::Coff64 | Format::BigCoff64 => Ok(!is_long_number(value)),
        Format::Mac64 => Ok(!is_start_named(alloc, name, value)?),
        Format::Omf => Ok(false),
    }
}

/// Whether a target writes a symbol: all but some Locals are written. `NoMemory` where memory ran
/// out. Time is linear in the name.
pub fn is_written(alloc: Global, target: Format, symbol: &Symbol) -> Result<bool, NoMemory>
    ensures { IfOk result (λ b. b ≡ written.is_written target symbol.now) }
{
    match symbol.binding {
        Binding::Local(value) => writes_local(alloc, target, symbol.name.as_slice(), value),
        Binding::Global(_) | Binding::Undefined | Binding::Common { .. } | Binding::Weak(_) => {
            Ok(true)
        }
    }
}

/// Whether a symbol is a Local that a target writes. `NoMemory` where memory ran out. Time is linear
/// in the name.
pub fn is_written_local(alloc: Global, target: Format, symbol: &Symbol) -> Result<bool, NoMemory>
    ensures { IfOk result (λ b. b ≡ (parts.is_local symbol.now.binding && written.is_written target symbol.now)) }
{
    if !is_local(symbol.binding) {
        return Ok(false);
    }
    is_written(alloc, target, symbol)
}

/// Whether a symbol is a Local. Constant time.
pub fn is_local(binding: Binding) -> bool
    ensures { result ≡ parts.is_local binding }
{
    match binding {
        Binding::Local(_) => true,
        Binding::Global(_) | Binding::Undefined | Binding::Common { .. } | Binding::Weak(_) =>
            false,
    }
}

/// Whether the value is an absolute number of more than 32 bits. Constant time.
pub fn is_long_number(value: Value) -> bool
    ensures { result ≡ bindings.is_long_number value }
{
    match value {
        Value::Place { .. } => false,
        Value::Absolute(number) => number >= 1 << 32,
    }
}
