//! Objects of ELF that are built in memory, as they are fitted and edited.
ghost use Rattle.std.specs.Prelude.{◌≡◌, ◌<◌, ◌≤◌, ◌*◌, ◌^◌, codes, length, IfOk, None, OnOk};
ghost use Rattle.oc_linking.specs.declared.terms.Binding.TheVariants as binding;
ghost use Rattle.oc_linking.specs.declared.terms.Kind.TheVariants as kind;
ghost use Rattle.oc_linking.specs.declared.terms.Value.TheVariants as value;
ghost use Rattle.oc_neutral.specs.Invariants.{HasItsBytes, IsHinted};
ghost use Rattle.bench.specs.Shape.{IsElf, elf_of};

use crate::MOST;
use crate::timing::micros;
use anyhow::{Result, anyhow};
use oc_base::{Bytes, Format, NoMemory, Word};
use oc_neutral::{
    Base, Binding, Builder, Check, Form, Hint, Kind, Less, Mark, Neutral, Reloc, Section, Symbol,
    Target, Value, Visibility, Width, are_bytes,
};
use std::alloc::Global;
use std::rt::Clock;
use std::time::Instant;

/// The tag of code in ELF: the type, above three bits for the flags.
const CODE: u64 = 14;

/// How each name of a symbol begins.
pub(crate) const BEGIN: &[u8] = b"function";

/// A section of so many bytes of code, all zero.
pub(crate) fn code(alloc: Global, size: u32) -> Result<Section, NoMemory>
    ensures bytes { IfOk result HasItsBytes }
    ensures kind { IfOk result (λ s. s.kind ≡ kind.Code) }
    ensures name { IfOk result (λ s. s.name ≡ codes ".text") }
    ensures tag { IfOk result (λ s. s.tag ≡ 14) }
    ensures align { IfOk result (λ s. s.align ≡ 16) }
    ensures alone { IfOk result (λ s. s.group ≡ None) }
{
    Ok(Section {
        name: Bytes::from_slice(alloc, b".text")?,
        kind: Kind::Code,
        align: 16,
        size,
        bytes: Bytes::from_vec(vec![in alloc; 0u8; size as usize]?),
        tag: CODE,
        number: 1,
        group: None,
    })
}

// seven digits of a number, the last one first
fn digits(alloc: Global, number: u32) -> Result<Vec<u8>, NoMemory> {
    let mut digits = Vec::new(alloc);
    let mut rest = number;
    for _digit in 0..7 {
        digits.push(b'0' + (rest % 10) as u8)?;
        rest /= 10;
    }
    Ok(digits)
}

/// A name that begins so and ends in the digits of a number.
pub(crate) fn name(alloc: Global, begin: &[u8], number: u32) -> Result<Bytes, NoMemory>
    ensures { IfOk result (λ name. length begin.now ≤ length name) }
{
    let mut name = begin.to_vec(alloc)?;
    name.extend_from_slice(&digits(alloc, number)?)?;
    Ok(Bytes::from_vec(name))
}

// a Global at the start of section 0
fn symbol(alloc: Global, number: u32) -> Result<Symbol, NoMemory>
    ensures named { IfOk result (λ s. 0 < length s.name) }
    ensures binding { IfOk result (λ s. s.binding ≡ binding.Global (value.Place 0 0)) }
    ensures size { IfOk result (λ s. s.size ≡ 0) }
    ensures number { IfOk result (λ s. s.number ≡ number) }
{
    Ok(Symbol {
        name: name(alloc, BEGIN, number)?,
        binding: Binding::Global(Value::Place {
            section: 0,
            offset: 0,
        }),
        mark: Mark::NoType,
        vis: Visibility::Default,
        size: 0,
        pinned: false,
        number,
    })
}

// a distance from the field to a symbol, with either hint, as it is checked in a word
fn distance(word: Word, symbol: u32, call: bool) -> Reloc
    ensures { IsHinted result }
{
    Reloc {
        target: Target::Symbol(symbol),
        form: Form {
            base: Base::Address,
            less: Less::Place,
            width: Width::Four,
            check: match word {
                Word::W32 => Check::Wrap,
                Word::W64 => Check::Signed,
            },
        },
        addend: -4,
        hint: if call { Hint::Call } else { Hint::Plain },
    }
}

// ELF of a word
fn elf_of(word: Word) -> Format
    ensures { result ≡ elf_of word }
{
    match word {
        Word::W32 => Format::Elf32,
        Word::W64 => Format::Elf64,
    }
}

// a section with room for so many relocations
fn begun(alloc: Global, word: Word, relocs: u32) -> Result<Builder>
    requires { relocs ≤ 16000000 }
    ensures { IfOk result (λ b. IsElf b.object) }
{
    let mut builder = Builder::new(alloc, elf_of(word));
    builder.add_section(code(alloc, 4 * relocs)?)?;
    Ok(builder)
}

// adds a symbol, the one of that number
fn add_symbol(alloc: Global, builder: &mut Builder, number: u32) -> Result<()>
    requires shape { IsElf builder.old.object }
    ensures { OnOk result (IsElf builder.new.object) }
{
    if builder.symbol_count() != number || number >= MOST {
        return Err(anyhow!("symbol {number} comes out of order"));
    }
    let symbol = symbol(alloc, number)?;
    are_bytes(symbol.name.as_slice());
    builder.add_symbol(symbol)?;
    Ok(())
}

// adds so many symbols
fn add_symbols(alloc: Global, builder: &mut Builder, count: u32) -> Result<()>
    requires { IsElf builder.old.object }
    ensures { OnOk result (IsElf builder.new.object) }
{
    for k in 0..count {
        add_symbol(alloc, builder, k)?;
    }
    Ok(())
}

// adds a relocation of the four bytes at a place
fn add_reloc(builder: &mut Builder, word: Word, place: u32, symbols: u32) -> Result<()>
    requires place { place < 2 ^ 30 }
    requires shape { IsElf builder.old.object }
    ensures { OnOk result (IsElf builder.new.object) }
{
    let reloc = distance(
        word,
        place.wrapping_mul(7919) % symbols.max(1),
        place % 3 == 0,
    );
    builder.is_draft();
    if !builder.can_add(0, 4 * place, reloc) {
        return Err(anyhow!("there is no field {place}"));
    }
    builder.add_reloc(0, 4 * place, reloc)?;
    Ok(())
}

// adds so many relocations, to so many symbols
fn add_relocs(builder: &mut Builder, word: Word, count: u32, symbols: u32) -> Result<()>
    requires count { count ≤ 16000000 }
    requires shape { IsElf builder.old.object }
    ensures { OnOk result (IsElf builder.new.object) }
{
    for k in 0..count {
        add_reloc(builder, word, k, symbols)?;
    }
    Ok(())
}

/// An object of so many symbols and relocations.
pub(crate) fn object(alloc: Global, word: Word, symbols: u32, relocs: u32) -> Result<Neutral>
    requires { relocs ≤ 16000000 }
    ensures { IfOk result IsElf }
{
    let mut builder = begun(alloc, word, relocs)?;
    add_symbols(alloc, &mut builder, symbols)?;
    add_relocs(&mut builder, word, relocs, symbols)?;
    builder.is_draft();
    Ok(builder.finish())
}

// the bytes of all names and the offsets of all fields, added up
fn walk(neutral: &Neutral) -> u64 {
    let mut sum = 0u64;
    for symbol in neutral.symbols() {
        for byte in symbol.name.as_slice() {
            sum = sum.wrapping_add(u64::from(*byte));
        }
    }
    for section in 0..neutral.section_count() {
        for field in neutral.relocs(section) {
            sum = sum.wrapping_add(u64::from(field.at));
        }
    }
    sum
}

/// Walks over an object, prints how long that took, and returns it in microseconds.
pub(crate) fn timed_walk<R: Clock + Eprint>(rt: &R, neutral: &Neutral) -> Result<u128> {
    let start = Instant::now(rt)?;
    let sum = walk(neutral);
    let walked = micros(rt, start)?;
    eprintln!(rt; "numbers of sum {sum} walked in {walked} us")?;
    Ok(walked)
}
