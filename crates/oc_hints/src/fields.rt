//! What hints say of relocated fields.
ghost use Rattle.std.specs.Prelude.{◌≡◌, ◌&&◌, ◌||◌};
ghost use Rattle.oc_neutral.specs.Rows.{TakesPlace, TakesZero};
ghost use Rattle.oc_neutral.specs.TargetRelocations.{is_target};
ghost use Rattle.oc_hints.specs.Case.{case_of, is_wide as has_64_bits};
ghost use Rattle.oc_hints.specs.Fields as fields;

use crate::key::FieldKey;
use crate::subject::{Subject, is_coff, is_elf, is_mach, is_omf};
use oc_base::{Format, Word, word_of};
use oc_neutral::mach::{S_4BYTE_LITERALS, S_8BYTE_LITERALS, S_16BYTE_LITERALS, S_CSTRING_LITERALS};
use oc_neutral::{Base, Binding, Form, Hint, Kind, Less, Neutral, Reloc, Section, Target, Width};

/// The instruction `call` with a distance of four bytes (Intel 64 and IA-32 manual, "Opcode Map").
const CALL: u8 = 0xE8;
/// The instruction `jmp` with a distance of four bytes.
const JMP: u8 = 0xE9;
/// The first byte of instructions of two.
const TWO_BYTES: u8 = 0x0F;
/// The second byte of the first jump on a condition with a distance of four bytes.
const FIRST_JCC: u8 = 0x80;
/// The second byte of the last one.
const LAST_JCC: u8 = 0x8F;

// whether the value is an address, in so many bytes
fn is_address(form: Form, width: Width) -> bool
    ensures { result ≡ fields.is_form TakesZero width form }
{
    form.base == Base::Address && form.less == Less::Zero && form.width == width
}

// whether the value is a distance from the field, in so many bytes
fn is_distance(form: Form, width: Width) -> bool
    ensures { result ≡ fields.is_form TakesPlace width form }
{
    form.base == Base::Address && form.less == Less::Place && form.width == width
}

// the byte that lies so many bytes before an offset, or 0
fn byte_before(bytes: &[u8], at: u32, back: u32) -> u8
    ensures { result ≡ fields.byte_before bytes.now at back }
{
    if back > at {
        return 0;
    }
    match bytes.get((at - back) as usize) {
        Some(byte) => *byte,
        None => 0,
    }
}

// whether the instruction whose last four bytes are the field is a call or a jump
fn is_jump(bytes: &[u8], at: u32) -> bool
    ensures { result ≡ fields.is_jump bytes.now at }
{
    let last = byte_before(bytes, at, 1);
    let first = byte_before(bytes, at, 2);
    last == CALL || last == JMP || (first == TWO_BYTES && FIRST_JCC <= last && last <= LAST_JCC)
}

// whether the target is a name from outside
fn is_undefined(neutral: &Neutral, target: Target) -> bool
    ensures { result ≡ is_target neutral.now fields.is_undefined target }
{
    match target {
        Target::Symbol(k) if k < neutral.symbol_count() => {
            matches!(neutral.symbol(k).binding, Binding::Undefined)
        }
        Target::Symbol(_) | Target::Section(_) => false,
    }
}

// whether it is a call of a name from outside that the object does not mark as a call
fn is_unmarked_call(neutral: &Neutral, section: &Section, at: u32, reloc: Reloc) -> bool
    ensures { result ≡ fields.is_unmarked_call neutral.now section.now at reloc }
{
    section.kind == Kind::Code
        && is_distance(reloc.form, Width::Four)
        && reloc.hint == Hint::Plain
        && is_undefined(neutral, reloc.target)
        && is_jump(section.bytes.as_slice(), at)
}

// whether a section of Mach-O has literals
fn has_literals(section: &Section) -> bool
    ensures { result ≡ fields.has_literals section.now }
{
    let number = section.tag % 256;
    number == u64::from(S_CSTRING_LITERALS)
        || number == u64::from(S_4BYTE_LITERALS)
        || number == u64::from(S_8BYTE_LITERALS)
        || number == u64::from(S_16BYTE_LITERALS)
}

// whether the target is a section of literals
fn names_literals(neutral: &Neutral, target: Target) -> bool
    ensures { result ≡ fields.names_literals neutral.now target }
{
    match target {
        Target::Section(k) if k < neutral.section_count() => has_literals(neutral.section(k)),
        Target::Section(_) | Target::Symbol(_) => false,
    }
}

// whether addresses have 64 bits
fn is_wide(format: Format) -> bool
    ensures { result ≡ has_64_bits format }
{
    matches!(word_of(format), Word::W64)
}

/// Whether the key is about the conversion. Constant time.
pub(crate) fn concerns_fields(key: FieldKey, subject: &Subject) -> bool
    ensures { result ≡ fields.concerns_fields key (case_of subject.now) }
{
    let from = subject.from();
    let to = subject.to;
    match key {
        FieldKey::AddressInReadOnly => subject.crosses() && is_elf(to) && is_wide(to),
        FieldKey::DistanceForAddress => is_omf(from) && is_coff(to),
        FieldKey::CallWithoutStub => subject.crosses() && is_mach(to) && is_wide(to),
        FieldKey::SplitLiterals => is_mach(from) && is_mach(to),
        FieldKey::CallRecompile => is_coff(from) && is_elf(to),
        FieldKey::AddressOutOfRange => is_mach(to) && is_wide(to),
        FieldKey::TextRelocations => subject.crosses() && is_elf(to) && !is_wide(to),
    }
}

// whether it is loaded where it may not be written
fn is_fixed(kind: Kind) -> bool
    ensures { result ≡ fields.is_fixed kind }
{
    kind == Kind::Code || kind == Kind::ReadOnly
}

/// Whether the key is about a field at an offset of a section of the object. Constant time.
pub(crate) fn field_meets(
    key: FieldKey,
    neutral: &Neutral,
    section: &Section,
    at: u32,
    reloc: Reloc,
) -> bool
    ensures { result ≡ fields.field_meets key neutral.now section.now at reloc }
{
    match key {
        FieldKey::AddressInReadOnly => {
            section.kind == Kind::ReadOnly && is_address(reloc.form, Width::Eight)
        }
        FieldKey::DistanceForAddress => reloc.form.less == Less::Home,
        FieldKey::CallWithoutStub | FieldKey::CallRecompile => {
            is_unmarked_call(neutral, section, at, reloc)
        }
        FieldKey::SplitLiterals => names_literals(neutral, reloc.target),
        FieldKey::AddressOutOfRange => is_address(reloc.form, Width::Four),
        FieldKey::TextRelocations => {
            is_fixed(section.kind) && is_address(reloc.form, Width::Four)
        }
    }
}
