//! What symbol table entries say of symbols beside their names (gABI, "Symbol Table").
ghost use Rattle.std.specs.Prelude.{◌≡◌, ◌^◌, ◌<◌, ◌+◌, IfSome, length};
ghost use Rattle.std.specs.Option.{option_map_or};
ghost use Rattle.oc_neutral.specs.Invariants.{IsBinding, IsFallback, IsValue};
ghost use Rattle.oc_neutral.specs.KeySymbols as keys;
ghost use Rattle.oc_shows.specs.Manners.{elf_mark, elf_size};
ghost use Rattle.oc_neutral.specs.Normal.{Place as HeldPlace};
ghost use Rattle.oc_elf_file.specs.Symbols as symbols;
ghost use Rattle.oc_elf_write.specs.Values.{AreValueFields};

use crate::heads::section_number;
use oc_elf::{
    SHN_ABS, SHN_COMMON, SHN_UNDEF, STB_GLOBAL, STB_LOCAL, STB_WEAK, STT_FUNC, STT_NOTYPE,
    STT_OBJECT, STV_DEFAULT, STV_HIDDEN, STV_INTERNAL, STV_PROTECTED,
};
use oc_neutral::{Binding, Fallback, Mark, Neutral, Value, Visibility};

/// A value, and the section header that it counts from.
#[derive(Clone, Copy)]
pub(crate) struct ValueFields {
    /// An offset in the section, an absolute number or an alignment.
    pub(crate) st_value: u64,
    /// The number of the section header, or one of the constants `SHN_*`.
    pub(crate) st_shndx: u32,
}

/// What is defined elsewhere.
const ELSEWHERE: ValueFields = ValueFields {
    st_value: 0,
    st_shndx: SHN_UNDEF,
};

// a place in a section
fn at_place(neutral: &Neutral, section: u32, offset: u32) -> ValueFields
    requires there { section < length neutral.now.sections }
    ensures { AreValueFields result (symbols.value_fields_at neutral.now section offset) }
{
    ValueFields {
        st_value: u64::from(offset),
        st_shndx: section_number(neutral, section),
    }
}

// a value
fn of_value(neutral: &Neutral, value: Value) -> ValueFields
    requires there { IsValue neutral.now value }
    ensures { AreValueFields result (symbols.value_fields_by neutral.now value) }
{
    match value {
        Value::Place { section, offset } => at_place(neutral, section, offset),
        Value::Absolute(number) => ValueFields {
            st_value: number,
            st_shndx: SHN_ABS,
        },
    }
}

// the section and the offset in it where a Global lies, if its value is a place
fn global_place(binding: Binding) -> Option<(u32, u32)>
    ensures { result ≡ keys.global_place binding }
{
    match binding {
        Binding::Global(Value::Place { section, offset }) => Some((section, offset)),
        Binding::Global(Value::Absolute(_))
        | Binding::Local(_)
        | Binding::Undefined
        | Binding::Common { .. }
        | Binding::Weak(_) => None,
    }
}

// the place of the Global that a fallback names
fn of_named(neutral: &Neutral, place: Option<(u32, u32)>) -> ValueFields
    requires there { IfSome place (λ p. p.0 < length neutral.now.sections) }
    ensures { AreValueFields result (option_map_or (λ (p : HeldPlace). symbols.value_fields_at neutral.now p.0 p.1) place symbols.value_fields_elsewhere) }
{
    match place {
        Some((section, offset)) => at_place(neutral, section, offset),
        None => ELSEWHERE,
    }
}

// a fallback; a Name lies where its Global does
fn of_fallback(neutral: &Neutral, fallback: Fallback) -> ValueFields
    requires there { IsFallback neutral.now fallback }
    ensures { AreValueFields result (symbols.value_fields_for neutral.now fallback) }
{
    neutral.is_object();
    match fallback {
        Fallback::Place { section, offset } => at_place(neutral, section, offset),
        Fallback::Zero => ELSEWHERE,
        Fallback::Name(k) => of_named(neutral, global_place(neutral.symbol(k).binding)),
    }
}

/// The value of a symbol. Constant time.
pub(crate) fn of_binding(neutral: &Neutral, binding: Binding) -> ValueFields
    requires there { IsBinding neutral.now binding }
    ensures { AreValueFields result (symbols.value_fields_of neutral.now binding) }
{
    match binding {
        Binding::Local(value) | Binding::Global(value) => of_value(neutral, value),
        Binding::Undefined => ELSEWHERE,
        Binding::Common { align, .. } => ValueFields {
            st_value: u64::from(align),
            st_shndx: SHN_COMMON,
        },
        Binding::Weak(fallback) => of_fallback(neutral, fallback),
    }
}

// the binding as a number
fn bind_by(binding: Binding) -> u8
    ensures bind { result ≡ symbols.bind_by binding }
    ensures low { result < 16 }
{
    match binding {
        Binding::Local(_) => STB_LOCAL,
        Binding::Global(_) | Binding::Undefined | Binding::Common { .. } => STB_GLOBAL,
        Binding::Weak(_) => STB_WEAK,
    }
}

// the mark of a symbol: that of a common is Object
fn mark_by(binding: Binding, mark: Mark) -> Mark
    ensures { result ≡ elf_mark binding mark }
{
    match binding {
        Binding::Common { .. } => Mark::Object,
        Binding::Local(_) | Binding::Global(_) | Binding::Undefined | Binding::Weak(_) => mark,
    }
}

// the mark as a number
fn type_by(mark: Mark) -> u8
    ensures type_is { result ≡ symbols.type_by mark }
    ensures low { result < 16 }
{
    match mark {
        Mark::NoType => STT_NOTYPE,
        Mark::Object => STT_OBJECT,
        Mark::Function => STT_FUNC,
    }
}

/// `st_info` of a symbol. Constant time.
pub(crate) fn info_by(binding: Binding, mark: Mark) -> u8
    ensures { result ≡ symbols.st_info_by (symbols.bind_by binding) (symbols.type_by (elf_mark binding mark)) }
{
    16 * bind_by(binding) + type_by(mark_by(binding, mark))
}

/// `st_other` of a symbol. Constant time.
pub(crate) fn other_by(visibility: Visibility) -> u8
    ensures { result ≡ symbols.other_by visibility }
{
    match visibility {
        Visibility::Default => STV_DEFAULT,
        Visibility::Internal => STV_INTERNAL,
        Visibility::Hidden => STV_HIDDEN,
        Visibility::Protected => STV_PROTECTED,
    }
}

/// `st_size` of a symbol of that size: a common has its own. Constant time.
pub(crate) fn size_by(binding: Binding, own: u64) -> u64
    ensures { result ≡ elf_size binding own }
{
    match binding {
        Binding::Common { size, .. } => size,
        Binding::Local(_) | Binding::Global(_) | Binding::Undefined | Binding::Weak(_) => own,
    }
}
