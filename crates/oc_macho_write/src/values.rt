//! What symbol table entries say of symbols beside their names (Mach-O reference, "nlist").
ghost use Rattle.std.specs.Prelude.{◌≡◌, ◌*◌, ◌^◌, ◌<◌, ◌≤◌, ◌+◌, IfSome, length};
ghost use Rattle.std.specs.Option.{option_map_or};
ghost use Rattle.oc_neutral.specs.Invariants.{IsBinding, IsFallback, IsValue};
ghost use Rattle.oc_neutral.specs.KeySymbols as keys;
ghost use Rattle.oc_neutral.specs.Objects.{Object};
ghost use Rattle.oc_shows.specs.Manners.{hidden, mach_vis};
ghost use Rattle.oc_neutral.specs.Normal.{Place as HeldPlace};
ghost use Rattle.oc_macho_file.specs.Symbols as symbols;
ghost use Rattle.oc_macho_write.specs.Values.{AreAddresses, AreValueFields};

use oc_macho::{MOST_ALIGN_EXPONENT, N_ABS, N_EXT, N_PEXT, N_SECT, N_UNDF, N_WEAK_DEF, N_WEAK_REF};
use oc_neutral::{Binding, Fallback, Neutral, Value, Visibility};

/// A value, and the section that it counts from.
#[derive(Clone, Copy)]
pub(crate) struct ValueFields {
    /// One of the constants `N_UNDF`, `N_ABS` and `N_SECT`.
    pub(crate) n_type: u8,
    /// The number of the section, from 1, or 0.
    pub(crate) n_sect: u8,
    /// An address, a number, or the size of a common in bytes.
    pub(crate) n_value: u64,
}

/// The exponent of an alignment, a power of two up to 2^15; 0 of what is none of these. Constant time.
pub(crate) fn exponent_of(align: u32) -> u32
    ensures exponent { result ≡ symbols.exponent_of align }
    ensures low { result ≤ 15 }
{
    for exponent in 0..MOST_ALIGN_EXPONENT + 1 {
        if align == 1 << exponent {
            return exponent;
        }
    }
    0
}

// what is defined elsewhere; of a common the value is its size
fn elsewhere(size: u64) -> ValueFields
    ensures { AreValueFields result (symbols.value_fields_elsewhere size) }
{
    ValueFields {
        n_type: N_UNDF,
        n_sect: 0,
        n_value: size,
    }
}

/// An offset in the section at a position, where the sections have these addresses. Constant time.
pub(crate) fn at_place(addresses: &[u64], section: u32, offset: u32) -> ValueFields
    requires { (n : Object) × (AreAddresses n addresses.now) × (section < length n.sections) }
    ensures { (n : Object) → AreAddresses n addresses.now → AreValueFields result (symbols.value_fields_at n section offset) }
{
    ValueFields {
        n_type: N_SECT,
        n_sect: (section + 1) as u8,
        n_value: addresses[section as usize] + u64::from(offset),
    }
}

// a value
fn of_value(addresses: &[u64], value: Value) -> ValueFields
    requires { (n : Object) × (AreAddresses n addresses.now) × IsValue n value }
    ensures { (n : Object) → AreAddresses n addresses.now → AreValueFields result (symbols.value_fields_by n value) }
{
    match value {
        Value::Place { section, offset } => at_place(addresses, section, offset),
        Value::Absolute(number) => ValueFields {
            n_type: N_ABS,
            n_sect: 0,
            n_value: number,
        },
    }
}

/// The section and the offset in it where a Global lies, if its value is a place. Constant time.
pub(crate) fn global_place(binding: Binding) -> Option<(u32, u32)>
    ensures { result ≡ keys.global_place binding }
{
    match binding {
        Binding::Global(Value::Place { section, offset }) => Some((section, offset)),
        Binding::Global(Value::Absolute(_))
        | Binding::Local(_)
        | Binding::Undefined
        | Binding::Common { .. }
        | Binding::Weak(_) => None,
    }
}

// the place of the Global that a fallback names
fn of_named(addresses: &[u64], place: Option<(u32, u32)>) -> ValueFields
    requires { (n : Object) × (AreAddresses n addresses.now) × IfSome place (λ p. p.0 < length n.sections) }
    ensures { (n : Object) → AreAddresses n addresses.now
        → AreValueFields result (option_map_or (λ (p : HeldPlace). symbols.value_fields_at n p.0 p.1) place (symbols.value_fields_elsewhere 0)) }
{
    match place {
        Some((section, offset)) => at_place(addresses, section, offset),
        None => elsewhere(0),
    }
}

// a fallback; a Name lies where its Global does
fn of_fallback(neutral: &Neutral, addresses: &[u64], fallback: Fallback) -> ValueFields
    requires addresses { AreAddresses neutral.now addresses.now }
    requires there { IsFallback neutral.now fallback }
    ensures { AreValueFields result (symbols.value_fields_for neutral.now fallback) }
{
    neutral.is_object();
    match fallback {
        Fallback::Place { section, offset } => at_place(addresses, section, offset),
        Fallback::Zero => elsewhere(0),
        Fallback::Name(k) => of_named(addresses, global_place(neutral.symbol(k).binding)),
    }
}

/// The value of a symbol, where the sections have these addresses. Constant time.
pub(crate) fn of_binding(neutral: &Neutral, addresses: &[u64], binding: Binding) -> ValueFields
    requires addresses { AreAddresses neutral.now addresses.now }
    requires there { IsBinding neutral.now binding }
    ensures { AreValueFields result (symbols.value_fields_of neutral.now binding) }
{
    match binding {
        Binding::Local(value) | Binding::Global(value) => of_value(addresses, value),
        Binding::Undefined => elsewhere(0),
        Binding::Common { size, .. } => elsewhere(size),
        Binding::Weak(fallback) => of_fallback(neutral, addresses, fallback),
    }
}

// that the symbol is seen by all files
fn external_flag(binding: Binding) -> u8
    ensures flag { result ≡ symbols.external_flag binding }
    ensures low { result ≤ 1 }
{
    match binding {
        Binding::Local(_) => 0,
        Binding::Global(_) | Binding::Undefined | Binding::Common { .. } | Binding::Weak(_) => {
            N_EXT
        }
    }
}

// that a definition of that visibility is seen within one program or library alone
fn hidden_flag(visibility: Visibility) -> u8
    ensures flag { result ≡ symbols.private_flag (hidden visibility) }
    ensures low { result ≤ 16 }
{
    match visibility {
        Visibility::Default | Visibility::Protected => 0,
        Visibility::Internal | Visibility::Hidden => N_PEXT,
    }
}

// that the symbol is seen within one program or library alone: only definitions can be
fn private_flag(binding: Binding, visibility: Visibility) -> u8
    ensures flag { result ≡ symbols.private_flag (mach_vis binding visibility) }
    ensures low { result ≤ 16 }
{
    match binding {
        Binding::Global(_) | Binding::Weak(Fallback::Place { .. } | Fallback::Name(_)) => {
            hidden_flag(visibility)
        }
        Binding::Local(_)
        | Binding::Undefined
        | Binding::Common { .. }
        | Binding::Weak(Fallback::Zero) => 0,
    }
}

/// The type of a symbol of that value, with who sees it. Constant time.
pub(crate) fn type_by(stood: ValueFields, binding: Binding, visibility: Visibility) -> u8
    requires { stood.n_type ≤ 14 }
    ensures { result ≡ stood.n_type + symbols.external_flag binding + symbols.private_flag (mach_vis binding visibility) }
{
    stood.n_type + external_flag(binding) + private_flag(binding, visibility)
}

/// `n_desc` of a symbol: that a definition gives way, or that none is needed; of a common the exponent
/// of its alignment, in bits 8 to 11. Constant time.
pub(crate) fn desc_by(binding: Binding) -> u16
    ensures { result ≡ symbols.desc_by binding }
{
    match binding {
        Binding::Local(_) | Binding::Global(_) | Binding::Undefined => 0,
        Binding::Common { align, .. } => (exponent_of(align) as u16) << 8,
        Binding::Weak(Fallback::Zero) => N_WEAK_REF,
        Binding::Weak(Fallback::Place { .. } | Fallback::Name(_)) => N_WEAK_DEF,
    }
}
