//! The values and section numbers of symbols, and what else their entries say of them (PE/COFF, "COFF
//! Symbol Table", "Section Number Values" and "Storage Class"; our profile).
ghost use Rattle.std.specs.Prelude.{◌≡◌, ◌^◌, ◌<◌, ◌+◌};
ghost use Rattle.oc_coff.specs.Values as values;
ghost use Rattle.oc_coff.specs.Values.{HasRoom, AreNumbers};

use crate::constants::{
    IMAGE_SYM_ABSOLUTE, IMAGE_SYM_CLASS_EXTERNAL, IMAGE_SYM_CLASS_STATIC,
    IMAGE_SYM_CLASS_WEAK_EXTERNAL, IMAGE_SYM_TYPE_FUNCTION, IMAGE_SYM_UNDEFINED,
};
use oc_neutral::{Binding, Fallback, Mark, Value};

/// A value, and the number of the section that it counts from.
#[derive(Clone, Copy)]
pub struct Numbers {
    /// An offset in the section, a size or a number.
    pub value: u32,
    /// The number of the section, from 1, or one of the constants `IMAGE_SYM_*`.
    pub section: u32,
}

/// Nothing, in no section.
const UNDEFINED: Numbers = Numbers {
    value: 0,
    section: IMAGE_SYM_UNDEFINED,
};

// a place in a section
fn at_place(section: u32, offset: u32) -> Numbers
    requires { section + 1 < 2 ^ 32 }
    ensures { AreNumbers result (offset, section + 1) }
{
    Numbers {
        value: offset,
        section: section + 1,
    }
}

// a value
fn of_value(value: Value) -> Numbers
    requires { HasRoom (values.numbers_of value) }
    ensures { AreNumbers result (values.numbers_of value) }
{
    match value {
        Value::Place { section, offset } => at_place(section, offset),
        Value::Absolute(number) => Numbers {
            value: number as u32,
            section: IMAGE_SYM_ABSOLUTE,
        },
    }
}

/// The value of a symbol. Constant time.
pub fn of_binding(binding: Binding) -> Numbers
    requires { HasRoom (values.numbers_by binding) }
    ensures { AreNumbers result (values.numbers_by binding) }
{
    match binding {
        Binding::Local(value) | Binding::Global(value) => of_value(value),
        Binding::Common { size, .. } => Numbers {
            value: size as u32,
            section: IMAGE_SYM_UNDEFINED,
        },
        Binding::Undefined | Binding::Weak(_) => UNDEFINED,
    }
}

// what stands for a fallback
fn of_fallback(fallback: Fallback) -> Numbers
    requires { HasRoom (values.numbers_for fallback) }
    ensures { AreNumbers result (values.numbers_for fallback) }
{
    match fallback {
        Fallback::Place { section, offset } => at_place(section, offset),
        Fallback::Zero => Numbers {
            value: 0,
            section: IMAGE_SYM_ABSOLUTE,
        },
        Fallback::Name(_) => UNDEFINED,
    }
}

/// The value of the symbol that stands for the fallback of a Weak. Constant time.
pub fn of_default(binding: Binding) -> Numbers
    requires { HasRoom (values.default_numbers binding) }
    ensures { AreNumbers result (values.default_numbers binding) }
{
    match binding {
        Binding::Weak(fallback) => of_fallback(fallback),
        Binding::Local(_) | Binding::Global(_) | Binding::Undefined | Binding::Common { .. } => {
            UNDEFINED
        }
    }
}

/// The type of a symbol. Constant time.
pub fn type_by(mark: Mark) -> u16
    ensures { result ≡ values.type_by mark }
{
    match mark {
        Mark::Function => IMAGE_SYM_TYPE_FUNCTION,
        Mark::NoType | Mark::Object => 0,
    }
}

/// The class of a symbol. Constant time.
pub fn class_by(binding: Binding) -> u8
    ensures { result ≡ values.class_by binding }
{
    match binding {
        Binding::Local(_) => IMAGE_SYM_CLASS_STATIC,
        Binding::Global(_) | Binding::Undefined | Binding::Common { .. } => {
            IMAGE_SYM_CLASS_EXTERNAL
        }
        Binding::Weak(_) => IMAGE_SYM_CLASS_WEAK_EXTERNAL,
    }
}

/// How many auxiliary entries a symbol has. Constant time.
pub fn aux_by(binding: Binding) -> u8
    ensures { result ≡ values.aux_by binding }
{
    match binding {
        Binding::Weak(_) => 1,
        Binding::Local(_) | Binding::Global(_) | Binding::Undefined | Binding::Common { .. } => 0,
    }
}
