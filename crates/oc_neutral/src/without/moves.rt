//! The new positions of what stays.
ghost use Rattle.std.specs.Prelude.{◌≡◌, ◌^◌, ◌<◌, length, IfOk};
ghost use Rattle.oc_neutral.specs.Without as without;

use crate::reloc::{Reloc, Target};
use crate::without::positions::new_positions;
use oc_algebra::{Form, Less};
use oc_base::NoMemory;
use oc_linking::{Binding, Fallback, Value};
use std::alloc::Global;
use std::marker::Model;

/// For each item of a list, whether it stays, and its position then. Contracts see the flags.
#[derive(Debug, Drop)]
pub(crate) struct Moves<'a> {
    stay: &'a [bool],
    positions: Vec<u32>,
    count: u32,
}

impl<'a> Model for Moves<'a> {
    ghost use Rattle.std.specs.Prelude.{Bool, List};
    ghost use Rattle.oc_neutral.specs.Without.{AreMoves};

    ghost Value = { List Bool };

    ghost view = { λ m. m.stay.now };

    ghost invariant = { λ m. AreMoves m.stay.now m.positions.items m.count };
}

impl<'a> Moves<'a> {
    /// The moves where these stay. `NoMemory` where memory ran out. Linear in the list.
    pub(crate) fn new(alloc: Global, stay: &'a [bool]) -> Result<Moves<'a>, NoMemory>
        requires { length stay.now < 2 ^ 31 }
        ensures { IfOk result (λ moves. moves ≡ stay.now) }
    {
        let positions = new_positions(alloc, stay)?;
        let count = count_of(stay);
        Ok(Moves {
            stay,
            positions,
            count,
        })
    }

    // the new position of the item at a position
    fn position(&self, at: u32) -> u32
        ensures { result ≡ without.new_position self.now at }
    {
        match self.positions.get(at as usize) {
            Some(position) => *position,
            None => self.count,
        }
    }
}

// how many stay
fn count_of(stay: &[bool]) -> u32
    requires { length stay.now < 2 ^ 31 }
    ensures { result ≡ without.count_of stay.now }
{
    let mut count = 0;
    for stays in stay {
        if *stays {
            count += 1;
        }
    }
    count
}

// a value, where sections moved
fn moved_value(sections: &Moves, value: Value) -> Value
    ensures { result ≡ without.moved_value sections.now value }
{
    match value {
        Value::Place { section, offset } => Value::Place {
            section: sections.position(section),
            offset,
        },
        Value::Absolute(_) => value,
    }
}

// a fallback, where sections and symbols moved
fn moved_fallback(sections: &Moves, symbols: &Moves, fallback: Fallback) -> Fallback
    ensures { result ≡ without.moved_fallback sections.now symbols.now fallback }
{
    match fallback {
        Fallback::Place { section, offset } => Fallback::Place {
            section: sections.position(section),
            offset,
        },
        Fallback::Zero => Fallback::Zero,
        Fallback::Name(at) => Fallback::Name(symbols.position(at)),
    }
}

/// A binding, where sections and symbols moved. Constant time, no memory.
pub(crate) fn moved_binding(sections: &Moves, symbols: &Moves, binding: Binding) -> Binding
    ensures { result ≡ without.moved_binding sections.now symbols.now binding }
{
    match binding {
        Binding::Local(value) => Binding::Local(moved_value(sections, value)),
        Binding::Global(value) => Binding::Global(moved_value(sections, value)),
        Binding::Weak(fallback) => Binding::Weak(moved_fallback(sections, symbols, fallback)),
        Binding::Undefined | Binding::Common { .. } => binding,
    }
}

// a target, where sections and symbols moved
fn moved_target(sections: &Moves, symbols: &Moves, target: Target) -> Target
    ensures { result ≡ without.moved_target sections.now symbols.now target }
{
    match target {
        Target::Section(at) => Target::Section(sections.position(at)),
        Target::Symbol(at) => Target::Symbol(symbols.position(at)),
    }
}

// what is taken, where sections moved
fn moved_less(sections: &Moves, less: Less) -> Less
    ensures { result ≡ without.moved_less sections.now less }
{
    match less {
        Less::Section(at) => Less::Section(sections.position(at)),
        _ => less,
    }
}

/// A relocation, where sections and symbols moved. Constant time, no memory.
pub(crate) fn moved_reloc(sections: &Moves, symbols: &Moves, reloc: Reloc) -> Reloc
    ensures { result ≡ without.moved_reloc sections.now symbols.now reloc }
{
    Reloc {
        target: moved_target(sections, symbols, reloc.target),
        form: Form {
            less: moved_less(sections, reloc.form.less),
            ..reloc.form
        },
        ..reloc
    }
}
