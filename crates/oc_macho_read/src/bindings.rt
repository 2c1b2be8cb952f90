//! The bindings of symbols.
ghost use Rattle.std.specs.Prelude.{◌≡◌, ◌-◌, ◌≤◌, true, false};
ghost use Rattle.oc_linking.specs.declared.terms.Binding.TheVariants.{Weak};
ghost use Rattle.oc_linking.specs.declared.terms.Fallback.TheVariants as fallback;
ghost use Rattle.oc_linking.specs.declared.terms.Value.TheVariants as value;
ghost use Rattle.oc_macho.specs.Symbols as symbols;
ghost use Rattle.oc_macho_read.specs.Built.{IsSound};

use oc_macho::{Frame, N_ABS, N_SECT, N_UNDF, N_WEAK_DEF, N_WEAK_REF, Nlist, has};
use oc_macho_judge::{header_numbered, is_external, is_type};
use oc_neutral::{Binding, Fallback, Value};

/// The offset of a symbol in its section. Constant time.
pub(crate) fn offset_of(frame: &Frame, s: &Nlist) -> u64
    ensures { result ≡ symbols.offset_of frame.now s.now }
{
    match header_numbered(frame, s.n_sect.into()) {
        Some(h) => s.n_value.saturating_sub(h.addr),
        None => s.n_value,
    }
}

// the value of a symbol in a section
fn place_of(frame: &Frame, s: &Nlist) -> Value
    requires { symbols.offset_of frame.now s.now ≤ 2147483647 }
    ensures { result ≡ value.Place (s.now.n_sect - 1) (symbols.offset_of frame.now s.now) }
{
    Value::Place {
        section: u32::from(s.n_sect).saturating_sub(1),
        offset: offset_of(frame, s) as u32,
    }
}

// the value of a symbol that is defined
fn value_of(frame: &Frame, s: &Nlist) -> Value
    requires { symbols.is_type N_ABS s.now ≡ false → symbols.offset_of frame.now s.now ≤ 2147483647 }
    ensures { result ≡ symbols.value_of frame.now s.now }
{
    if is_type(N_ABS, s) {
        return Value::Absolute(s.n_value);
    }
    place_of(frame, s)
}

// the binding of a symbol without a section
fn outer_binding(s: &Nlist) -> Binding
    ensures { result ≡ symbols.outer_binding s.now }
{
    if s.n_value != 0 {
        return Binding::Common {
            size: s.n_value,
            align: 1 << (s.n_desc / 256 % 16),
        };
    }
    if has(s.n_desc.into(), N_WEAK_REF.into()) {
        return Binding::Weak(Fallback::Zero);
    }
    Binding::Undefined
}

// what a weak symbol is where no other file defines it
fn fallback_of(frame: &Frame, s: &Nlist) -> Binding
    requires { symbols.offset_of frame.now s.now ≤ 2147483647 }
    ensures { result ≡ Weak (fallback.Place (s.now.n_sect - 1) (symbols.offset_of frame.now s.now)) }
{
    Binding::Weak(Fallback::Place {
        section: u32::from(s.n_sect).saturating_sub(1),
        offset: offset_of(frame, s) as u32,
    })
}

// the binding of an external symbol
fn external_binding(frame: &Frame, s: &Nlist) -> Binding
    requires { IsSound frame.now s.now }
    ensures { result ≡ symbols.external_binding frame.now s.now }
{
    if is_type(N_UNDF, s) {
        return outer_binding(s);
    }
    if is_type(N_SECT, s) && has(s.n_desc.into(), N_WEAK_DEF.into()) {
        return fallback_of(frame, s);
    }
    Binding::Global(value_of(frame, s))
}

/// The binding of a symbol. Constant time.
#[tactic(auto, unfolding(oc_macho::specs::Symbols::binding_of))]
pub(crate) fn binding_of(frame: &Frame, s: &Nlist) -> Binding
    requires { IsSound frame.now s.now }
    ensures { result ≡ symbols.binding_of frame.now s.now }
{
    if is_external(s) {
        return external_binding(frame, s);
    }
    Binding::Local(value_of(frame, s))
}
