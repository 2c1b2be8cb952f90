//! What frames and targets name.
ghost use Rattle.std.specs.Prelude.{◌≡◌};
ghost use Rattle.oc_omf_judge.specs.Named as specs;

use crate::held::value_of;
use crate::whole::Whole;
use oc_omf::Method;
use std::collections::BTreeMap;

/// What a frame or a target names.
#[derive(Clone, Copy, Debug, PartialEq, Eq, Drop)]
pub(crate) enum Referent<'a> {
    /// A section, by its position.
    Section(u32),
    /// A symbol that is no place in a section of this module alone: whether this module alone sees
    /// it, and its name.
    Symbol(bool, &'a [u8]),
}

/// A segment by its index, which counts from 1. Constant time.
pub(crate) fn section_at<'a>(index: u32) -> Referent<'a>
    ensures { result ≡ specs.section_at index }
{
    Referent::Section(index.saturating_sub(1))
}

// what a symbol is; `locals` has the segments of those that this module alone sees
fn named_symbol<'a>(locals: &BTreeMap<&'a [u8], u32>, local: bool, name: &'a [u8]) -> Referent<'a>
    ensures { result ≡ specs.named_symbol locals.now local name.entry }
{
    if !local {
        return Referent::Symbol(local, name);
    }
    match value_of(locals, name) {
        Some(segment) => section_at(segment),
        None => Referent::Symbol(local, name),
    }
}

// what the external of an index is
fn named_external<'a>(whole: &Whole<'a>, index: u16) -> Option<Referent<'a>>
    ensures { result ≡ specs.named_external whole.now index }
{
    if index == 0 {
        return None;
    }
    match whole.front.seen.externals.get(usize::from(index) - 1) {
        Some(external) => Some(named_symbol(&whole.locals, external.local, external.name)),
        None => None,
    }
}

/// What a method names, if it is the index of a segment or of an external that exists. For an
/// external the time is that of about log2(n) comparisons of names.
pub(crate) fn named_of<'a>(whole: &Whole<'a>, method: Method) -> Option<Referent<'a>>
    ensures { result ≡ specs.named_of whole.now method }
{
    match method.number {
        0 => Some(section_at(u32::from(method.index))),
        2 => named_external(whole, method.index),
        1 | 3.. => None,
    }
}

// whether what is named is the section at a position
fn is_section(named: Referent<'_>, position: u32) -> bool
    ensures { result ≡ specs.is_section named.entry position }
{
    match named {
        Referent::Section(other) => position == other,
        Referent::Symbol(_local, _name) => false,
    }
}

// whether two symbols are one
fn same_symbol(local: bool, name: &[u8], other_local: bool, other_name: &[u8]) -> bool
    ensures { result ≡ specs.same_names local name.now other_local other_name.now }
{
    local == other_local && name == other_name
}

// whether what is named is that symbol
fn is_symbol(named: Referent<'_>, local: bool, name: &[u8]) -> bool
    ensures { result ≡ specs.is_symbol named.entry local name.now }
{
    match named {
        Referent::Section(_position) => false,
        Referent::Symbol(other_local, other_name) => {
            same_symbol(local, name, other_local, other_name)
        }
    }
}

/// Whether two things that are named are one. Linear in their names.
pub(crate) fn same(one: Referent<'_>, other: Referent<'_>) -> bool
    ensures { result ≡ specs.same one.entry other.entry }
{
    match one {
        Referent::Section(position) => is_section(other, position),
        Referent::Symbol(local, name) => is_symbol(other, local, name),
    }
}
