//! What fixups do, each by what is in force where it lies.
ghost use Rattle.std.specs.Prelude.{◌≡◌, true, false};
ghost use Rattle.std.specs.Option.{option_and_then, option_map};
ghost use Rattle.oc_omf.specs.Targets as targets;
ghost use Rattle.oc_omf_read.specs.Aims as aims;
ghost use Rattle.oc_omf_read.specs.Mentioned.{seen_of};

use crate::fix::{Fix, FixupFrame};
use crate::known::{kind_in, name_in};
use crate::mentioned::{Mentioned, Mentions};
use oc_neutral::{Keep, Target};
use oc_omf::{Fixup, Method, Module, OFFSET_32, Threads};
use oc_omf_judge::{Defined, method_of};

/// What a frame or a target names: a symbol by its number, or a section by its position.
#[derive(Clone, Copy, PartialEq, Eq)]
pub enum Named {
    /// A symbol.
    Symbol(u32),
    /// A section.
    Section(u32),
}

/// What a method names: as the object has it, and as frames are compared with it.
#[derive(Clone, Copy)]
pub struct Aim {
    /// As the object has it.
    pub target: Target,
    /// As frames are compared with it: a symbol of the module alone counts as its section.
    pub named: Named,
}

/// A module, with what is known of it where its fixups are read.
#[derive(Clone, Copy)]
pub struct FixupContext<'s, 'f> {
    /// The module.
    pub(crate) omf: &'s Module<'f>,
    /// What it defines.
    pub(crate) known: &'s Defined<'f>,
    /// Its symbols.
    pub(crate) mentions: &'s Mentions<'f>,
    /// What is kept.
    pub(crate) keep: Keep,
}

// what a symbol of that number names
fn named_by(symbol: &Mentioned, number: u32) -> Named
    ensures { aims.named_as result ≡ aims.symbol_named (seen_of symbol.now) number }
{
    match symbol.place {
        Some((segment, _)) if symbol.local => Named::Section(u32::from(segment).saturating_sub(1)),
        Some(_) | None => Named::Symbol(number),
    }
}

// what the external of an index is
fn external_of(context: &FixupContext, index: u16) -> Option<Aim>
    requires { aims.Sees context.now }
    ensures { option_map aims.aim_as result ≡ aims.external_aim (aims.meaning_seen context.now) index }
{
    let index = usize::from(index);
    if index == 0 {
        return None;
    }
    if index > context.mentions.externals.len() {
        return None;
    }
    let number = context.mentions.externals[index - 1];
    let named = named_by(&context.mentions.symbols[number as usize], number);
    Some(Aim {
        target: Target::Symbol(number),
        named,
    })
}

// what a method names: a segment or an external
fn aim_of(context: &FixupContext, method: Method) -> Option<Aim>
    requires { aims.Sees context.now }
    ensures { option_map aims.aim_as result ≡ aims.aim_by (aims.meaning_seen context.now) method }
{
    if method.number == 2 {
        return external_of(context, method.index);
    }
    if method.number != 0 {
        return None;
    }
    let k = u32::from(method.index).saturating_sub(1);
    Some(Aim {
        target: Target::Section(k),
        named: Named::Section(k),
    })
}

// whether a frame is the group FLAT
fn is_flat(context: &FixupContext, frame: Method) -> bool
    requires { aims.Sees context.now }
    ensures { result ≡ targets.is_flat (aims.meaning_seen context.now) frame }
{
    let index = usize::from(frame.index);
    if frame.number != 1 {
        return false;
    }
    if index == 0 {
        return false;
    }
    if index > context.known.groups.len() {
        return false;
    }
    name_in(context.known, context.known.groups[index - 1]) == b"FLAT".as_slice()
}

// whether a frame is what the target of a fixup of data of that segment names
fn is_home(context: &FixupContext, segment: u16, frame: Method, target: Named) -> bool
    requires { aims.Sees context.now }
    ensures { result ≡ aims.is_home_of (aims.meaning_seen context.now) segment frame (aims.named_as target) }
{
    if frame.number == 5 {
        return true;
    }
    if frame.number == 4 {
        return target == Named::Section(u32::from(segment).saturating_sub(1));
    }
    match aim_of(context, frame) {
        Some(aim) => aim.named == target,
        None => false,
    }
}

// from where a segment-relative fixup counts
fn framed_by(
    context: &FixupContext,
    segment: u16,
    frame: Method,
    target: Named,
) -> Option<FixupFrame>
    requires { aims.Sees context.now }
    ensures { result ≡ aims.framed_by (aims.meaning_seen context.now) segment (aims.named_as target) frame }
{
    if is_flat(context, frame) {
        return Some(FixupFrame::Flat);
    }
    if is_home(context, segment, frame, target) {
        return Some(FixupFrame::Home);
    }
    None
}

// from where a fixup counts
fn framed_of(
    context: &FixupContext,
    threads: &Threads,
    segment: u16,
    fixup: &Fixup,
    target: Named,
) -> Option<FixupFrame>
    requires { aims.Sees context.now }
    ensures { result ≡ aims.framed_of (aims.meaning_seen context.now) segment fixup.now (aims.method_of_frame threads.now fixup.now) (aims.named_as target) }
{
    if !fixup.segment_relative {
        return Some(FixupFrame::Own);
    }
    match method_of(threads, true, fixup.frame) {
        Some(frame) => framed_by(context, segment, frame, target),
        None => None,
    }
}

// what the target of a fixup is
fn target_of(context: &FixupContext, threads: &Threads, fixup: &Fixup) -> Option<Aim>
    requires { aims.Sees context.now }
    ensures { option_map aims.aim_as result ≡ option_and_then (aims.aim_by (aims.meaning_seen context.now)) (aims.method_of_target threads.now fixup.now) }
{
    match method_of(threads, false, fixup.target) {
        Some(method) => aim_of(context, method),
        None => None,
    }
}

// what a fixup of data of a segment does that is aimed so
fn fix_to(
    context: &FixupContext,
    threads: &Threads,
    segment: u16,
    fixup: &Fixup,
    aim: Aim,
) -> Option<Fix>
    requires { aims.Sees context.now }
    ensures { result ≡ aims.fix_to (aims.meaning_seen context.now) segment fixup.now (aims.method_of_frame threads.now fixup.now) (aims.aim_as aim) }
{
    match framed_of(context, threads, segment, fixup, aim.named) {
        Some(framed) => Some(Fix {
            framed,
            target: aim.target,
            displacement: fixup.displacement,
        }),
        None => None,
    }
}

// what a fixup of data of a segment does
fn fix_by(context: &FixupContext, threads: &Threads, segment: u16, fixup: &Fixup) -> Option<Fix>
    requires { aims.Sees context.now }
    ensures { result ≡ aims.fix_by_threads (aims.meaning_seen context.now) threads.now segment fixup.now }
{
    match target_of(context, threads, fixup) {
        Some(aim) => fix_to(context, threads, segment, fixup, aim),
        None => None,
    }
}

// whether the segment of an index is kept
fn is_kept(context: &FixupContext, segment: u16) -> bool
    requires { aims.Sees context.now }
    ensures { result ≡ aims.is_kept (aims.meaning_seen context.now).tables context.now.keep segment }
{
    let index = usize::from(segment);
    if index == 0 {
        return false;
    }
    if index > context.known.segments.len() {
        return false;
    }
    context.keep.keeps(kind_in(context.known, index - 1))
}

/// What a fixup of data of a segment does, where that is kept and the fixup has a row. Constant time,
/// but for the names of groups.
#[tactic(auto, unfolding(crate::specs::Aims::fix_for))]
pub(crate) fn fix_of(
    context: &FixupContext,
    threads: &Threads,
    segment: u16,
    fixup: &Fixup,
) -> Option<Fix>
    requires { aims.Sees context.now }
    ensures { result ≡ aims.fix_for_threads (aims.meaning_seen context.now) context.now.keep threads.now segment fixup.now }
{
    if fixup.location == OFFSET_32 && is_kept(context, segment) {
        return fix_by(context, threads, segment, fixup);
    }
    None
}
