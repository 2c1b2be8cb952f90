//! Sections and commons as a target has them.
ghost use Rattle.std.specs.Prelude.{◌≡◌, length};
ghost use Rattle.oc_target.specs.Dress.{with_commons, with_dress};

use crate::aligns::{common_align, output_align};
use crate::homes::output_tag;
use oc_base::{Bytes, Format};
use oc_neutral::{Binding, Neutral};

/// Gives each section its name, and the tag and the alignment that it has in a target. Time is linear in
/// the sections; no memory.
pub fn dress_sections(target: Format, names: Vec<Bytes>, neutral: &mut Neutral)
    requires { length names.items ≡ length neutral.old.sections }
    ensures { neutral.new ≡ with_dress target names.items neutral.old }
{
    neutral.is_object();
    let from = neutral.format();
    let mut names = names;
    while let Some(name) = names.pop() {
        let k = names.len() as u32;
        let section = neutral.section(k);
        let tag = output_tag(target, from, section);
        let align = output_align(target, section.align);
        neutral.dress_section(k, name, tag, align);
    }
}

/// Gives each common the alignment that it has in a target. Time is linear in the symbols; no memory.
pub fn align_commons(target: Format, neutral: &mut Neutral)
    ensures { neutral.new ≡ with_commons target neutral.old }
{
    neutral.is_object();
    for k in 0..neutral.symbol_count() {
        if let Binding::Common { size, align } = neutral.symbol(k).binding {
            neutral.set_common_align(k, common_align(target, size, align));
        }
    }
}
