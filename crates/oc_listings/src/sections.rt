//! The sections of an object.
ghost use Rattle.std.specs.Prelude.{◌≡◌, ◌++◌, OnOk, string_bytes};
ghost use Rattle.std.specs.List.{flat_map};
ghost use Rattle.oc_listings.specs.ObjectListings as listings;

use crate::numbers::put_number;
use crate::terms::kind_text;
use oc_base::NoMemory;
use oc_dump::put_name;
use oc_neutral::{Neutral, Section};

// puts the line of a section after the text
#[tactic(auto, unfolding(crate::specs::Texts::section_text))]
fn put_section(out: &mut String, section: &Section) -> Result<(), NoMemory>
    ensures { OnOk result (string_bytes out.new ≡ string_bytes out.old ++ listings.section_line section.now) }
{
    put_number(out, section.number)?;
    out.push_str(kind_text(section.kind))?;
    out.push_str(" ")?;
    put_number(out, section.align)?;
    put_number(out, section.size)?;
    put_name(out, section.name.as_slice())?;
    out.push_str("\n")?;
    Ok(())
}

/// Puts the lines of the sections after the text. Linear in the sections and their names.
pub(crate) fn put_sections(out: &mut String, neutral: &Neutral) -> Result<(), NoMemory>
    ensures { OnOk result (string_bytes out.new ≡ string_bytes out.old ++ flat_map listings.section_line neutral.now.sections) }
{
    for section in neutral.sections() {
        put_section(out, section)?;
    }
    Ok(())
}
