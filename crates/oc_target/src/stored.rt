//! What a target stores as a constant, and which sections have relocations in it.
ghost use Rattle.std.specs.Prelude.{◌≡◌, ◌<◌, length};
ghost use Rattle.std.specs.List.{list_any};
ghost use Rattle.oc_chains.specs.Lists.{list_of};
ghost use Rattle.oc_neutral.specs.Relocated as relocated;

use oc_base::Format;
use oc_chains::Field;
use oc_neutral::{Neutral, Reloc, is_stored};

// whether a field of a section stays a relocation in that format
fn stays(format: Format, section: u32, field: Field<Reloc>) -> bool
    ensures { result ≡ relocated.stays format section field }
{
    !is_stored(format, section, field.item)
}

// whether some field of a section stays a relocation
fn any_stays(target: Format, neutral: &Neutral, section: u32) -> bool
    requires { section < length neutral.now.sections }
    ensures { result ≡ list_any (relocated.stays target section) (list_of neutral.now.relocs section) }
{
    for field in neutral.relocs(section) {
        if stays(target, section, field) {
            return true;
        }
    }
    false
}

/// Whether a section has relocations in a target. Time at most linear in its relocations; no memory.
#[tactic(auto, unfolding(oc_neutral::specs::Relocated::is_relocated))]
pub fn is_relocated(target: Format, neutral: &Neutral, section: u32) -> bool
    requires { section < length neutral.now.sections }
    ensures { result ≡ relocated.is_relocated target neutral.now section }
{
    any_stays(target, neutral, section)
}
