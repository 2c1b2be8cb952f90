//! Planning the canonical Mach-O file of an object that is ready to be written.
ghost use Rattle.std.specs.Prelude.{◌≡◌, IfOk, map};
ghost use Rattle.oc_macho.specs.MachHeader.{mach_format};
ghost use Rattle.oc_shelf.specs.Writing.Parts.{file_of};
ghost use Rattle.oc_target.specs.Fitted.{IsFitted};
ghost use Rattle.oc_macho_file.specs.Canonical.{mach_file};
ghost use Rattle.oc_macho_file.specs.Layout as file;
ghost use Rattle.oc_macho_write.specs.LaidParts.{AreLaid};
ghost use Rattle.oc_macho_write.specs.Plans.{AreMade};
ghost use Rattle.oc_macho_write.specs.Relocations.{all_raws};
ghost use Rattle.oc_macho_write.specs.Values.{AreAddresses};

use crate::addresses::Addresses;
use crate::bodies::bodies_of;
use crate::forms::FieldContext;
use crate::headers::Output;
use crate::heads::heads_of;
use crate::layout::layout_of;
use crate::lines::lines_of;
use crate::parts::parts_of;
use crate::places::Places;
use crate::plan::{MachParts, Plan};
use oc_base::{NoMemory, Word};
use oc_neutral::{Neutral, Section};
use oc_plans::with_numbers;
use oc_shelf::Layout;
use oc_target::Fitted;
use std::alloc::Global;

// the sections of an object, which have these addresses, with the numbers in their fields
fn sections_of(word: Word, addresses: &[u64], neutral: Neutral) -> Vec<Section>
    requires fitted { IsFitted (mach_format word) neutral }
    requires addresses { AreAddresses neutral addresses.now }
    ensures { map (λ s. s.bytes) result.items ≡ all_raws word neutral }
{
    let (_groups, sections, symbols, relocs) = neutral.into_parts();
    let context = FieldContext {
        word,
        addresses,
        symbols: &symbols,
    };
    with_numbers(&context, &relocs, sections)
}

// what the file of an object is made of, and where its parts stand
fn made_of(alloc: Global, word: Word, fitted: Fitted) -> Result<(MachParts, Layout), NoMemory>
    requires { fitted.format ≡ mach_format word }
    ensures made { IfOk result (λ made. AreMade word fitted made.0) }
    ensures laid { IfOk result (λ made. AreLaid word fitted made.1 (file.parts_of fitted)) }
{
    fitted.is_fitted();
    let neutral = fitted.neutral();
    let addresses = Addresses::of(alloc, neutral)?;
    let lines = lines_of(alloc, word, neutral)?;
    let bodies = bodies_of(alloc, word, neutral, &addresses, &lines.all)?;
    let parts = parts_of(alloc, neutral)?;
    let layout = layout_of(alloc, word, neutral, &bodies, &parts)?;
    let places = Places::of(alloc, neutral, &parts, &layout.places)?;
    let output = Output {
        word,
        neutral,
        addresses: &addresses,
        bodies: &bodies,
        places: &places,
    };
    let heads = heads_of(alloc, &output, &lines)?;
    let sections = sections_of(word, &addresses.sections, fitted.into_neutral());
    let parts = MachParts {
        word,
        heads,
        parts,
        sections,
        bodies,
    };
    Ok((parts, layout))
}

/// The plan of the canonical Mach-O file of an object that is ready to be written. `NoMemory` where
/// memory ran out. Linear in the object, but for looking up names in the string table; what the plan
/// does not need of the object is given back.
pub(crate) fn plan_object(alloc: Global, word: Word, fitted: Fitted) -> Result<Plan, NoMemory>
    requires { fitted.format ≡ mach_format word }
    ensures { IfOk result (λ plan. file_of plan ≡ mach_file word fitted) }
{
    fitted.is_fitted();
    let (parts, layout) = made_of(alloc, word, fitted)?;
    Ok(Plan::new(parts, layout))
}
