//! The steps of a conversion.
ghost use Rattle.std.specs.Prelude.{◌≡◌, ◌^◌, ◌≤◌, length, None, Ok, IfErr, IfOk, OnOk};
ghost use Rattle.oc_base.specs.Formats.{word_for};
ghost use Rattle.oc_base.specs.declared.limits.TheConstants.{MOST_INPUT};
ghost use Rattle.oc_base.specs.Stops.{IsStop};
ghost use Rattle.oc_neutral.specs.Invariants.{IsObject};
ghost use Rattle.oc_shows.specs.Readable.{IsReadable};
ghost use Rattle.oc_shows.specs.Shows.{Shows};
ghost use Rattle.oc_drop.specs.Refusals.{IsStepRefusal};
ghost use Rattle.oc_names.specs.Edited as editing;
ghost use Rattle.oc_convert.specs.Converted.{IsReady};
ghost use Rattle.oc_convert.specs.Refusals.{first_refusal};

use oc_base::{Format, Stop};
use oc_express::fit;
use oc_names::{Edits, apply, edited_is_readable, keep_for};
use oc_neutral::{Keep, Neutral};
use oc_shows::Reads;
use oc_target::Fitted;
use std::alloc::Global;

// reads a file as it is kept
fn read<R: Reads>(alloc: Global, reader: &R, bytes: &[u8], keep: &Keep) -> Result<Neutral, Stop>
    requires { length bytes.now ≤ MOST_INPUT }
    ensures well_formed { OnOk result (R.dialect.rules.fault bytes.now keep.now ≡ None) }
    ensures object { IfOk result IsObject }
    ensures shows { IfOk result (Shows R.dialect bytes.now keep.now) }
    ensures readable { IfOk result IsReadable }
    ensures refused { IfErr result (IsStop (R.dialect.rules.fault bytes.now keep.now)) }
{
    let neutral = reader.read(alloc, bytes, keep)?;
    neutral.is_object();
    Ok(neutral)
}

// edits an object for a target
fn edited(alloc: Global, neutral: Neutral, edits: &Edits, to: Format) -> Result<Neutral, Stop>
    requires { IsReadable neutral }
    ensures ok { IfOk result (λ out. editing.edited edits.now to neutral ≡ Ok out) }
    ensures few { IfOk result (λ out. length out.symbols ≤ 2 ^ 24) }
    ensures object { IfOk result IsObject }
    ensures readable { IfOk result IsReadable }
    ensures refused { IfErr result (IsStepRefusal (editing.edited edits.now to neutral)) }
{
    neutral.is_object();
    edited_is_readable();
    let out = apply(alloc, neutral, edits, to)?;
    out.is_object();
    Ok(out)
}

// the object of a file of the format `from`, ready for the format `to`
pub fn ready<R: Reads>(
    alloc: Global,
    reader: &R,
    from: Format,
    to: Format,
    bytes: &[u8],
    edits: &Edits,
) -> Result<Fitted, Stop>
    requires size { length bytes.now ≤ MOST_INPUT }
    requires source { R.dialect.format ≡ from }
    requires word { word_for to ≡ word_for from }
    ensures ready { IfOk result (IsReady edits.now R.dialect to bytes.now) }
    ensures refused { IfErr result (IsStop (first_refusal edits.now R.dialect to bytes.now)) }
{
    let keep = keep_for(edits, from, to);
    let neutral = read(alloc, reader, bytes, &keep)?;
    let neutral = edited(alloc, neutral, edits, to)?;
    fit(alloc, to, neutral)
}
