//! The text of linking the object of a file at the placement of another.
ghost use Rattle.std.specs.Prelude.{◌≡◌, ℕ, ◌+◌, ◌-◌, ◌^◌, ◌<◌, ◌≤◌, Ok, Err, Some, IfOk, IfErr, length};
ghost use Rattle.std.specs.Option.{ForSome};
ghost use Rattle.oc_base.specs.declared.limits.TheConstants.{MOST_INPUT};
ghost use Rattle.oc_outside.specs.Causes.{Counts};
ghost use Rattle.oc_outside.specs.Held.{file_of};
ghost use Rattle.oc_runs.specs.Reports as reports;
ghost use Rattle.oc_linker.specs.Causes as causes;
ghost use Rattle.oc_linker.specs.Outcomes.{LinkText, link_refusal};
ghost use Rattle.oc_linker.specs.Runs.{ComesOf};

use oc_base::{Bytes, NoMemory, Stop};
use oc_dispatch::ReadsAny;
use oc_link::{link_text, texts_agree};
use oc_neutral::{Keep, Neutral};
use oc_outside::Files;
use oc_place::{PlaceCode, PlaceFault, footprints_agree, read_place};
use oc_runs::{InputFault, read_input};
use std::alloc::Global;

/// All is kept.
const ALL: Keep = Keep {
    debug: true,
    exceptions: true,
    notes: true,
};

/// Why nothing was linked.
#[derive(Clone, Copy, Debug, PartialEq, Eq)]
pub(crate) enum LinkFault {
    /// The object has a refusal, a file was not read, or memory ran out.
    Input(InputFault),
    /// The placement has more than 67,108,864 bytes.
    TooLong,
    /// The placement is at fault there.
    Placement {
        /// The number of the line, or the position of the section or the symbol, counted from 1.
        line: u32,
        /// What is wrong with it.
        code: PlaceCode,
    },
}

// the text of an object at a placement
fn text_at(alloc: Global, object: &Neutral, placement: &[u8]) -> Result<Bytes, LinkFault>
    requires { length placement.now ≤ MOST_INPUT }
    ensures text { IfOk result (λ text. causes.outcome_with object.now placement.now ≡ LinkText text) }
    ensures fault { IfErr result (causes.ExplainsText object.now placement.now) }
{
    let placed = match read_place(alloc, placement, object) {
        Ok(placed) => placed,
        Err(PlaceFault::Bad { line, code }) => return Err(LinkFault::Placement { line, code }),
        Err(PlaceFault::NoMemory) => return Err(LinkFault::Input(InputFault::NoMemory)),
    };
    match link_text(alloc, object, &placed) {
        Ok(text) => Ok(text),
        Err(NoMemory) => Err(LinkFault::Input(InputFault::NoMemory)),
    }
}

// the object of a file
fn object_of<R: ReadsAny, F: Files>(
    alloc: Global,
    reader: &R,
    files: &mut F,
    name: &str,
) -> Result<Neutral, InputFault>
    ensures object { IfOk result (causes.IsObjectOf name.now (F.held files.old)) }
    ensures fault { IfErr result (reports.Explains link_refusal name.now (F.held files.old)
        (F.read_faults files.old) (F.read_faults files.new)) }
    ensures same { F.held files.new ≡ F.held files.old }
    ensures counts { Counts (F.read_faults files.old) (F.read_faults files.new)
        (F.write_faults files.old) (F.write_faults files.new) }
    ensures failed { F.read_faults files.old < F.read_faults files.new → result ≡ Err InputFault.Unread }
{
    let bytes = match read_input(alloc, files, name) {
        Ok(bytes) => bytes,
        Err(fault) => return Err(fault),
    };
    match reader.read(alloc, bytes.as_slice(), &ALL) {
        Ok(object) => Ok(object),
        Err(Stop::Refused(fault)) => Err(InputFault::Refused(fault)),
        Err(Stop::NoMemory) => Err(InputFault::NoMemory),
    }
}

// the bytes of a placement
fn placement_of<F: Files>(alloc: Global, files: &mut F, name: &str) -> Result<Vec<u8>, LinkFault>
    ensures bytes { ForSome (F.held files.old) (λ m. IfOk result (λ v. file_of name.now m ≡ Some v.items)) }
    ensures short { IfOk result (λ v. length v.items ≤ MOST_INPUT) }
    ensures fault { IfErr result (causes.ExplainsPlacement name.now (F.held files.old)
        (F.read_faults files.old) (F.read_faults files.new)) }
    ensures same { F.held files.new ≡ F.held files.old }
    ensures counts { Counts (F.read_faults files.old) (F.read_faults files.new)
        (F.write_faults files.old) (F.write_faults files.new) }
    ensures failed { F.read_faults files.old < F.read_faults files.new → result ≡ Err (LinkFault.Input InputFault.Unread) }
{
    match read_input(alloc, files, name) {
        Ok(bytes) => Ok(bytes),
        Err(InputFault::Refused(_)) => Err(LinkFault::TooLong),
        Err(InputFault::Unread) => Err(LinkFault::Input(InputFault::Unread)),
        Err(InputFault::NoMemory) => Err(LinkFault::Input(InputFault::NoMemory)),
    }
}

/// The text of linking the object of a file at the placement of another.
///
/// The fault is the first: that of the object, before the placement is opened; else that of the
/// placement. `NoMemory` may come at any time. No file is changed. Takes the memory and time of reading
/// and linking.
pub(crate) fn text_of_files<R: ReadsAny, F: Files>(
    alloc: Global,
    reader: &R,
    files: &mut F,
    object: &str,
    placement: &str,
) -> Result<Bytes, LinkFault>
    ensures text { ForSome (F.held files.old) (λ m. IfOk result (λ text. ComesOf object.now placement.now (LinkText text) m)) }
    ensures fault { IfErr result (causes.Explains object.now placement.now (F.held files.old)
        (F.read_faults files.old) (F.read_faults files.new)) }
    ensures same { F.held files.new ≡ F.held files.old }
    ensures counts { Counts (F.read_faults files.old) (F.read_faults files.new)
        (F.write_faults files.old) (F.write_faults files.new) }
    ensures failed { F.read_faults files.old < F.read_faults files.new → result ≡ Err (LinkFault.Input InputFault.Unread) }
{
    footprints_agree();
    texts_agree();
    let itself = match object_of(alloc, reader, files, object) {
        Ok(itself) => itself,
        Err(fault) => return Err(LinkFault::Input(fault)),
    };
    itself.is_object();
    let bytes = match placement_of(alloc, files, placement) {
        Ok(bytes) => bytes,
        Err(fault) => return Err(fault),
    };
    match text_at(alloc, &itself, bytes.as_slice()) {
        Ok(text) => Ok(text),
        Err(fault) => Err(fault),
    }
}
