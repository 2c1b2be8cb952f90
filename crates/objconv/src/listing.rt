//! A listing of the symbols of a file.
ghost use Rattle.std.specs.Prelude.{◌≡◌, ◌+◌, ◌-◌, ◌^◌, ◌<◌, ◌≤◌, Err, IfOk, IfErr};
ghost use Rattle.oc_outside.specs.Causes.{Counts};
ghost use Rattle.objconv.specs.Listings as listings;
ghost use Rattle.objconv.specs.Refusals.{listing_refusal};
ghost use Rattle.oc_runs.specs.Reports as reports;
ghost use Rattle.objconv.specs.Runs.{IsEnd};
ghost use Rattle.oc_runs.specs.States.{state_of};

use oc_base::{Bytes, Stop};
use oc_dispatch::read_any;
use oc_dump::symbol_lines;
use oc_neutral::Keep;
use oc_outside::{Console, Files, show_all};
use oc_runs::{InputFault, read_input, report};
use std::alloc::Global;

/// Nothing is kept that may be left out.
const NONE: Keep = Keep {
    debug: false,
    exceptions: false,
    notes: false,
};

// reads the input and lists its symbols
fn lines_of<F: Files>(alloc: Global, files: &mut F, input: &str) -> Result<Bytes, InputFault>
    ensures listing { IfOk result (listings.IsListing input.now (F.held files.old)) }
    ensures fault { IfErr result (reports.Explains listing_refusal input.now (F.held files.old)
        (F.read_faults files.old) (F.read_faults files.new)) }
    ensures same { F.held files.new ≡ F.held files.old }
    ensures counts { Counts (F.read_faults files.old) (F.read_faults files.new)
        (F.write_faults files.old) (F.write_faults files.new) }
    ensures failed { F.read_faults files.old < F.read_faults files.new → result ≡ Err InputFault.Unread }
{
    let bytes = match read_input(alloc, files, input) {
        Ok(bytes) => bytes,
        Err(fault) => return Err(fault),
    };
    match read_any(alloc, bytes.as_slice(), &NONE) {
        Ok(neutral) => match symbol_lines(alloc, &neutral) {
            Ok(lines) => Ok(lines),
            Err(_) => Err(InputFault::NoMemory),
        },
        Err(Stop::Refused(fault)) => Err(InputFault::Refused(fault)),
        Err(Stop::NoMemory) => Err(InputFault::NoMemory),
    }
}

/// Shows the lines of the symbols of the file `input`, and answers the status of the run. No file is
/// changed, and nothing is shown before all lines are made.
pub fn list_file<F: Files, C: Console>(
    alloc: Global,
    files: &mut F,
    console: &mut C,
    input: &str,
) -> u8
    ensures job { listings.IsSymbols input.now
        (state_of F.held F.read_faults F.write_faults C.shown C.told C.out_faults C.err_faults files.old console.old) result
        (state_of F.held F.read_faults F.write_faults C.shown C.told C.out_faults C.err_faults files.new console.new) }
    ensures end { IsEnd
        (state_of F.held F.read_faults F.write_faults C.shown C.told C.out_faults C.err_faults files.old console.old) result
        (state_of F.held F.read_faults F.write_faults C.shown C.told C.out_faults C.err_faults files.new console.new) }
{
    let lines = match lines_of(alloc, files, input) {
        Ok(lines) => lines,
        Err(fault) => return report(alloc, console, fault),
    };
    match show_all(console, lines.as_slice()) {
        Ok(()) => 0,
        Err(_) => 6,
    }
}
