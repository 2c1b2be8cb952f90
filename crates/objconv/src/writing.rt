//! Writing a planned file.
ghost use Rattle.std.specs.Prelude.{◌≡◌, ℕ, ◌+◌, ◌-◌, ◌^◌, ◌<◌, ◌≤◌, OnOk, OnErr};
ghost use Rattle.std.specs.Option.{option_map};
ghost use Rattle.oc_outside.specs.Causes.{Rose};
ghost use Rattle.oc_outside.specs.Held.{with_file, HasPart};

use oc_outside::{Failed, FileSink, Files};
use oc_target::Emits;

// writes the planned file
fn write_plan<F: Files, P: Emits>(files: &mut F, name: &str, plan: &P) -> Result<(), Failed>
    ensures ok { OnOk result (F.held files.new ≡ option_map (with_file name.now (P.file plan.now)) (F.held files.old)) }
    ensures err { OnErr result (HasPart name.now (P.file plan.now) (F.held files.old) (F.held files.new)) }
    ensures counts { F.write_faults files.old ≤ F.write_faults files.new }
    ensures reads { F.read_faults files.new ≡ F.read_faults files.old }
    ensures steady { OnOk result (F.write_faults files.new ≡ F.write_faults files.old) }
    ensures cause { OnErr result (Rose (F.write_faults files.old) (F.write_faults files.new)) }
{
    files.create(name)?;
    let mut sink = FileSink::new(files, name);
    plan.emit(&mut sink)
}

/// Writes the file `name`, so that it holds the planned file and nothing else. All other files
/// stay.
///
/// After Failed the file is as it was or holds a prefix of the planned one, and the count of writes
/// rose. Takes no memory.
pub fn write_output<F: Files, P: Emits + Drop>(
    files: &mut F,
    name: &str,
    plan: P,
) -> Result<(), Failed>
    ensures ok { OnOk result (F.held files.new ≡ option_map (with_file name.now (P.file plan)) (F.held files.old)) }
    ensures err { OnErr result (HasPart name.now (P.file plan) (F.held files.old) (F.held files.new)) }
    ensures counts { F.write_faults files.old ≤ F.write_faults files.new }
    ensures reads { F.read_faults files.new ≡ F.read_faults files.old }
    ensures steady { OnOk result (F.write_faults files.new ≡ F.write_faults files.old) }
    ensures cause { OnErr result (Rose (F.write_faults files.old) (F.write_faults files.new)) }
{
    write_plan(files, name, &plan)
}
