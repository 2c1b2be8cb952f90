//! The jobs of a list that is read.
ghost use Rattle.std.specs.Prelude.{◌≡◌, ℕ, ◌+◌, ◌-◌, ◌^◌, ◌<◌, ◌≤◌, ◌⊎◌, length, Ok, Err, IfOk, IfErr};
ghost use Rattle.oc_base.specs.declared.limits.TheConstants.{MOST_INPUT};
ghost use Rattle.oc_batch.specs.Lists.{IsNoText, IsText, jobs_in};
ghost use Rattle.oc_outside.specs.Causes.{Counts};
ghost use Rattle.oc_batch.specs.Batches as batches;
ghost use Rattle.oc_batch.specs.Faults as faults;

use crate::fault::ListFault;
use crate::list::jobs_of;
use oc_outside::Files;
use oc_runs::read_input;
use oc_words::Words;
use std::alloc::Global;

// the jobs of the bytes that were read
fn jobs_of_bytes(alloc: Global, bytes: &[u8]) -> Result<Vec<Words>, ListFault>
    requires { length bytes.now ≤ MOST_INPUT }
    ensures text { IfOk result (λ jobs. IsText bytes.now) }
    ensures jobs { IfOk result (λ jobs. jobs.items ≡ jobs_in bytes.now) }
    ensures fault { IfErr result (λ fault. (fault ≡ ListFault.NoMemory) ⊎ ((fault ≡ ListFault.NotText) × IsNoText bytes.now)) }
{
    let Ok(text) = str::from_utf8(bytes) else {
        return Err(ListFault::NotText);
    };
    let jobs = jobs_of(alloc, text)?;
    Ok(jobs)
}

/// The jobs of the list in the file `name`, which may have 67,108,864 bytes.
///
/// `TooLong` exactly where it has more, and `NotText` exactly where it is not UTF-8. `Unread` where a
/// read failed or the file is not held; `NoMemory` where memory ran out. No file is changed.
pub(crate) fn read_list<F: Files>(
    alloc: Global,
    files: &mut F,
    name: &str,
) -> Result<Vec<Words>, ListFault>
    ensures jobs { IfOk result (λ jobs. batches.HasJobs name.now (F.held files.old) jobs.items) }
    ensures fault { IfErr result (faults.Explains name.now (F.held files.old) (F.read_faults files.old) (F.read_faults files.new)) }
    ensures same { F.held files.new ≡ F.held files.old }
    ensures counts { Counts (F.read_faults files.old) (F.read_faults files.new)
        (F.write_faults files.old) (F.write_faults files.new) }
    ensures failed { F.read_faults files.old < F.read_faults files.new → result ≡ Err ListFault.Unread }
{
    let bytes = read_input(alloc, files, name)?;
    jobs_of_bytes(alloc, bytes.as_slice())
}
