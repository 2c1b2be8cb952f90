ghost use Rattle.std.specs.Prelude.{◌≡◌, ℕ, ◌+◌, ◌-◌, ◌^◌, ◌<◌, ◌≤◌, ◌⊎◌, None, IfOk, IsSomeAnd, vec_len};
ghost use Rattle.std.specs.Option.{ForSome};
ghost use Rattle.oc_outside.specs.Causes.{Rose, Counts};
ghost use Rattle.oc_outside.specs.Held.{file_of};
ghost use Rattle.oc_outside.specs.Reading.{IsAbsent, IsWholeOrLonger};

use crate::failed::Failed;
use crate::files::Files;
use oc_base::MOST_INPUT;
use std::alloc::{AllocError, Global};
use thiserror::Error;

/// How many bytes an input may have, at most: 64 MiB.
pub const LIMIT: u64 = MOST_INPUT;

/// How many bytes one call reads, at most.
pub const BUFFER: usize = 65_536;

/// Why a file was not read.
#[derive(Clone, Copy, Debug, PartialEq, Eq, Error)]
pub enum ReadFault {
    /// A read failed, or the file is not there.
    #[error("input fault")]
    Input,
    /// Memory ran out.
    #[error("out of memory")]
    NoMemory,
}

impl From<Failed> for ReadFault {
    ghost use Rattle.oc_outside.specs.declared.reading.ReadFault.TheVariants.{Input};

    ghost from_gives = { λ _ fault. fault ≡ Input };

    fn from(_: Failed) -> ReadFault {
        ReadFault::Input
    }
}

impl From<AllocError> for ReadFault {
    ghost use Rattle.oc_outside.specs.declared.reading.ReadFault.TheVariants.{NoMemory};

    ghost from_gives = { λ _ fault. fault ≡ NoMemory };

    fn from(_: AllocError) -> ReadFault {
        ReadFault::NoMemory
    }
}

/// A buffer of `len` zeros.
fn zeros(alloc: Global, len: usize) -> Result<Vec<u8>, AllocError>
    ensures { IfOk result (λ v. vec_len v ≡ len) }
{
    vec![in alloc; 0u8; len]
}

/// The bytes of the file `name`: all of them or, where there are more than `limit`, a prefix of
/// them that is longer than `limit`.
///
/// It reads `BUFFER` bytes at a time, and nothing once it has more than `limit` or a read failed.
/// `Input` is returned only where the count of reads rose, or where contracts see the files and
/// `name` is not among them; where that count grew, it is returned. `NoMemory` may be returned at
/// any time. The memory grows by doubling, so a byte is copied a few times.
pub fn read_file<F: Files>(
    alloc: Global,
    files: &mut F,
    name: &str,
    limit: u64,
) -> Result<Vec<u8>, ReadFault>
    ensures bytes { ForSome (F.held files.old) (λ m.
        IfOk result (λ v. IsSomeAnd (file_of name.now m) (IsWholeOrLonger limit v.items))) }
    ensures bounded { IfOk result (λ v. vec_len v ≤ limit + BUFFER) }
    ensures same { F.held files.new ≡ F.held files.old }
    ensures counts { Counts (F.read_faults files.old) (F.read_faults files.new)
        (F.write_faults files.old) (F.write_faults files.new) }
    ensures ended { F.read_faults files.old < F.read_faults files.new → result ≡ Err ReadFault.Input }
    ensures cause { result ≡ Err ReadFault.Input
        → Rose (F.read_faults files.old) (F.read_faults files.new) ⊎ IsAbsent name.now (F.held files.old) }
{
    let mut bytes = Vec::new(alloc);
    let mut store = zeros(alloc, BUFFER)?;
    let buffer = store.as_mut_slice();
    'reads: while bytes.len() as u64 <= limit {
        let at = bytes.len() as u64;
        let count = files.read_at(name, at, buffer)?;
        if count == 0 {
            break;
        }
        let front = &buffer[..count];
        bytes.extend_from_slice(front)?;
    }
    Ok(bytes)
}
