//! The counts of a section's relocation entries (PE/COFF, "COFF Relocations" and "Section Flags").
ghost use Rattle.std.specs.Prelude.{◌≡◌, ◌+◌, ◌<◌, ◌^◌, List, length, min};
ghost use Rattle.oc_coff.specs.Flags.{count_entry, is_crowded, with_count};
ghost use Rattle.oc_coff.specs.declared.constants.TheConstants.{OVERFLOWED_COUNT as MOST};
ghost use Rattle.oc_coff.specs.declared.relocation.Relocation.{Relocation as Entry};

use crate::constants::{IMAGE_REL_I386_ABSOLUTE, OVERFLOWED_COUNT};
use crate::relocation::Relocation;

/// Whether a section has more relocations than its header can count. Constant time.
pub fn is_crowded(count: usize) -> bool
    ensures { (relocs : List Entry) → length relocs ≡ count → result ≡ is_crowded relocs }
{
    count > OVERFLOWED_COUNT as usize
}

/// How many relocation entries the section with so many relocations has. Constant time.
pub fn entry_count(count: usize) -> usize
    requires { count < 2 ^ 32 }
    ensures { (relocs : List Entry) → length relocs ≡ count → result ≡ length (with_count relocs) }
{
    if is_crowded(count) { count + 1 } else { count }
}

/// The count of relocations in a section's header. Constant time.
pub fn header_count(count: usize) -> u16
    ensures { result ≡ min count MOST }
{
    count.min(OVERFLOWED_COUNT as usize) as u16
}

/// The entry that holds the count of entries, itself included. Constant time.
pub fn count_entry(count: usize) -> Relocation
    requires { count + 1 < 2 ^ 32 }
    ensures { (relocs : List Entry) → length relocs ≡ count → result ≡ count_entry relocs }
{
    Relocation {
        VirtualAddress: (count + 1) as u32,
        SymbolTableIndex: 0,
        Type: IMAGE_REL_I386_ABSOLUTE,
    }
}
