//! What the names and the relocation tables of a file weigh, before any of them is taken.

use crate::symbols::name_of;
use oc_base::NoMemory;
use oc_macho::{Frame, RELOCATION_INFO_SIZE, SectionHeader};
use oc_weight::{with_entries, with_name};

// how many relocations a section has, none where they do not lie in the file, which is a fault
fn entry_weight(frame: &Frame, h: &SectionHeader) -> u64 {
    let table = RELOCATION_INFO_SIZE as u64 * u64::from(h.nreloc);
    if frame.size() < u64::from(h.reloff) + table {
        return 0;
    }
    h.nreloc.into()
}

/// Weighs the relocation tables. `NoMemory` where those in the file have together more entries than
/// 2^23. Linear in the sections.
pub(crate) fn weigh_relocs(frame: &Frame) -> Result<(), NoMemory> {
    let count = frame.section_count();
    let mut weight = 0;
    for i in 0..count {
        weight = with_entries(weight, entry_weight(frame, &frame.section(i)))?;
    }
    Ok(())
}

/// Weighs the names of symbols. `NoMemory` where they are above 1 GiB. Linear in them.
pub(crate) fn weigh_symbols(frame: &Frame) -> Result<(), NoMemory> {
    let count = frame.symbol_count();
    let mut weight = 0;
    for j in 0..count {
        let name = name_of(frame, &frame.symbol(j));
        weight = with_name(weight, name.len() as u64)?;
    }
    Ok(())
}
