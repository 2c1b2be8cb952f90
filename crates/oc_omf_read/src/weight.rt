//! What the names of segments weigh, before any of them is taken.

use crate::known::name_in;
use oc_base::NoMemory;
use oc_omf_judge::Defined;
use oc_weight::with_name;

/// Weighs the names of segments: many may have one. `NoMemory` where they are above 1 GiB. Linear in the
/// segments.
pub(crate) fn weigh_segments(known: &Defined) -> Result<(), NoMemory> {
    let mut weight = 0;
    for segment in &known.segments {
        weight = with_name(weight, name_in(known, segment.name).len() as u64)?;
    }
    Ok(())
}
