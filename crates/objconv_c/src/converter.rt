//! The conversion between all formats.

use oc_base::{Format, Stop};
use oc_dispatch::{AnyPlan, dispatch};
use oc_embed::ConvertsAny;
use oc_names::Edits;
use std::alloc::Global;

/// What converts between all formats.
pub(crate) struct AnyConverter;

impl ConvertsAny for AnyConverter {
    type Plan = AnyPlan;

    fn plan(
        &self,
        alloc: Global,
        to: Format,
        bytes: &[u8],
        edits: &Edits,
    ) -> Result<AnyPlan, Stop> {
        dispatch(alloc, to, bytes, edits)
    }
}
