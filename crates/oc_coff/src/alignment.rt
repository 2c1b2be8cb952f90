//! The alignments of sections (PE/COFF, "Section Flags").
ghost use Rattle.std.specs.Prelude.{◌≡◌, ◌^◌};
ghost use Rattle.oc_coff.specs.Flags as flags;

use oc_neutral::coff::ALIGN_BITS;

/// The alignment in the flags of a section: `n + 1` for `2^n`, and 1 for what is none of these. Constant
/// time.
#[tactic(auto, unfolding(crate::specs::Flags::align_field))]
pub(crate) fn align_field(align: u32) -> u32
    ensures { result ≡ flags.align_field align }
{
    for n in 0..ALIGN_BITS + 1 {
        if align == 1 << n {
            return n + 1;
        }
    }
    1
}
