//! Alignments in a target.
ghost use Rattle.std.specs.Prelude.{◌≡◌, ◌≤◌};
ghost use Rattle.oc_neutral.specs.Alignments as alignments;
ghost use Rattle.oc_neutral.specs.Powers as powers;

use oc_base::Format;
use oc_neutral::{coff, elf};

/// The alignment of a common where the format has no field for it. Constant time.
pub fn natural_align(size: u64) -> u32
    ensures { result ≡ powers.natural_align size }
{
    if size <= 1 {
        1
    } else if size <= 2 {
        2
    } else if size <= 4 {
        4
    } else if size <= 8 {
        8
    } else if size <= 16 {
        16
    } else {
        32
    }
}

/// The alignment that a common of a size and an alignment gets in a target. Constant time.
#[tactic(auto, unfolding(oc_neutral::specs::Alignments::common_align))]
pub(crate) fn common_align(target: Format, size: u64, align: u32) -> u32
    ensures { result ≡ alignments.common_align target size align }
{
    match target {
        Format::Elf32
        | Format::Elf64
        | Format::BigElf32
        | Format::BigElf64
        | Format::Mac32
        | Format::Mac64 => align,
        Format::Coff32 | Format::Coff64 | Format::BigCoff32 | Format::BigCoff64 | Format::Omf =>
            natural_align(size),
    }
}

// the least of the powers of two up to 2^most that is not below a number, or 2^most where all are
fn power_upto(most: u32, align: u32) -> u32
    requires { most ≤ 20 }
    ensures { result ≡ powers.power_upto most align }
{
    for k in 0..most {
        if align <= 1 << k {
            return 1 << k;
        }
    }
    1 << most
}

// the alignment of a segment of OMF
#[tactic(auto, unfolding(oc_neutral::specs::Alignments::output_align))]
fn omf_align(align: u32) -> u32
    ensures { result ≡ alignments.output_align Format.Omf align }
{
    if align <= 1 {
        1
    } else if align <= 2 {
        2
    } else if align <= 4 {
        4
    } else if align <= 16 {
        16
    } else {
        256
    }
}

/// The alignment that a section of another alignment gets in a target: the least that is not below it, or
/// the greatest where all are. Constant time.
#[tactic(auto, unfolding(oc_neutral::specs::Alignments::output_align))]
pub(crate) fn output_align(target: Format, align: u32) -> u32
    ensures { result ≡ alignments.output_align target align }
{
    match target {
        Format::Elf32 | Format::Elf64 | Format::BigElf32 | Format::BigElf64 => power_upto(
            elf::ALIGN_BITS,
            align,
        ),
        Format::Coff32 | Format::Coff64 | Format::BigCoff32 | Format::BigCoff64 => power_upto(
            coff::ALIGN_BITS,
            align,
        ),
        Format::Mac32 | Format::Mac64 => power_upto(15, align),
        Format::Omf => omf_align(align),
    }
}
