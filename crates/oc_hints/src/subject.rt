//! What hints are about.
ghost use Rattle.std.specs.Prelude.{◌≡◌, not};
ghost use Rattle.oc_neutral.specs.Families.{container_of, same_format};
ghost use Rattle.oc_neutral.specs.Family.{IsElf, IsCoff, IsMach, same_container};
ghost use Rattle.oc_hints.specs.Case as cases;

use oc_base::Format;
use oc_names::Edits;
use oc_neutral::Neutral;

/// A conversion: an object before and after its edits, and what is asked of it.
#[derive(Clone, Copy)]
pub struct Subject<'a> {
    /// The file.
    pub file: &'a [u8],
    /// The object of the file.
    pub input: &'a Neutral,
    /// The object after its edits.
    pub output: &'a Neutral,
    /// The target.
    pub to: Format,
    /// The edits.
    pub edits: &'a Edits,
}

/// Whether the format is ELF. Constant time.
pub(crate) fn is_elf(format: Format) -> bool
    ensures { result ≡ cases.is_elf format }
{
    matches!(
        format,
        Format::Elf32 | Format::Elf64 | Format::BigElf32 | Format::BigElf64
    )
}

/// Whether the format is COFF. Constant time.
pub(crate) fn is_coff(format: Format) -> bool
    ensures { result ≡ cases.is_coff format }
{
    matches!(
        format,
        Format::Coff32 | Format::Coff64 | Format::BigCoff32 | Format::BigCoff64
    )
}

/// Whether the format is Mach-O. Constant time.
pub(crate) fn is_mach(format: Format) -> bool
    ensures { result ≡ cases.is_mach format }
{
    matches!(format, Format::Mac32 | Format::Mac64)
}

/// Whether the format is OMF. Constant time.
pub(crate) fn is_omf(format: Format) -> bool
    ensures { result ≡ cases.is_omf format }
{
    matches!(format, Format::Omf)
}

/// Whether two formats are of one container. Constant time.
pub(crate) fn have_one_container(a: Format, b: Format) -> bool
    ensures { result ≡ cases.have_one_container a b }
{
    (is_elf(a) && is_elf(b))
        || (is_coff(a) && is_coff(b))
        || (is_mach(a) && is_mach(b))
        || (is_omf(a) && is_omf(b))
}

impl Subject<'_> {
    /// The format of the file. Constant time.
    pub(crate) fn from(&self) -> Format
        ensures { result ≡ (cases.case_of self.now).input.format }
    {
        self.input.format()
    }

    /// Whether the target is of another container. Constant time.
    pub(crate) fn crosses(&self) -> bool
        ensures { result ≡ cases.crosses (cases.case_of self.now) }
    {
        !have_one_container(self.from(), self.to)
    }
}
