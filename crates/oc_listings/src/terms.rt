//! The words for kinds, checks and formats.
ghost use Rattle.std.specs.Prelude.{◌≡◌};
ghost use Rattle.oc_listings.specs.Texts as texts;

use oc_base::Format;
use oc_linking::{Check, Kind};

/// The name of a format. Constant time, no memory.
#[tactic(auto, unfolding(crate::specs::Texts::format_text))]
pub(crate) fn format_text(format: Format) -> &'static str
    ensures { result.now ≡ texts.format_text format }
{
    match format {
        Format::Elf32 => "elf32",
        Format::Elf64 => "elf64",
        Format::Coff32 => "coff32",
        Format::Coff64 => "coff64",
        Format::Mac32 => "mac32",
        Format::Mac64 => "mac64",
        Format::Omf => "omf",
        Format::BigElf32 => "bigelf32",
        Format::BigElf64 => "bigelf64",
        Format::BigCoff32 => "bigcoff32",
        Format::BigCoff64 => "bigcoff64",
    }
}

/// The word for what a section is for. Constant time, no memory.
pub(crate) fn kind_text(kind: Kind) -> &'static str
    ensures { result.now ≡ texts.kind_text kind }
{
    match kind {
        Kind::Code => "code",
        Kind::ReadOnly => "readonly",
        Kind::Data => "data",
        Kind::Zero => "zero",
        Kind::Init => "init",
        Kind::Fini => "fini",
        Kind::Debug => "debug",
        Kind::Exception => "exception",
        Kind::Note => "note",
    }
}

/// The word for which residues fit. Constant time, no memory.
pub(crate) fn check_text(check: Check) -> &'static str
    ensures { result.now ≡ texts.check_text check }
{
    match check {
        Check::Wrap => "wrap",
        Check::Signed => "signed",
        Check::Unsigned => "unsigned",
        Check::Either => "either",
    }
}
