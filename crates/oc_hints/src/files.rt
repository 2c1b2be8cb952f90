//! What hints say of a file.
ghost use Rattle.std.specs.Prelude.{◌≡◌, ◌&&◌, not};
ghost use Rattle.std.specs.List.{list_any};
ghost use Rattle.oc_hints.specs.Case.{case_of};
ghost use Rattle.oc_hints.specs.Files as files;

use crate::header::{four_or_0, has};
use crate::key::FileKey;
use crate::names::is_feature_mark;
use crate::subject::{Subject, is_coff, is_mach};
use oc_base::Format;
use oc_neutral::{Kind, Neutral, Section, Symbol};

/// Where the flags of a file of Mach-O lie, in bytes (Mach-O reference, "mach_header").
const FLAGS: u64 = 24;
/// A linker may divide the sections at symbols (Mach-O reference, "mach_header").
const MH_SUBSECTIONS_VIA_SYMBOLS: u64 = 0x2000;
/// More sections take mingw's tools minutes, or have no end.
const MANY: u32 = 20_000;

// whether a linker may divide the sections at symbols
fn is_divided(file: &[u8]) -> bool
    ensures { result ≡ files.is_divided file.now }
{
    has(four_or_0(file, FLAGS).into(), MH_SUBSECTIONS_VIA_SYMBOLS)
}

// whether there is code in a section
fn has_code(section: &Section) -> bool
    ensures { result ≡ files.has_code section.now }
{
    section.kind == Kind::Code && section.size > 0
}

// whether the symbol is the mark that all handlers are known
fn is_mark(symbol: &Symbol) -> bool
    ensures { result ≡ files.is_mark symbol.now }
{
    is_feature_mark(symbol.name.as_slice())
}

// whether one of the sections has code
fn one_has_code(sections: &[Section]) -> bool
    ensures { result ≡ list_any files.has_code sections.now }
{
    sections.iter().any(has_code)
}

// whether one of the symbols is the mark that all handlers are known
fn one_is_mark(symbols: &[Symbol]) -> bool
    ensures { result ≡ list_any files.is_mark symbols.now }
{
    symbols.iter().any(is_mark)
}

// whether the object has code, and no mark that all handlers are known
fn is_unmarked(neutral: &Neutral) -> bool
    ensures { result ≡ (list_any files.has_code neutral.now.sections && not (list_any files.is_mark neutral.now.symbols)) }
{
    one_has_code(neutral.sections()) && !one_is_mark(neutral.symbols())
}

/// Whether the key is about the conversion. Linear in the sections and symbols.
pub(crate) fn file_meets(key: FileKey, subject: &Subject) -> bool
    ensures { result ≡ files.file_meets key (case_of subject.now) }
{
    let to = subject.to;
    match key {
        FileKey::WholeSections => {
            is_mach(subject.from()) && is_mach(to) && is_divided(subject.file)
        }
        FileKey::Safeseh => {
            matches!(to, Format::Coff32 | Format::BigCoff32) && is_unmarked(subject.output)
        }
        FileKey::ManySections => is_coff(to) && subject.output.section_count() > MANY,
    }
}
