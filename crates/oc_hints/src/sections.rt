//! What hints say of sections.
ghost use Rattle.std.specs.Prelude.{◌≡◌, ◌&&◌, ◌||◌};
ghost use Rattle.oc_hints.specs.Case.{case_of};
ghost use Rattle.oc_hints.specs.Sections as sections;

use crate::header::{has, has_flag};
use crate::key::SectionKey;
use crate::names::{
    has_alignments, has_orders, is_coff_start_up, is_directives, is_elf_start_up, is_mach_start_up,
};
use crate::subject::{Subject, is_coff, is_elf, is_mach};
use oc_base::Format;
use oc_neutral::coff::{IMAGE_SCN_MEM_EXECUTE, IMAGE_SCN_MEM_WRITE};
use oc_neutral::elf::SHF_WRITE;
use oc_neutral::{Kind, Neutral, Section};

/// A linker that drops what nothing refers to is to keep the section (gABI, GNU extension: SHF_GNU_RETAIN).
const SHF_GNU_RETAIN: u64 = 1 << 21;
/// A linker is to leave the section out of a program (gABI, GNU extension: SHF_EXCLUDE).
const SHF_EXCLUDE: u64 = 1 << 31;

// whether it is a part of the program that is no table for unwinding
fn is_loaded(kind: Kind) -> bool
    ensures { result ≡ sections.is_loaded kind }
{
    match kind {
        Kind::Code | Kind::ReadOnly | Kind::Data | Kind::Zero | Kind::Init | Kind::Fini => true,
        Kind::Debug | Kind::Exception | Kind::Note => false,
    }
}

// whether it is data with bytes
fn is_data(kind: Kind) -> bool
    ensures { result ≡ sections.is_data kind }
{
    kind == Kind::ReadOnly || kind == Kind::Data
}

// whether a section of this name has functions for start-up or shut-down
fn is_start_up(format: Format, name: &[u8]) -> bool
    ensures { result ≡ sections.is_start_up format name.now }
{
    (is_elf(format) && is_elf_start_up(name))
        || (is_coff(format) && is_coff_start_up(name))
        || (is_mach(format) && is_mach_start_up(name))
}

// whether code of ELF may be written
fn is_elf_writable(tag: u64) -> bool
    ensures { result ≡ sections.is_elf_writable tag }
{
    has(tag % 8, SHF_WRITE)
}

// whether code of COFF may be written
fn is_coff_writable(tag: u64) -> bool
    ensures { result ≡ sections.is_coff_writable tag }
{
    has(tag, IMAGE_SCN_MEM_WRITE.into())
}

// whether code of a format may be written
fn is_writable(format: Format, tag: u64) -> bool
    ensures { result ≡ sections.is_writable format tag }
{
    (is_elf(format) && is_elf_writable(tag)) || (is_coff(format) && is_coff_writable(tag))
}

// whether no flag of COFF says that a section may be executed, read or written
fn has_no_rights(tag: u64) -> bool
    ensures { result ≡ sections.has_no_rights tag }
{
    tag < u64::from(IMAGE_SCN_MEM_EXECUTE)
}

/// Whether the key is about the conversion. Constant time.
pub(crate) fn concerns_sections(key: SectionKey, subject: &Subject) -> bool
    ensures { result ≡ sections.concerns_sections key (case_of subject.now) }
{
    let from = subject.from();
    match key {
        SectionKey::StartUpLost | SectionKey::WritableCode => subject.crosses(),
        SectionKey::ShutDownNotRun => subject.crosses() && is_coff(subject.to),
        SectionKey::NoRights | SectionKey::CommonAlignments | SectionKey::DirectivesLost => {
            subject.crosses() && is_coff(from)
        }
        SectionKey::KeptSection | SectionKey::ExcludedSection => is_elf(from),
    }
}

/// Whether the key is about a section. Linear in its name, and in its bytes where it has directives.
pub(crate) fn section_meets(key: SectionKey, subject: &Subject, section: &Section) -> bool
    ensures { result ≡ sections.section_meets key (case_of subject.now) section.now }
{
    let from = subject.from();
    let kind = section.kind;
    let name = section.name.as_slice();
    match key {
        SectionKey::StartUpLost => is_data(kind) && section.size > 0 && is_start_up(from, name),
        SectionKey::ShutDownNotRun => kind == Kind::Fini,
        SectionKey::WritableCode => kind == Kind::Code && is_writable(from, section.tag),
        SectionKey::NoRights => {
            is_loaded(kind)
                && section.size > 0
                && has_no_rights(section.tag)
                && !is_directives(name)
        }
        SectionKey::CommonAlignments => {
            is_directives(name) && has_alignments(section.bytes.as_slice())
        }
        SectionKey::DirectivesLost => is_directives(name) && has_orders(section.bytes.as_slice()),
        SectionKey::KeptSection => {
            is_loaded(kind) && has_flag(subject, section.number, SHF_GNU_RETAIN)
        }
        SectionKey::ExcludedSection => {
            is_loaded(kind) && has_flag(subject, section.number, SHF_EXCLUDE)
        }
    }
}

/// The object whose sections the key is about. Constant time.
pub(crate) fn object_of_sections<'a>(key: SectionKey, subject: &Subject<'a>) -> &'a Neutral
    ensures { result.now.sections ≡ sections.sections_for key (case_of subject.now) }
{
    match key {
        SectionKey::StartUpLost
        | SectionKey::ShutDownNotRun
        | SectionKey::WritableCode
        | SectionKey::NoRights
        | SectionKey::KeptSection
        | SectionKey::ExcludedSection => subject.output,
        SectionKey::CommonAlignments | SectionKey::DirectivesLost => subject.input,
    }
}
