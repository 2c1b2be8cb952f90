//! The words for keys.
ghost use Rattle.std.specs.Prelude.{◌≡◌};
ghost use Rattle.oc_hint_text.specs.Words as words;

use oc_hints::{EditKey, FieldKey, FileKey, SectionKey, SymbolKey};

/// The word for what is said of a symbol. Constant time.
#[tactic(auto, unfolding(crate::specs::Words::symbol_word))]
pub(crate) fn symbol_word(key: SymbolKey) -> &'static str
    ensures { result.now ≡ words.symbol_word key }
{
    match key {
        SymbolKey::WeakAtZero => "weak-at-zero",
        SymbolKey::VersionedName => "versioned-name",
        SymbolKey::LinkerName => "linker-name",
        SymbolKey::CommonAlignment => "common-alignment",
        SymbolKey::NoHandler => "no-handler",
        SymbolKey::LtoOnly => "lto-only",
        SymbolKey::WeakAbsent => "weak-absent",
    }
}

/// What is said of a symbol. Constant time.
#[tactic(auto, unfolding(crate::specs::Words::symbol_sentence))]
pub(crate) fn symbol_sentence(key: SymbolKey) -> &'static str
    ensures { result.now ≡ words.symbol_sentence key }
{
    match key {
        SymbolKey::WeakAtZero =>
            "GNU ld does not follow the default of a weak symbol of COFF, and puts it at address 0",
        SymbolKey::VersionedName =>
            "ld.lld takes names that are alike before @@ for one, and GNU ld says multiple definition of what is before it",
        SymbolKey::LinkerName =>
            "GNU ld gives the name a value of its own, though an object defines it",
        SymbolKey::CommonAlignment =>
            "the linker aligns it at 1, since the file gives no alignment",
        SymbolKey::NoHandler =>
            "the run-time finds no handler and ends the program, since the tables for unwinding are dropped",
        SymbolKey::LtoOnly => "the linker finds no code, since gcc makes it at link time alone",
        SymbolKey::WeakAbsent => "ld64 asks for a definition, where no -U names it",
    }
}

/// The word for what is said of a section. Constant time.
#[tactic(auto, unfolding(crate::specs::Words::section_word))]
pub(crate) fn section_word(key: SectionKey) -> &'static str
    ensures { result.now ≡ words.section_word key }
{
    match key {
        SectionKey::StartUpLost => "start-up-lost",
        SectionKey::ShutDownNotRun => "shut-down-not-run",
        SectionKey::WritableCode => "writable-code",
        SectionKey::NoRights => "no-rights",
        SectionKey::CommonAlignments => "common-alignment",
        SectionKey::DirectivesLost => "directives-lost",
        SectionKey::KeptSection => "kept-section",
        SectionKey::ExcludedSection => "excluded-section",
    }
}

/// What is said of a section. Constant time.
#[tactic(auto, unfolding(crate::specs::Words::section_sentence))]
pub(crate) fn section_sentence(key: SectionKey) -> &'static str
    ensures { result.now ≡ words.section_sentence key }
{
    match key {
        SectionKey::StartUpLost =>
            "the start-up code calls none of its functions, since the section becomes data",
        SectionKey::ShutDownNotRun => "the start-up code of mingw-w64 never calls its functions",
        SectionKey::WritableCode =>
            "the linker places it where nothing may be written, and a write ends the program",
        SectionKey::NoRights =>
            "the linker places it where nothing may be written, since no flag says how it may be used, and calls of DJGPP count otherwise",
        SectionKey::CommonAlignments =>
            "the linker does not see the alignments of commons that it gives",
        SectionKey::DirectivesLost => "the linker does not see the directives that it holds",
        SectionKey::KeptSection =>
            "GNU ld and ld.lld may drop it with --gc-sections, since SHF_GNU_RETAIN is not carried",
        SectionKey::ExcludedSection =>
            "the linker puts it into the program, since SHF_EXCLUDE is not carried",
    }
}

/// The word for what is said of fields. Constant time.
#[tactic(auto, unfolding(crate::specs::Words::field_word))]
pub(crate) fn field_word(key: FieldKey) -> &'static str
    ensures { result.now ≡ words.field_word key }
{
    match key {
        FieldKey::AddressInReadOnly => "address-in-read-only",
        FieldKey::DistanceForAddress => "distance-for-address",
        FieldKey::CallWithoutStub => "call-without-stub",
        FieldKey::SplitLiterals => "split-literals",
        FieldKey::CallRecompile => "call-recompile",
        FieldKey::AddressOutOfRange => "address-out-of-range",
        FieldKey::TextRelocations => "text-relocations",
    }
}

/// What is said of fields. Constant time.
#[tactic(auto, unfolding(crate::specs::Words::field_sentence))]
pub(crate) fn field_sentence(key: FieldKey) -> &'static str
    ensures { result.now ≡ words.field_sentence key }
{
    match key {
        FieldKey::AddressInReadOnly =>
            "in a PIE GNU ld makes DT_TEXTREL, and ld.lld refuses it or stores the address of the link",
        FieldKey::DistanceForAddress =>
            "the linker stores a distance from the segment, and no address",
        FieldKey::CallWithoutStub =>
            "ld64 makes no stub for it: a call into a dynamic library is refused, or goes to address 0",
        FieldKey::SplitLiterals =>
            "ld64 takes the literals apart where it merges them or drops dead code",
        FieldKey::CallRecompile =>
            "GNU ld and ld.lld ask to recompile with -fPIE or -fPIC, where the function is in a shared library",
        FieldKey::AddressOutOfRange => "ld64 refuses it, since a program for macOS begins at 2^32",
        FieldKey::TextRelocations => "in a PIE GNU ld makes DT_TEXTREL, and ld.lld refuses it",
    }
}

/// The word for what is said of the file. Constant time.
#[tactic(auto, unfolding(crate::specs::Words::file_word))]
pub(crate) fn file_word(key: FileKey) -> &'static str
    ensures { result.now ≡ words.file_word key }
{
    match key {
        FileKey::WholeSections => "whole-sections",
        FileKey::Safeseh => "safeseh",
        FileKey::ManySections => "many-sections",
    }
}

/// What is said of the file. Constant time.
#[tactic(auto, unfolding(crate::specs::Words::file_sentence))]
pub(crate) fn file_sentence(key: FileKey) -> &'static str
    ensures { result.now ≡ words.file_sentence key }
{
    match key {
        FileKey::WholeSections =>
            "ld64 drops nothing of it with -dead_strip, since its sections are no longer divided",
        FileKey::Safeseh =>
            "lld-link refuses it without /safeseh:no, since it has no mark @feat.00",
        FileKey::ManySections => "the tools of mingw-w64 take minutes for it, or do not end",
    }
}

/// The word for what is said of an edit. Constant time.
#[tactic(auto, unfolding(crate::specs::Words::edit_word))]
pub(crate) fn edit_word(key: EditKey) -> &'static str
    ensures { result.now ≡ words.edit_word key }
{
    match key {
        EditKey::WithoutEffect => "edit-without-effect",
        EditKey::FinalName => "final-name",
    }
}

/// What is said of an edit. Constant time.
#[tactic(auto, unfolding(crate::specs::Words::edit_sentence))]
pub(crate) fn edit_sentence(key: EditKey) -> &'static str
    ensures { result.now ≡ words.edit_sentence key }
{
    match key {
        EditKey::WithoutEffect => "no symbol of the file has such a name",
        EditKey::FinalName =>
            "the further name stays as it is given, where the names beside it change",
    }
}
