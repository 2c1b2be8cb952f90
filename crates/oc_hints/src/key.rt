//! What hints say: one key for each difference between the standards and real tools.

/// How a difference shows.
#[derive(Clone, Copy, Debug, PartialEq, Eq)]
pub enum Class {
    /// No tool says a word, and the program is wrong.
    Silent,
    /// A linker says a word, too.
    Loud,
    /// It may be no fault.
    Note,
}

/// What a hint says of a symbol.
#[derive(Clone, Copy, Debug, PartialEq, Eq)]
pub enum SymbolKey {
    /// A weak symbol of COFF is at address 0.
    WeakAtZero,
    /// A name has a version in ELF.
    VersionedName,
    /// The linker sets the name.
    LinkerName,
    /// A common of Mach-O has no alignment.
    CommonAlignment,
    /// What is thrown finds no handler.
    NoHandler,
    /// There is no code but what gcc makes at link time.
    LtoOnly,
    /// A weak name is to be defined somewhere.
    WeakAbsent,
}

/// What a hint says of a section.
#[derive(Clone, Copy, Debug, PartialEq, Eq)]
pub enum SectionKey {
    /// Functions for start-up or shut-down become data.
    StartUpLost,
    /// Functions for shut-down are not called.
    ShutDownNotRun,
    /// Code that may be written becomes code that may not.
    WritableCode,
    /// The section does not say how it may be used.
    NoRights,
    /// Directives give commons their alignments.
    CommonAlignments,
    /// Directives to the linker are lost.
    DirectivesLost,
    /// The section may be collected as garbage.
    KeptSection,
    /// The section comes into the program.
    ExcludedSection,
}

/// What a hint says of a relocated field.
#[derive(Clone, Copy, Debug, PartialEq, Eq)]
pub enum FieldKey {
    /// An address is in data that a loader may not write.
    AddressInReadOnly,
    /// An address counts from its segment.
    DistanceForAddress,
    /// A call has no mark of a call.
    CallWithoutStub,
    /// A literal is named by its section.
    SplitLiterals,
    /// A call has no mark of a call, and the linker asks for one.
    CallRecompile,
    /// An address of four bytes does not fit.
    AddressOutOfRange,
    /// An address is in what a loader is to change.
    TextRelocations,
}

/// What a hint says of the file.
#[derive(Clone, Copy, Debug, PartialEq, Eq)]
pub enum FileKey {
    /// Sections are no longer divided at symbols.
    WholeSections,
    /// The mark of safe exception handlers is missing.
    Safeseh,
    /// It has more sections than some tools handle.
    ManySections,
}

/// What a hint says of an edit.
#[derive(Clone, Copy, Debug, PartialEq, Eq)]
pub enum EditKey {
    /// It meets no symbol.
    WithoutEffect,
    /// A further name stays as it is given.
    FinalName,
}
