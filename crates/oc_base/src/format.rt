//! The formats, and the word of each.
ghost use Rattle.std.specs.Prelude.{◌≡◌};
ghost use Rattle.oc_base.specs.Formats.{plain_for, word_for};

/// An object format.
#[derive(Clone, Copy, Debug, PartialEq, Eq)]
pub enum Format {
    /// ELF for i386.
    Elf32,
    /// ELF for x86-64.
    Elf64,
    /// COFF for i386.
    Coff32,
    /// COFF for x86-64.
    Coff64,
    /// Mach-O for i386.
    Mac32,
    /// Mach-O for x86-64.
    Mac64,
    /// OMF with 32-bit segments.
    Omf,
    /// ELF for i386 with as many sections as its extended numbering is for.
    BigElf32,
    /// ELF for x86-64 with as many sections as its extended numbering is for.
    BigElf64,
    /// COFF for i386 with section numbers of 32 bits.
    BigCoff32,
    /// COFF for x64 with section numbers of 32 bits.
    BigCoff64,
}

/// The size of an address, in which all values of an object are taken.
#[derive(Clone, Copy, Debug, PartialEq, Eq)]
pub enum Word {
    /// 32 bits.
    W32,
    /// 64 bits.
    W64,
}

/// The word of a format. Constant time, no memory.
pub fn word_of(format: Format) -> Word
    ensures { result ≡ word_for format }
{
    match format {
        Format::Elf32
        | Format::Coff32
        | Format::Mac32
        | Format::Omf
        | Format::BigElf32
        | Format::BigCoff32 => Word::W32,
        Format::Elf64 | Format::Coff64 | Format::Mac64 | Format::BigElf64 | Format::BigCoff64 =>
            Word::W64,
    }
}

/// The format as which a format counts in names, tags, kinds and rows: a format for many sections as
/// the one for few. Constant time, no memory.
pub fn plain_of(format: Format) -> Format
    ensures { result ≡ plain_for format }
{
    match format {
        Format::BigElf32 => Format::Elf32,
        Format::BigElf64 => Format::Elf64,
        Format::BigCoff32 => Format::Coff32,
        Format::BigCoff64 => Format::Coff64,
        Format::Elf32
        | Format::Elf64
        | Format::Coff32
        | Format::Coff64
        | Format::Mac32
        | Format::Mac64
        | Format::Omf => format,
    }
}
