//! Laws of the definitions, each the contract of a function that does nothing.
ghost use Rattle.oc_macho_file.specs.Writing.{MachIsWritten};

/// For both words: the rules of Mach-O have the word and the alignments that are stated for its
/// format, and the canonical file of every object that is ready for Mach-O is well formed and shows
/// the object that is seen of it.
pub fn mach_file_is_written()
    ensures { MachIsWritten }
{}
