//! Laws of the definitions, each the contract of a function that does nothing.
ghost use Rattle.oc_coff_file.specs.Writing.{CoffIsWritten};

/// For all four forms: the rules of COFF have the word and the alignments that are stated for its
/// format, and the canonical file of every object that is ready for COFF is well formed and shows
/// the object that is seen of it.
pub fn coff_file_is_written()
    ensures { CoffIsWritten }
{}
