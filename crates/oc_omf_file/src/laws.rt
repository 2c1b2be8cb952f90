//! Laws of the definitions, each the contract of a function that does nothing.
ghost use Rattle.oc_omf_file.specs.Writing.{OmfIsWritten};

/// The rules of OMF have the word and the alignments that are given for its format, and the
/// canonical file of every object that is ready for OMF is well formed and shows the object that is
/// seen of it.
pub fn omf_file_is_written()
    ensures { OmfIsWritten }
{}
