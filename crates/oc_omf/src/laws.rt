//! Laws of the definitions, each the contract of a function that does nothing.
ghost use Rattle.oc_omf.specs.Rules.{OmfIsDialect};

/// The rules of OMF have the word and the alignments that are given for its format.
pub fn omf_is_dialect()
    ensures { OmfIsDialect }
{}
