//! Laws of the definitions, each the contract of a function that does nothing.
ghost use Rattle.oc_omf_read.specs.Shown.{CleanIsShown, StartsAreWell};

/// A module shows what is built of its sections and symbols, when the relocations of its fixups were
/// added, one for each field, in any order.
pub fn clean_is_shown()
    ensures { CleanIsShown }
{}

/// What is built of the sections and symbols of a module, before any relocation, is what the module
/// starts with, and can be read.
pub fn starts_are_well()
    ensures { StartsAreWell }
{}
