//! Laws of the definitions, each the contract of a function that does nothing.
ghost use Rattle.oc_coff_read.specs.Shown.{CleanIsShown};

/// A file without a fault shows what is built of its sections and symbols, when the relocations of
/// its entries were added, in any order.
pub fn clean_is_shown()
    ensures { CleanIsShown }
{}
