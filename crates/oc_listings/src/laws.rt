//! Laws of the definitions, each the contract of a function that does nothing.
ghost use Rattle.oc_listings.specs.Laws.{ListingsAgree};

/// A listing of an object that shows a file is that of the file, by the rules of its format.
pub fn listings_agree()
    ensures { ListingsAgree }
{}
