//! Laws of the definitions, each the contract of a function that does nothing.
ghost use Rattle.oc_made_files.specs.MadeFiles.{MadeFileShows};

/// A file that was made for an object that is ready for its format shows the object that is seen.
pub fn made_file_shows()
    ensures { MadeFileShows }
{}
