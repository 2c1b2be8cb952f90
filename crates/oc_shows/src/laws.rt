//! Laws of the definitions, each the contract of a function that does nothing.
ghost use Rattle.oc_shows.specs.Again.{ReadAgainShows};
ghost use Rattle.oc_shows.specs.Built.{BuiltShows, CleanIsAdded};
ghost use Rattle.oc_shows.specs.Finished.{BuiltIsComplete, BuiltIsReadable};
ghost use Rattle.oc_shows.specs.Laws.{NormalFormKeepsValues};
ghost use Rattle.oc_shows.specs.Reordered.{ReorderedLooksAlike};
ghost use Rattle.oc_shows.specs.RowFields.{RowsAreFields, SectionRowsAreFields};
ghost use Rattle.oc_shows.specs.RowValues.{RowsHaveValues};
ghost use Rattle.oc_shows.specs.Started.{StartIsStarted};

/// For every word, list of symbols, section, offset and relocation, what the normal form leaves has
/// the relocation's value at every placement and every valuation that gives each Local its own
/// site and no slot: a relocation that is kept has the same value, and a constant has its residue.
pub fn normal_form_keeps_values()
    ensures { NormalFormKeepsValues }
{}

/// The relocation that a row of a table makes of an entry has the value that the row gives it.
pub fn rows_have_values()
    ensures { RowsHaveValues }
{}

/// An object shows a file, where a Builder that had the file's sections and symbols was given a
/// relocation for each field, in any order, each as the file has it.
pub fn built_shows()
    ensures { BuiltShows }
{}

/// A Builder to which a file's relocations were added can finish where it could before, if their
/// hints lie where they can and they name no aliases; and what it gives is readable where it was
/// before, if nothing is given in sections that have no bytes.
pub fn built_is_whole()
    ensures complete { BuiltIsComplete }
    ensures readable { BuiltIsReadable }
{}

/// A Builder that was given some of a file's fields takes each other one, where no two fields of
/// the file meet and its differences fit.
pub fn clean_is_added()
    ensures { CleanIsAdded }
{}

/// The relocation that a row makes of an entry is the entry's field, where its target is the
/// entry's; against an offset in a section, it is one against the section.
pub fn rows_are_fields()
    ensures symbols { RowsAreFields }
    ensures sections { SectionRowsAreFields }
{}

/// What a Builder holds of a file before its relocations has the file's sections and symbols.
pub fn start_is_started()
    ensures { StartIsStarted }
{}

/// A file shows an object, where a reader of the format finds in it the object's sections and
/// symbols, as its fields the object's relocations, and beside the fields the object's bytes.
pub fn read_again_shows()
    ensures { ReadAgainShows }
{}

/// Linking sees the same of two objects where a function leads each nonlocal symbol of the one to
/// its like in the other, which has no more of them, and their relocations have the same values.
pub fn reordered_looks_alike()
    ensures { ReorderedLooksAlike }
{}
