//! Laws, for callers to cite. The functions do nothing.
ghost use Rattle.oc_equations.specs.Laws.{DroppingFaultIsLeast, EditFaultIsLeast};
ghost use Rattle.oc_equations.specs.Laws.{EditedIsByParts, EditedIsEquations};
ghost use Rattle.oc_equations.specs.Laws.{FileIsFinal, RefusalIsLeast, SymbolsAreFinal};

/// The symbols of an object that was edited are the final ones: each by its binding in the input,
/// the options that match its name, whether its section stays, and what becomes of its fallback.
pub fn symbols_are_final()
    ensures { SymbolsAreFinal }
{}

/// Dropping is refused exactly where one of its two conditions fails, with the least that does.
pub fn dropping_fault_is_least()
    ensures { DroppingFaultIsLeast }
{}

/// The edits are refused exactly where one of the eight conditions fails, with the least that does.
pub fn edit_fault_is_least()
    ensures { EditFaultIsLeast }
{}

/// An object that was edited has the sections, groups, symbols and fields of the equations.
pub fn edited_is_by_parts()
    ensures { EditedIsByParts }
{}

/// The edits give the object of the equations, or the least fault.
pub fn edited_is_equations()
    ensures { EditedIsEquations }
{}

/// The refusal after reading is the least fault of the edits, or else what the target refuses of the
/// edited object; where there is none, that object is written, fitted.
pub fn refusal_is_least()
    ensures { RefusalIsLeast }
{}

/// What the edits make of the symbols of a file, and of the keys of its groups, are the final ones.
pub fn file_is_final()
    ensures { FileIsFinal }
{}
