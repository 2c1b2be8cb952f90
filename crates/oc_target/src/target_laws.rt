//! What an object meets that is ready for a target, and what is seen of it.
ghost use Rattle.oc_target.specs.CoffMeets.{FittedMeetsCoff};
ghost use Rattle.oc_target.specs.ElfMeets.{FittedMeetsElf};
ghost use Rattle.oc_target.specs.TargetLaws.{SeenIsObject, SeenLooksAlike, FitIsComputed};
ghost use Rattle.oc_target.specs.MachMeets.{FittedMeetsMach};
ghost use Rattle.oc_target.specs.OmfMeets.{FittedMeetsOmf};

/// An object that is ready for ELF meets what its writer uses: bounds on all counts and sums, and
/// for each section, symbol and relocation what ELF can express of it.
pub fn fitted_meets_elf()
    ensures { FittedMeetsElf }
{}

/// An object that is ready for COFF meets what its writer uses; the names that have no room in
/// their entries are given to the string table, and each group has its key symbol.
pub fn fitted_meets_coff()
    ensures { FittedMeetsCoff }
{}

/// An object that is ready for Mach-O meets what its writer uses; a difference of mac32 has both
/// ends in sections that have bytes.
pub fn fitted_meets_mach()
    ensures { FittedMeetsMach }
{}

/// An object that is ready for OMF meets what its writer uses; each kind has a class, and each
/// relocation is one of the three fixups.
pub fn fitted_meets_omf()
    ensures { FittedMeetsOmf }
{}

/// What a reader of a format shows of an object that was ready for it, and was written, is an
/// object: `seen` gives it by what the format says of sections, symbols and relocations.
pub fn seen_is_object()
    ensures { SeenIsObject }
{}

/// Linking sees the same of what a reader shows as of the object that was written, wherever a
/// linker may discard groups: the same sections, names, fields and exports.
pub fn seen_looks_alike()
    ensures { SeenLooksAlike }
{}

/// An object becomes one object at most in a target whose words have its size: the one that is computed
/// from it (`fit_of`).
pub fn fit_is_computed()
    ensures { FitIsComputed }
{}
