//! Laws, for callers to cite. The functions do nothing.
ghost use Rattle.oc_drop.specs.KeptShows.{DroppedShowsKept};
ghost use Rattle.oc_drop.specs.Laws.{NothingIsDropped, PositionsAreNew};

/// The table of new positions has that of each.
pub fn positions_are_new()
    ensures { PositionsAreNew }
{}

/// An object of which every section is kept stays as it is.
pub fn nothing_is_dropped()
    ensures { NothingIsDropped }
{}

/// What is left of an object that showed a file shows the fields of its kept sections, with their
/// widths, checks and values, at every placement and every valuation that is true to Locals and
/// pinned symbols.
pub fn dropped_shows_kept()
    ensures { DroppedShowsKept }
{}
