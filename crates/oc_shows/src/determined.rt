//! The object of a file, and what an object becomes in a target, are computed.
ghost use Rattle.oc_shows.specs.Laws.{ShownObjectIsComputed};

/// A file shows one object at most under one choice of what is kept: the one that is computed from the
/// file (`object_in`).
pub fn shown_object_is_computed()
    ensures { ShownObjectIsComputed }
{}
