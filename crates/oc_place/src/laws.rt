//! Laws of the definitions, each the contract of a function that does nothing.
ghost use Rattle.oc_place.specs.Footprints.{FootprintsAgree};
ghost use Rattle.oc_place.specs.Laws.{FileCanLink, InputCanLink, ObjectCanLink};

/// What is placed of an object that shows a file is what is placed of the file.
pub fn footprints_agree()
    ensures { FootprintsAgree }
{}

/// What a text gives that is at no fault is a placement and an outside map as linking asks for them: each
/// section is aligned and lies inside the word, whole groups are discarded, and the outside gives a
/// site to each name that needs one, to none that is defined here, and to no other names. A conversion
/// that keeps all may take both for its input and for its output.
pub fn placed_can_link()
    ensures object { ObjectCanLink }
    ensures file { FileCanLink }
    ensures input { InputCanLink }
{}
