//! Laws, for callers to cite. The functions do nothing.
ghost use Rattle.oc_making.specs.Making.{MadeIsAccepted, MadeIsExpressible, MadeIsShort};

/// What is made can be written in every format of its word, but ELF for many sections: it has too few.
pub fn made_is_expressible()
    ensures { MadeIsExpressible }
{}

/// No conversion of what is made to such a format is refused.
pub fn made_is_accepted()
    ensures { MadeIsAccepted }
{}

/// What is made is within the limit of inputs.
pub fn made_is_short()
    ensures { MadeIsShort }
{}
