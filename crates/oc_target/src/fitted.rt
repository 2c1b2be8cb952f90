//! Objects that are ready to be written.
ghost use Rattle.std.specs.Prelude.{◌≡◌};
ghost use Rattle.oc_target.specs.Fitted.{IsFitted};

use oc_base::Format;
use oc_neutral::Neutral;
use std::marker::Model;

/// An object that is ready to be written in a format: the format can express it, and its sections
/// have names, tags and alignments of the format. Contracts see the object.
#[derive(Debug, Drop)]
pub struct Fitted {
    neutral: Neutral,
}

impl Model for Fitted {
    ghost use Rattle.oc_neutral.specs.Objects.{Object};
    ghost use Rattle.oc_target.specs.Fitted.{IsFitted};

    ghost Value = { Object };

    ghost view = { λ f. f.neutral };

    ghost invariant = { λ f. IsFitted f.neutral.format f.neutral };
}

impl Fitted {
    /// The object, which is ready to be written in `format`. Constant time, no memory.
    pub fn new(format: Format, neutral: Neutral) -> Fitted
        requires { IsFitted format neutral }
        ensures { result ≡ neutral }
    {
        let _ = format;
        Fitted { neutral }
    }

    /// The object. Constant time, no memory.
    pub fn neutral(&self) -> &Neutral
        ensures { result.now ≡ self.now }
    {
        &self.neutral
    }

    /// The object, to take apart. Constant time, no memory.
    pub fn into_neutral(self) -> Neutral
        ensures { result ≡ self }
    {
        self.neutral
    }

    /// What holds of every such object, for callers to cite. It does nothing.
    pub fn is_fitted(&self)
        ensures { IsFitted self.now.format self.now }
    {
        let _ = &self.neutral;
    }
}
