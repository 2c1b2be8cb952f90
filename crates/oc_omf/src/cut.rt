//! Fields that the end of an entry cuts.
use oc_base::OutOfView;
use oc_omf_records::BadIndex;
use thiserror::Error;

/// The field of a structure that the end of its entry cuts.
#[derive(Clone, Copy, Debug, PartialEq, Eq, Error)]
pub enum Cut {
    /// A name.
    #[error("a name passes the end of its entry")]
    Name,
    /// An index.
    #[error("an index passes the end of its entry")]
    Index,
    /// Another field.
    #[error("a field passes the end of its entry")]
    Field,
}

impl From<OutOfView> for Cut {
    ghost use Rattle.std.specs.Prelude.{◌≡◌};
    ghost use Rattle.oc_omf.specs.declared.cut.Cut.TheVariants as cut;

    ghost from_gives = { λ _ c. c ≡ cut.Field };

    fn from(_: OutOfView) -> Cut {
        Cut::Field
    }
}

impl From<BadIndex> for Cut {
    ghost use Rattle.std.specs.Prelude.{◌≡◌};
    ghost use Rattle.oc_omf.specs.declared.cut.Cut.TheVariants as cut;

    ghost from_gives = { λ _ c. c ≡ cut.Index };

    fn from(_: BadIndex) -> Cut {
        Cut::Index
    }
}
