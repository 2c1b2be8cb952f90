//! Kinds of segments.
ghost use Rattle.std.specs.Prelude.{◌≡◌};
ghost use Rattle.oc_neutral.specs.Omf.Kinds.{omf_kind};

use oc_neutral::Kind;

/// The kind of a segment of this class, some byte of which is covered by data or none. Linear in the
/// class.
#[tactic(auto, unfolding(oc_neutral::specs::Omf::Kinds::omf_kind))]
pub fn kind_of(class: &[u8], covered: bool) -> Kind
    ensures { result ≡ omf_kind class.now covered }
{
    if class.ends_with(b"CODE") {
        return Kind::Code;
    }
    if class.starts_with(b"DEB") {
        return Kind::Debug;
    }
    if class == b"CONST".as_slice() {
        return Kind::ReadOnly;
    }
    if class == b"BSS".as_slice() && !covered {
        return Kind::Zero;
    }
    Kind::Data
}
