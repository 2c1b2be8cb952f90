//! The structures in entries that have names, read from the contents of their entry at a place.
ghost use Rattle.std.specs.Prelude.{◌≡◌, ℕ, Bool, false, MatchResult, Ok, Err, Some, None};
ghost use Rattle.oc_omf.specs.Structures as structures;

use crate::cursor::{
    Reading, read_index, read_long, read_name, read_u8, read_u16, read_u24, read_u32,
};
use crate::structures::Communal;
use oc_base::View;

/// A symbol at an offset of a segment.
#[derive(Drop)]
pub struct Public<'a> {
    /// Its name.
    pub name: &'a [u8],
    /// The offset, in bytes.
    pub offset: u32,
}

/// The symbol at `at`, in an entry of the odd type where `wide`.
#[tactic(auto, unfolding(crate::specs::Structures::public_read))]
pub fn read_public<'a>(view: &View<'a>, wide: bool, at: u64) -> Reading<Public<'a>>
    ensures { (local : Bool) (segment : ℕ) → MatchResult result
        (λ r. structures.public_read wide local segment view.now at ≡ Ok (record { local = local; name = r.0.name.now; segment = segment; offset = r.0.offset }, r.1))
        (λ c. structures.public_read wide local segment view.now at ≡ Err c) }
{
    let (name, at) = read_name(view, at)?;
    let (offset, at) = read_long(view, wide, at)?;
    let (_kind, at) = read_index(view, at)?;
    Ok((Public { name, offset }, at))
}

/// The name of the external at `at`.
#[tactic(auto, unfolding(crate::specs::Structures::external_read))]
pub fn read_external<'a>(view: &View<'a>, at: u64) -> Reading<&'a [u8]>
    ensures { (local : Bool) → MatchResult result
        (λ r. structures.external_read local view.now at ≡ Ok (record { local = local; name = r.0.now; communal = None }, r.1))
        (λ c. structures.external_read local view.now at ≡ Err c) }
{
    let (name, at) = read_name(view, at)?;
    let (_kind, at) = read_index(view, at)?;
    Ok((name, at))
}

// the length of a communal with its form
#[tactic(auto, unfolding(crate::specs::Structures::communal_length))]
fn read_length(view: &View<'_>, at: u64) -> Reading<(u8, u32)>
    ensures { result ≡ structures.communal_length view.now at }
{
    let (form, at) = read_u8(view, at)?;
    let (length, at) = match form {
        0x81 => {
            let (length, at) = read_u16(view, at)?;
            (u32::from(length), at)
        }
        0x84 => read_u24(view, at)?,
        0x88 => read_u32(view, at)?,
        _ => (u32::from(form), at),
    };
    Ok(((form, length), at))
}

/// The communal at `at`, with its name.
#[tactic(auto, unfolding(crate::specs::Structures::communal_read))]
pub fn read_communal<'a>(view: &View<'a>, at: u64) -> Reading<(&'a [u8], Communal)>
    ensures { MatchResult result
        (λ r. structures.communal_read view.now at ≡ Ok (record { local = false; name = r.0.0.now; communal = Some r.0.1 }, r.1))
        (λ c. structures.communal_read view.now at ≡ Err c) }
{
    let (name, at) = read_name(view, at)?;
    let (_kind, at) = read_index(view, at)?;
    let (kind, at) = read_u8(view, at)?;
    let ((form, length), at) = read_length(view, at)?;
    let communal = Communal { kind, form, length };
    Ok(((name, communal), at))
}
