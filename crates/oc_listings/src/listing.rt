//! The text of a listing.
ghost use Rattle.std.specs.Prelude.{◌≡◌, IfOk};
ghost use Rattle.oc_listings.specs.ObjectListings.{object_listing};

use crate::header::put_header;
use crate::relocs::put_relocs;
use crate::sections::put_sections;
use oc_base::{Bytes, NoMemory};
use oc_neutral::Neutral;
use std::alloc::Global;

/// What is listed of an object file.
#[derive(Clone, Copy, Debug, PartialEq, Eq)]
pub enum Listing {
    /// Its format, and how much of each thing it has.
    Header,
    /// Its sections.
    Sections,
    /// Its relocations.
    Relocations,
}

/// The lines of a listing of an object that was read, with all kept, from a file of so many bytes.
///
/// - The header is the lines `format T`, `sections N`, `symbols N`, `relocations N` and `bytes N`.
/// - A section is a line of its number in the file, its kind, its alignment and its size in bytes, and its
///   name, in the order of the file.
/// - A relocation is a line of the number of its section, its offset and its width in bytes, its check, its
///   residue, and what it names: `symbol NAME`, or `section K` by the number of that section. The lines are
///   in order of sections and of offsets. The residue is what the relocation stores where every section,
///   the image and the tables of slots lie at 0 and no name is defined outside; it has 8 hexadecimal
///   digits, or 16 in an object of 64 bits.
///
/// Names are shown as in a listing of symbols, all other numbers in decimal. `NoMemory` where memory ran
/// out, or where the text before a name and that name have more than 2^29 bytes (`put_name`). Linear in
/// what is listed and the names of it; takes memory for the text.
#[tactic(auto, unfolding(crate::specs::ObjectListings::object_listing))]
pub fn object_text(
    alloc: Global,
    neutral: &Neutral,
    bytes: u64,
    listing: Listing,
) -> Result<Bytes, NoMemory>
    ensures { IfOk result (λ text. text ≡ object_listing neutral.now bytes listing) }
{
    let mut out = String::new(alloc);
    match listing {
        Listing::Header => put_header(&mut out, neutral, bytes)?,
        Listing::Sections => put_sections(&mut out, neutral)?,
        Listing::Relocations => put_relocs(&mut out, neutral)?,
    }
    Ok(Bytes::from_vec(out.into_bytes()))
}
