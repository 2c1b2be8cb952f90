//! Segments as sections, by what is known of them.
ghost use Rattle.std.specs.Prelude.{◌≡◌, ◌-◌, ◌<◌, length, Some};
ghost use Rattle.oc_omf.specs.Sections as sections;
ghost use Rattle.oc_omf_read.specs.Sections as own;

use oc_neutral::Kind;
use oc_omf::{Segment, kind_of};
use oc_omf_judge::{Defined, name_at};

/// The alignment of a segment, 0 where it has none. Constant time.
pub(crate) fn align_of(segment: &Segment) -> u32
    ensures { result ≡ sections.align_of segment.now }
{
    match segment.attributes / 32 % 8 {
        1 => 1,
        2 => 2,
        3 => 16,
        4 => 256,
        5 => 4,
        0 | 6.. => 0,
    }
}

/// The name of an index, empty where there is none. Constant time.
pub(crate) fn name_in<'a>(known: &Defined<'a>, index: u16) -> &'a [u8]
    ensures { result.now ≡ own.name_in known.now index }
{
    name_at(known.names.as_slice(), index)
}

/// The kind of segment `k`, counted from 0. Linear in its class.
pub(crate) fn kind_in(known: &Defined, k: usize) -> Kind
    requires covered { k < length known.now.covered.items }
    requires there { k < length known.now.segments.items }
    ensures { own.kind_in known.now k ≡ Some result }
{
    let segment = known.segments[k];
    kind_of(name_in(known, segment.class), known.covered[k])
}
