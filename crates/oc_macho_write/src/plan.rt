//! Planned files.
use crate::bodies::{Bodies, body_window};
use crate::heads::Heads;
use crate::parts::Part;
use oc_base::Word;
use oc_neutral::Section;
use oc_shelf::Parts;

/// A planned file of Mach-O.
pub type Plan = oc_plans::Plan<MachParts>;

/// What a file is made of: its headers, the bytes of its sections, and its tables.
#[derive(Debug, Drop)]
pub struct MachParts {
    /// The size of its addresses.
    pub(crate) word: Word,
    /// The headers.
    pub(crate) heads: Heads,
    /// What the file contains, in its order.
    pub(crate) parts: Vec<Part>,
    /// With the numbers in their fields.
    pub(crate) sections: Vec<Section>,
    /// The tables.
    pub(crate) bodies: Bodies,
}

impl Parts for MachParts {
    ghost use Rattle.oc_macho_write.specs.Plans.{AreSound, parts_by};

    ghost parts = { parts_by };

    ghost sound = { AreSound };

    fn part_window(&self, k: usize, from: u64, out: &mut [u8]) -> usize {
        let part = self.parts[k];
        body_window(
            self.word,
            &self.heads,
            &self.sections,
            &self.bodies,
            part,
            from,
            out,
        )
    }
}
