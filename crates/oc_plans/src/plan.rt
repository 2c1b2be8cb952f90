//! Planned files.
ghost use Rattle.std.specs.Prelude.{◌≡◌};
ghost use Rattle.oc_shelf.specs.Writing.Parts.{IsPlaced, pieces_by};

use oc_shelf::{Layout, Parts, window_of};
use oc_target::Emits;
use std::marker::Model;

/// A planned file: what it is made of, and where its parts stand. Contracts see its parts, each with its
/// place.
#[derive(Debug, Drop)]
pub struct Plan<P: Parts> {
    parts: P,
    layout: Layout,
}

impl<P: Parts> Model for Plan<P> {
    ghost use Rattle.oc_shelf.specs.Writing.Parts.{IsPlaced, Pieces, pieces_by};

    ghost Value = { Pieces };

    ghost view = { λ p. pieces_by p.layout (P.parts p.parts) };

    ghost invariant = { λ p. P.sound p.parts × IsPlaced p.layout (P.parts p.parts) };
}

impl<P: Parts> Plan<P> {
    /// The plan of a file of these parts, laid so. Constant time, no memory.
    pub fn new(parts: P, layout: Layout) -> Plan<P>
        requires sound { P.sound parts }
        requires placed { IsPlaced layout (P.parts parts) }
        ensures { result ≡ pieces_by layout (P.parts parts) }
    {
        Plan { parts, layout }
    }

    /// What it is made of, and where its parts stand. Constant time, no memory.
    pub fn into_parts(self) -> (P, Layout)
        ensures { pieces_by result.1 (P.parts result.0) ≡ self }
    {
        (self.parts, self.layout)
    }
}

impl<P: Parts> Emits for Plan<P> {
    ghost use Rattle.oc_shelf.specs.Writing.Parts.{file_of};

    ghost file = { λ p. file_of p };

    fn len(&self) -> u64 {
        self.layout.end
    }

    fn window(&self, at: u64, to: &mut [u8]) -> usize {
        window_of(&self.parts, &self.layout, at, to)
    }
}
