//! Where parts begin that are laid one after another.
ghost use Rattle.std.specs.Prelude.{◌≡◌, ◌+◌, ◌^◌, ◌<◌, ◌≤◌, ◌++◌, [], ◌∷◌, OnOk, OnErr};
ghost use Rattle.oc_shelf.specs.Writing.Parts.{aligned};

use oc_base::NoMemory;
use std::alloc::Global;

/// The next place from `at` on that the alignment divides. Constant time.
pub fn aligned_place(align: u64, at: u64) -> u64
    requires some { 1 ≤ align }
    requires near { at + align ≤ 2 ^ 64 }
    ensures { result ≡ aligned align at }
{
    at + (align - at % align) % align
}

/// Where parts begin, offsets in a file, and where the last of them ends.
#[derive(Debug, Drop)]
pub struct Layout {
    /// The place of each part, in their order.
    pub places: Vec<u64>,
    /// Where the last part ends.
    pub end: u64,
}

impl Layout {
    /// No parts. Takes no memory.
    pub fn new(alloc: Global) -> Layout
        ensures places { result.places.items ≡ [] }
        ensures end { result.end ≡ 0 }
    {
        Layout {
            places: Vec::new(alloc),
            end: 0,
        }
    }

    /// Lays a part of `size` bytes after the last one, at the next place that `align` divides.
    /// `NoMemory` where memory ran out, and the layout stays. Amortized constant time.
    pub fn lay(&mut self, align: u64, size: u64) -> Result<(), NoMemory>
        requires some { 1 ≤ align }
        requires near { self.old.end + align + size < 2 ^ 64 }
        ensures places { OnOk result (self.new.places.items ≡ self.old.places.items ++ aligned align self.old.end ∷ []) }
        ensures end { OnOk result (self.new.end ≡ aligned align self.old.end + size) }
        ensures err { OnErr result (self.new.places.items ≡ self.old.places.items) }
        ensures stays { OnErr result (self.new.end ≡ self.old.end) }
    {
        let at = aligned_place(align, self.end);
        self.places.push(at)?;
        self.end = at + size;
        Ok(())
    }
}
