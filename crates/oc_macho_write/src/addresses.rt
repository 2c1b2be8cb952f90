//! The addresses that an output gives to its sections: from 0 on, those with bytes in the file, and
//! after them those without (our profile).
ghost use Rattle.std.specs.Prelude.{◌≡◌, ◌+◌, ◌^◌, ◌<◌, ◌≤◌, ℕ, length, slice_index_or, IfOk};
ghost use Rattle.oc_base.specs.declared.format.Word.{Word};
ghost use Rattle.oc_neutral.specs.Building as building;
ghost use Rattle.oc_target.specs.Fitted.{IsFitted};
ghost use Rattle.oc_macho.specs.MachHeader.{mach_format};
ghost use Rattle.oc_macho_file.specs.Addresses.{is_at};
ghost use Rattle.oc_macho_write.specs.Addresses.{AreAllAddresses, place_or, those_end, those_laid};

use oc_base::NoMemory;
use oc_neutral::{Kind, Neutral, Section};
use oc_shelf::aligned_place;
use std::alloc::Global;

/// The addresses of the sections of an object.
#[derive(Drop)]
pub(crate) struct Addresses {
    /// Of each section, by its position.
    pub(crate) sections: Vec<u64>,
    /// Where those with bytes in the file end.
    pub(crate) stored_end: u64,
    /// Where all end.
    pub(crate) memory_end: u64,
}

/// Whether a section has no bytes in the file. Constant time.
pub(crate) fn is_blank(section: &Section) -> bool
    ensures { result ≡ building.is_zero section.now.kind }
{
    match section.kind {
        Kind::Zero => true,
        Kind::Code
        | Kind::ReadOnly
        | Kind::Data
        | Kind::Init
        | Kind::Fini
        | Kind::Debug
        | Kind::Exception
        | Kind::Note => false,
    }
}

// gives addresses from `at` on to the sections with bytes, or to those without, and returns where
// they end
fn lay_sections(addresses: &mut [u64], neutral: &Neutral, blank: bool, at: u64) -> u64
    requires counted { length addresses.old ≡ length neutral.now.sections }
    requires near { those_end blank neutral.now at < 2 ^ 48 }
    ensures counted { length addresses.new ≡ length neutral.now.sections }
    ensures each { (k : ℕ) → k < length neutral.now.sections
        → slice_index_or addresses.new k 0 ≡ place_or (is_at k) (those_laid blank neutral.now at) (slice_index_or addresses.old k 0) }
    ensures end { result ≡ those_end blank neutral.now at }
{
    neutral.is_object();
    let mut end = at;
    for k in 0..neutral.section_count() {
        let section = neutral.section(k);
        if is_blank(section) == blank {
            let begin = aligned_place(u64::from(section.align), end);
            addresses[k as usize] = begin;
            end = begin + u64::from(section.size);
        }
    }
    end
}

impl Addresses {
    /// The addresses of the sections of an object. `NoMemory` where memory ran out. Linear in the
    /// sections.
    pub(crate) fn of(alloc: Global, neutral: &Neutral) -> Result<Addresses, NoMemory>
        requires { (word : Word) × IsFitted (mach_format word) neutral.now }
        ensures { IfOk result (λ addresses. AreAllAddresses neutral.now addresses) }
    {
        let mut sections = vec![in alloc; 0; neutral.section_count() as usize]?;
        let stored_end = lay_sections(sections.as_mut_slice(), neutral, false, 0);
        let memory_end = lay_sections(sections.as_mut_slice(), neutral, true, stored_end);
        Ok(Addresses {
            sections,
            stored_end,
            memory_end,
        })
    }
}
