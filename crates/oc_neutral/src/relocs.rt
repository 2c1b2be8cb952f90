//! The relocations of an object, by its sections.
ghost use Rattle.std.specs.Prelude.{◌≡◌, ◌≢◌, ◌+◌, ◌-◌, ◌^◌, ◌<◌, ◌≤◌, ◌↔◌, [], ◌∷◌, ◌++◌, length, slice_set, IfOk, IfSome, if◌then◌else◌, Err, IsTrue, OnErr, OnOk, map};
ghost use Rattle.oc_linking.specs.Keeping.{kept_of};
ghost use Rattle.oc_chains.specs.Changed.{AllAreOf, AreAnswered};
ghost use Rattle.oc_chains.specs.Fields.{FollowFrom};
ghost use Rattle.oc_chains.specs.Lists.{held_in, is_taken, list_of, with_field};
ghost use Rattle.oc_neutral.specs.Numbered.{AreNumbers, emptied, number_at, numbered, numbers_by, own_numbers};

use crate::reloc::Reloc;
use oc_base::NoMemory;
use oc_chains::{ChainFault, Chains, Walk};
use std::alloc::Global;
use std::marker::Model;

/// The relocations of each section of an object. Contracts see the list of each section, and how
/// many entries are free.
///
/// Taking sections out moves no list: each section that is left keeps the number of its list.
#[derive(Debug, Drop)]
pub struct Relocs {
    chains: Chains<Reloc>,
    // the number of each section's list, in rising order; none where the numbers are the positions
    of: Option<Vec<u32>>,
}

impl Model for Relocs {
    ghost use Rattle.std.specs.Prelude.{length};
    ghost use Rattle.oc_chains.specs.Lists.{Chained};
    ghost use Rattle.oc_neutral.specs.declared.reloc.Reloc.{Reloc};
    ghost use Rattle.oc_neutral.specs.Numbered.{AreNumbers, numbered, numbers_by, own_numbers};

    ghost Value = { Chained Reloc };

    ghost view = { λ r. record { lists = numbered (own_numbers r.of) r.chains.lists; spare = r.chains.spare } };

    ghost invariant = { λ r. AreNumbers (numbers_by (own_numbers r.of) (length r.chains.lists)) r.chains.lists };
}

// the number of the list of the section at a position
fn number_of(of: &Option<Vec<u32>>, section: u32) -> u32
    requires { IfSome (own_numbers of.now) (λ numbers. section < length numbers) }
    ensures { result ≡ number_at (own_numbers of.now) section }
{
    match of {
        Some(numbers) => numbers[section as usize],
        None => section,
    }
}

// the numbers of the lists of the sections that stay; `NoMemory` where memory ran out
fn numbers_left(
    alloc: Global,
    of: &Option<Vec<u32>>,
    count: u32,
    stay: &[bool],
) -> Result<Vec<u32>, NoMemory>
    requires all { count ≡ length stay.now }
    requires counted { IfSome (own_numbers of.now) (λ numbers. length stay.now ≡ length numbers) }
    ensures { IfOk result (λ left. left.items ≡ kept_of stay.now (numbers_by (own_numbers of.now) (length stay.now))) }
{
    let mut left = Vec::with_capacity(alloc, stay.len())?;
    for at in 0..count {
        put_number(stay[at as usize], number_of(of, at), &mut left)?;
    }
    Ok(left)
}

// puts a number that stays after the others; `NoMemory` where memory ran out
fn put_number(stays: bool, number: u32, left: &mut Vec<u32>) -> Result<(), NoMemory>
    ensures { OnOk result (left.new.items ≡ (if stays then left.old.items ++ number ∷ [] else left.old.items)) }
{
    if stays {
        left.push(number)?;
    }
    Ok(())
}

// takes all fields from the sections that do not stay
fn drop_others(of: &Option<Vec<u32>>, count: u32, stay: &[bool], chains: &mut Chains<Reloc>)
    requires all { count ≡ length stay.now }
    requires numbers { AreNumbers (numbers_by (own_numbers of.now) (length chains.old.lists)) chains.old.lists }
    requires counted { length stay.now ≡ length (numbered (own_numbers of.now) chains.old.lists) }
    ensures numbers { AreNumbers (numbers_by (own_numbers of.now) (length chains.new.lists)) chains.new.lists }
    ensures count { length chains.new.lists ≡ length chains.old.lists }
    ensures lists { numbered (own_numbers of.now) chains.new.lists ≡ emptied stay.now (numbered (own_numbers of.now) chains.old.lists) }
    ensures spare { chains.new.spare + held_in chains.new.lists ≡ chains.old.spare + held_in chains.old.lists }
{
    for at in 0..count {
        if !stay[at as usize] {
            chains.drop_section(number_of(of, at));
        }
    }
}

impl Relocs {
    /// The lists of these chains, each section's at its position. Constant time, no memory.
    pub fn of(chains: Chains<Reloc>) -> Relocs
        ensures lists { result.lists ≡ chains.lists }
        ensures spare { result.spare ≡ chains.spare }
    {
        Relocs { chains, of: None }
    }

    /// How many sections there are. Constant time, no memory.
    pub fn section_count(&self) -> u32
        ensures { result ≡ length self.now.lists }
    {
        let all = self.chains.section_count();
        match &self.of {
            Some(numbers) => numbers.len() as u32,
            None => all,
        }
    }

    /// How many entries are free. Constant time, no memory.
    pub fn spare(&self) -> u32
        ensures { result ≡ self.now.spare }
    {
        self.chains.spare()
    }

    /// The fields of a section in order of offset. Constant time, and for each field again; no memory.
    pub fn walk(&self, section: u32) -> Walk<'_, Reloc>
        requires { section < length self.now.lists }
        ensures items { result ≡ list_of self.now.lists section }
        ensures apart { FollowFrom 0 result }
    {
        self.chains.walk(number_of(&self.of, section))
    }

    /// Takes all fields from a section; its entries become free. Constant time, no memory.
    pub fn drop_section(&mut self, section: u32)
        requires { section < length self.old.lists }
        ensures lists { self.new.lists ≡ slice_set self.old.lists section [] }
        ensures spare { self.new.spare ≡ self.old.spare + length (list_of self.old.lists section) }
    {
        let number = number_of(&self.of, section);
        self.chains.drop_section(number);
    }

    /// Adds a field of `width` bytes from `at` on to a section, with a relocation.
    ///
    /// `Overlap` exactly where the field meets one of that section, and `NoMemory` where memory ran
    /// out, which does not happen while entries are free. A refused field changes nothing. Time as for
    /// `Chains::insert`.
    pub fn insert(
        &mut self,
        section: u32,
        at: u32,
        width: u32,
        item: Reloc,
    ) -> Result<(), ChainFault>
        requires there { section < length self.old.lists }
        requires wide { (1 ≤ width) × (width ≤ 8) }
        requires fits { at + width ≤ 2 ^ 31 }
        requires room { held_in self.old.lists < 2 ^ 32 - 1 }
        ensures lists { OnOk result (self.new.lists ≡ with_field self.old.lists section at width item) }
        ensures spare { OnOk result (self.new.spare ≡ self.old.spare - 1) }
        ensures overlap { (result ≡ Err ChainFault.Overlap) ↔ IsTrue (is_taken self.old.lists section at width) }
        ensures no_memory { 1 ≤ self.old.spare → result ≢ Err ChainFault.NoMemory }
        ensures err { OnErr result (self.new ≡ self.old) }
    {
        let number = number_of(&self.of, section);
        self.chains.insert(number, at, width, item)
    }

    /// Every relocation becomes an answer of `change` for it; fields stay where they are. Linear in
    /// the fields and in all sections that were ever added, no memory.
    pub fn change_items<F: Fn(Reloc) -> Reloc>(&mut self, change: &F)
        requires { AllAreOf (F.pre change.now) self.old.lists }
        ensures lists { AreAnswered (F.post change.now) self.old.lists self.new.lists }
        ensures spare { self.new.spare ≡ self.old.spare }
    {
        self.chains.change_items(change);
    }

    /// Leaves the lists of the sections whose flag is set, in their order; the entries of the others
    /// become free. `NoMemory` where memory ran out, which is taken first: then all is as it was.
    /// Linear in the sections.
    pub fn leave(&mut self, alloc: Global, stay: &[bool]) -> Result<(), NoMemory>
        requires { length stay.now ≡ length self.old.lists }
        ensures lists { OnOk result (self.new.lists ≡ kept_of stay.now self.old.lists) }
        ensures spare { OnOk result (self.new.spare + held_in self.new.lists ≡ self.old.spare + held_in self.old.lists) }
        ensures err { OnErr result (self.new ≡ self.old) }
    {
        let count = self.section_count();
        let numbers = numbers_left(alloc, &self.of, count, stay)?;
        drop_others(&self.of, count, stay, &mut self.chains);
        self.of = Some(numbers);
        Ok(())
    }
}
