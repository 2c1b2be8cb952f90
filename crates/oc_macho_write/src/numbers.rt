//! The numbers of the symbols in the symbol table (Mach-O reference, "nlist").
ghost use Rattle.std.specs.Prelude.{◌≡◌, ◌+◌, ◌^◌, ◌<◌, IfOk, length};
ghost use Rattle.oc_base.specs.declared.format.Word.{Word};
ghost use Rattle.oc_neutral.specs.declared.reloc.Target.TheVariants as to;
ghost use Rattle.oc_neutral.specs.Objects.{Object};
ghost use Rattle.oc_macho_file.specs.Bodies.{reference_to};
ghost use Rattle.oc_macho_file.specs.Lines as mach_lines;
ghost use Rattle.oc_macho_write.specs.Lines.{AreLines, AreLinesOf};
ghost use Rattle.oc_macho_write.specs.Numbers.{AreSized, CanGive, HasNumber, IsBlank, IsGiven, IsNumbered};

use crate::lines::Line;
use oc_base::{NoMemory, Word};
use oc_macho::Reference;
use oc_neutral::{Neutral, Target};
use std::alloc::Global;

/// The numbers of lines, by the positions of their sections and symbols in the object; 0 where there is
/// no line.
#[derive(Drop)]
pub(crate) struct Numbers {
    /// Of the symbols of sections.
    owns: Vec<u32>,
    /// Of the symbols that are not Local.
    outers: Vec<u32>,
}

impl Numbers {
    // numbers of nothing yet
    fn new(alloc: Global, neutral: &Neutral) -> Result<Numbers, NoMemory>
        ensures sized { IfOk result (λ numbers. AreSized neutral.now numbers) }
        ensures zero { IfOk result IsBlank }
    {
        Ok(Numbers {
            owns: vec![in alloc; 0; neutral.section_count() as usize]?,
            outers: vec![in alloc; 0; neutral.symbol_count() as usize]?,
        })
    }

    // gives a number to a line
    fn give(&mut self, line: Line, number: u32)
        requires { CanGive self.old line }
        ensures sized { (n : Object) → AreSized n self.old → AreSized n self.new }
        ensures owns { IsGiven mach_lines.is_own_line line number self.old.owns.items self.new.owns.items }
        ensures outers { IsGiven mach_lines.is_symbol_line line number self.old.outers.items self.new.outers.items }
    {
        match line {
            Line::Own(k) => self.owns[k as usize] = number,
            Line::Local(_) => {}
            Line::Outer(k) => self.outers[k as usize] = number,
        }
    }

    /// The numbers of these lines. `NoMemory` where memory ran out. Linear in the lines.
    pub(crate) fn of(alloc: Global, neutral: &Neutral, lines: &[Line]) -> Result<Numbers, NoMemory>
        requires { AreLinesOf neutral.now lines.now }
        ensures { (w : Word) → AreLines w neutral.now lines.now → IfOk result (λ numbers. IsNumbered w neutral.now numbers) }
    {
        let mut numbers = Numbers::new(alloc, neutral)?;
        for at in 0..lines.len() {
            numbers.give(lines[at], at as u32);
        }
        Ok(numbers)
    }

    /// The number of the symbol of a section. Constant time.
    pub(crate) fn of_section(&self, section: u32) -> u32
        requires { section < length self.now.owns.items }
        ensures { (w : Word) (n : Object) → IsNumbered w n self.now → result ≡ mach_lines.own_number (mach_lines.numbered_lines w n) section }
    {
        self.owns[section as usize]
    }

    // what an entry refers to for a section: its number, or in x86-64 its symbol
    fn to_section(&self, word: Word, section: u32) -> Reference
        requires there { section < length self.now.owns.items }
        requires small { section + 1 < 2 ^ 32 }
        ensures { (n : Object) → IsNumbered word n self.now → result ≡ reference_to word (mach_lines.numbered_lines word n) (to.Section section) }
    {
        match word {
            Word::W32 => Reference::Section(section + 1),
            Word::W64 => Reference::Symbol(self.of_section(section)),
        }
    }

    /// What an entry refers to for a target: a section by its number, or in x86-64 by its symbol.
    /// Constant time.
    pub(crate) fn of_target(&self, word: Word, target: Target) -> Reference
        requires { HasNumber self.now target }
        ensures { (n : Object) → IsNumbered word n self.now → result ≡ reference_to word (mach_lines.numbered_lines word n) target }
    {
        match target {
            Target::Section(section) => self.to_section(word, section),
            Target::Symbol(symbol) => Reference::Symbol(self.outers[symbol as usize]),
        }
    }
}
