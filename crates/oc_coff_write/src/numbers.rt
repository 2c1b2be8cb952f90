//! The numbers of the symbols in the symbol table (PE/COFF, "COFF Symbol Table").
ghost use Rattle.std.specs.Prelude.{◌≡◌, ◌+◌, ◌<◌, if◌then◌else◌, IfOk, IsSome, Some, true, nat_eq, length};
ghost use Rattle.oc_coff_write.specs.FormFor.{form_for};
ghost use Rattle.oc_coff.specs.declared.form.CoffForm.{CoffForm};
ghost use Rattle.oc_neutral.specs.Families.{container_of};
ghost use Rattle.oc_neutral.specs.Family.{IsCoff};
ghost use Rattle.oc_target.specs.Fitted.{IsFitted};
ghost use Rattle.oc_neutral.specs.Objects.{Object};
ghost use Rattle.oc_shows.specs.SymbolLines.{is_weak_with};
ghost use Rattle.oc_plans.specs.Slots.{IsSetWhere};
ghost use Rattle.oc_coff_file.specs.Bodies.{target_number};
ghost use Rattle.oc_coff_file.specs.Canonical.{tag_of};
ghost use Rattle.oc_coff_file.specs.Lines as coff_lines;
ghost use Rattle.oc_coff_file.specs.Lines.{numbered_lines};
ghost use Rattle.oc_coff_write.specs.Lines.{line_in, AreLines};
ghost use Rattle.oc_coff_write.specs.Numbers.{AreSized, CanGive, IsBlank, IsGiven, IsNumbered, HasNumber, HasTag};

use crate::lines::Line;
use oc_base::NoMemory;
use oc_neutral::{Binding, Fallback, Neutral, Target};
use std::alloc::Global;

/// The numbers of lines, by the positions of their sections and symbols in the object; 0 where there is
/// no line.
#[derive(Drop)]
pub(crate) struct Numbers {
    /// Of the symbols of sections.
    sections: Vec<u32>,
    /// Of the symbols that stand for fallbacks.
    defaults: Vec<u32>,
    /// Of the symbols that are not Local.
    outers: Vec<u32>,
    /// How many entries there are.
    count: u32,
}

// how many entries a symbol that is not Local takes
fn outer_size(binding: Binding) -> u32
    ensures { result ≡ (if is_weak_with (λ f. true) binding then 2 else 1) }
{
    match binding {
        Binding::Weak(_) => 2,
        Binding::Local(_) | Binding::Global(_) | Binding::Undefined | Binding::Common { .. } => 1,
    }
}

// how many entries a line takes
fn line_size(neutral: &Neutral, line: Line) -> u32
    requires { IsSome (line_in neutral.now line) }
    ensures { (is : coff_lines.Line) → line_in neutral.now line ≡ Some is → result ≡ coff_lines.line_size is }
{
    match line {
        Line::Section(_) => 2,
        Line::Local(_) | Line::Default(_) => 1,
        Line::Outer(k) => outer_size(neutral.symbol(k).binding),
    }
}

// sets one of the numbers
fn set(numbers: &mut Vec<u32>, at: u32, number: u32)
    requires { at < length numbers.old.items }
    ensures set { IsSetWhere (nat_eq at) number 0 numbers.old.items numbers.new.items }
    ensures counted { length numbers.new.items ≡ length numbers.old.items }
{
    numbers[at as usize] = number;
}

impl Numbers {
    // numbers of nothing yet
    fn new(alloc: Global, neutral: &Neutral) -> Result<Numbers, NoMemory>
        ensures sized { IfOk result (λ numbers. AreSized neutral.now numbers) }
        ensures zero { IfOk result IsBlank }
    {
        let symbols = neutral.symbol_count() as usize;
        Ok(Numbers {
            sections: vec![in alloc; 0; neutral.section_count() as usize]?,
            defaults: vec![in alloc; 0; symbols]?,
            outers: vec![in alloc; 0; symbols]?,
            count: 0,
        })
    }

    // gives the next number to a line
    fn give(&mut self, line: Line)
        requires { CanGive self.old line }
        ensures sized { (n : Object) → AreSized n self.old → AreSized n self.new }
        ensures count { self.new.count ≡ self.old.count }
        ensures sections { IsGiven coff_lines.is_section_line line self.old.count self.old.sections.items self.new.sections.items }
        ensures defaults { IsGiven coff_lines.is_default_line line self.old.count self.old.defaults.items self.new.defaults.items }
        ensures outers { IsGiven coff_lines.is_outer_line line self.old.count self.old.outers.items self.new.outers.items }
    {
        match line {
            Line::Section(k) => set(&mut self.sections, k, self.count),
            Line::Local(_) => {}
            Line::Default(k) => set(&mut self.defaults, k, self.count),
            Line::Outer(k) => set(&mut self.outers, k, self.count),
        }
    }

    /// The numbers of these lines. `NoMemory` where memory ran out. Linear in the lines.
    pub(crate) fn of(alloc: Global, neutral: &Neutral, lines: &[Line]) -> Result<Numbers, NoMemory>
        requires coff { container_of neutral.now.format ≡ IsCoff }
        requires fitted { IsFitted neutral.now.format neutral.now }
        requires lines { AreLines (form_for neutral.now.format) neutral.now lines.now }
        ensures { IfOk result (λ numbers. IsNumbered (form_for neutral.now.format) neutral.now numbers) }
    {
        let mut numbers = Numbers::new(alloc, neutral)?;
        for line in lines {
            numbers.give(*line);
            numbers.count += line_size(neutral, *line);
        }
        Ok(numbers)
    }

    /// How many entries there are. Constant time.
    pub(crate) fn count(&self) -> u32
        ensures { result ≡ self.now.count }
    {
        self.count
    }

    /// The number of a target's symbol. Constant time.
    pub(crate) fn of_target(&self, target: Target) -> u32
        requires { HasNumber self.now target }
        ensures { (w : CoffForm) (n : Object) → IsNumbered w n self.now → result ≡ target_number (numbered_lines w n) target }
    {
        match target {
            Target::Section(k) => self.sections[k as usize],
            Target::Symbol(k) => self.outers[k as usize],
        }
    }

    /// The number of the symbol that stands for the fallback of the Weak at a position. Constant time.
    pub(crate) fn of_fallback(&self, symbol: u32, fallback: Fallback) -> u32
        requires { HasTag self.now symbol fallback }
        ensures { (w : CoffForm) (n : Object) → IsNumbered w n self.now → result ≡ tag_of (numbered_lines w n) symbol fallback }
    {
        match fallback {
            Fallback::Place { .. } | Fallback::Zero => self.defaults[symbol as usize],
            Fallback::Name(k) => self.outers[k as usize],
        }
    }
}
