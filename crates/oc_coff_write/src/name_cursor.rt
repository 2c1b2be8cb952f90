//! Where the name of a line is looked for first in the string table. It is a guess: a wrong one costs
//! time alone.
ghost use Rattle.std.specs.Prelude.{◌≡◌, ◌+◌, ◌^◌, ◌<◌, ◌≤◌, IsSome, length};
ghost use Rattle.oc_coff_write.specs.Lines.{line_in};

use crate::lines::Line;
use oc_neutral::{Neutral, Section};
use oc_target::{is_long_name, is_tabled};

/// How many of the given names belong to lines that were passed.
#[derive(Clone, Copy)]
pub(crate) struct NameCursor {
    /// Of those of section headers.
    pub(crate) sections: usize,
    /// Of all, with those of all section headers.
    pub(crate) names: usize,
}

// how many of the sections have their name in the string table
fn tabled_count(sections: &[Section]) -> usize
    ensures { result ≤ length sections.now }
{
    let mut count = 0;
    for section in sections {
        count += usize::from(is_tabled(section.name.as_slice()));
    }
    count
}

// whether the name of a line is given after those of the section headers
fn is_given(neutral: &Neutral, line: Line) -> bool
    requires { IsSome (line_in neutral.now line) }
{
    match line {
        Line::Section(_) => false,
        Line::Local(k) | Line::Outer(k) => is_long_name(neutral.symbol(k).name.as_slice()),
        Line::Default(_) => true,
    }
}

impl NameCursor {
    /// Before the first line. Linear in the sections.
    pub(crate) fn none(sections: &[Section]) -> NameCursor
        ensures sections { result.sections ≡ 0 }
        ensures names { result.names ≤ length sections.now }
    {
        NameCursor {
            sections: 0,
            names: tabled_count(sections),
        }
    }

    /// The position among the given names of the name of the next line, if it is given.
    pub(crate) fn near(self, line: Line) -> usize {
        match line {
            Line::Section(_) => self.sections,
            Line::Local(_) | Line::Default(_) | Line::Outer(_) => self.names,
        }
    }

    /// After a line. Constant time.
    pub(crate) fn after(self, neutral: &Neutral, line: Line) -> NameCursor
        requires line { IsSome (line_in neutral.now line) }
        requires sections { self.sections < 2 ^ 63 }
        requires names { self.names + 1 < 2 ^ 64 }
        ensures sections { result.sections ≤ self.sections + 1 }
        ensures names { result.names ≤ self.names + 1 }
    {
        if let Line::Section(k) = line {
            let tabled = is_tabled(neutral.section(k).name.as_slice());
            return NameCursor {
                sections: self.sections + usize::from(tabled),
                ..self
            };
        }
        NameCursor {
            names: self.names + usize::from(is_given(neutral, line)),
            ..self
        }
    }
}
