//! The forms of COFF: two words, and objects of few and of many sections.
ghost use Rattle.std.specs.Prelude.{◌≡◌};
ghost use Rattle.oc_coff.specs.Forms as forms;

use crate::file_header::{BIG_HEADER_SIZE, FILE_HEADER_SIZE};
use crate::symbol::{BIG_SYMBOL_SIZE, SYMBOL_SIZE};
use oc_base::{Format, Word};

/// How wide the structures of a file count.
#[derive(Clone, Copy, Debug, PartialEq, Eq)]
pub enum Shape {
    /// Section numbers of 16 bits (PE/COFF, "COFF File Header").
    Usual,
    /// Section numbers of 32 bits, in what compilers write by `/bigobj` (winnt.h,
    /// "ANON_OBJECT_HEADER_BIGOBJ").
    Big,
}

/// A form of COFF.
#[derive(Clone, Copy, Debug, PartialEq, Eq)]
pub enum CoffForm {
    /// Few sections, for i386.
    Usual32,
    /// Few sections, for x64.
    Usual64,
    /// Many sections, for i386.
    Big32,
    /// Many sections, for x64.
    Big64,
}

/// The word of a form. Constant time.
pub fn word_of(form: CoffForm) -> Word
    ensures { result ≡ forms.word_of form }
{
    match form {
        CoffForm::Usual32 | CoffForm::Big32 => Word::W32,
        CoffForm::Usual64 | CoffForm::Big64 => Word::W64,
    }
}

/// The shape of a form. Constant time.
pub fn shape_of(form: CoffForm) -> Shape
    ensures { result ≡ forms.shape_of form }
{
    match form {
        CoffForm::Usual32 | CoffForm::Usual64 => Shape::Usual,
        CoffForm::Big32 | CoffForm::Big64 => Shape::Big,
    }
}

/// The format of a form. Constant time.
pub fn format_of(form: CoffForm) -> Format
    ensures { result ≡ forms.format_of form }
{
    match form {
        CoffForm::Usual32 => Format::Coff32,
        CoffForm::Usual64 => Format::Coff64,
        CoffForm::Big32 => Format::BigCoff32,
        CoffForm::Big64 => Format::BigCoff64,
    }
}

/// The size of the file header, in bytes. Constant time.
pub fn header_size(shape: Shape) -> usize
    ensures { result ≡ forms.header_size shape }
{
    match shape {
        Shape::Usual => FILE_HEADER_SIZE,
        Shape::Big => BIG_HEADER_SIZE,
    }
}

/// The size of an entry of the symbol table, in bytes. Constant time.
pub fn symbol_size(shape: Shape) -> usize
    ensures { result ≡ forms.symbol_size shape }
{
    match shape {
        Shape::Usual => SYMBOL_SIZE,
        Shape::Big => BIG_SYMBOL_SIZE,
    }
}
