//! What a fixup does to one of its fields.
ghost use Rattle.std.specs.Prelude.{◌≡◌, ℕ, pos, ◌+ℤ◌, ◌-ℤ◌};
ghost use Rattle.oc_base.specs.declared.format.Word.TheVariants.{W32};
ghost use Rattle.oc_algebra.specs.Residues.{reduced_number};
ghost use Rattle.oc_neutral.specs.Omf.Relocs.{fixup_row};
ghost use Rattle.oc_neutral.specs.Rows as rows;
ghost use Rattle.oc_shows.specs.RowValues.{row_reloc};
ghost use Rattle.oc_omf_read.specs.Fixing as fixing;

use oc_algebra::from_field;
use oc_base::Word;
use oc_neutral::{Base, Check, Form, Hint, Less, Reloc, Target, Width};

/// From which address a fixup counts (TIS OMF 1.1, "FIXUPP").
#[derive(Clone, Copy, Debug, PartialEq, Eq)]
pub enum FixupFrame {
    /// From 0: it is segment-relative, and its frame is the group FLAT.
    Flat,
    /// From the home of its target: it is segment-relative, and its frame is that of the target.
    Home,
    /// From the end of the field: it is self-relative.
    Own,
}

/// What a fixup does to each of its fields.
#[derive(Clone, Copy, Debug, PartialEq, Eq)]
pub struct Fix {
    /// From where it counts.
    pub framed: FixupFrame,
    /// What it is against.
    pub target: Target,
    /// What is added beside the number in the field.
    pub displacement: u32,
}

// what a fixup takes from the address of its target
fn less_of(framed: FixupFrame) -> Less
    ensures { (s : ℕ) → result ≡ rows.less_of (fixup_row (fixing.framed_as framed)).taken s }
{
    match framed {
        FixupFrame::Flat => Less::Zero,
        FixupFrame::Home => Less::Home,
        FixupFrame::Own => Less::Place,
    }
}

// from how many bytes after the field's place it counts
fn behind(framed: FixupFrame) -> u32
    ensures { result ≡ (fixup_row (fixing.framed_as framed)).behind }
{
    match framed {
        FixupFrame::Flat | FixupFrame::Home => 0,
        FixupFrame::Own => 4,
    }
}

// what the addend has beyond the field
fn shift_by(displacement: u32, behind: u32) -> i64
    ensures { result ≡ pos displacement -ℤ pos behind }
{
    i64::from(displacement) - i64::from(behind)
}

// the addend, where the field holds that number
fn addend_of(fix: &Fix, field: u32) -> i64
    ensures { result ≡ reduced_number W32 (fixing.added_by fix.now field +ℤ rows.shift_of (fixup_row (fixing.framed_as fix.now.framed))) }
{
    let shift = shift_by(fix.displacement, behind(fix.framed));
    from_field(Word::W32, Width::Four, shift, field.into())
}

/// The relocation of a fixup for a field that holds that number. Constant time.
pub fn reloc_of(fix: &Fix, field: u32) -> Reloc
    ensures { (s : ℕ) → result ≡ row_reloc W32 (fixup_row (fixing.framed_as fix.now.framed)) s (fixing.added_by fix.now field) fix.now.target }
{
    Reloc {
        target: fix.target,
        form: Form {
            base: Base::Address,
            less: less_of(fix.framed),
            width: Width::Four,
            check: Check::Wrap,
        },
        addend: addend_of(fix, field),
        hint: Hint::Plain,
    }
}
