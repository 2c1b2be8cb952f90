//! The readers of objects of many sections.
ghost use Rattle.oc_base.specs.declared.format.Word.TheVariants.{W32, W64};
ghost use Rattle.oc_coff.specs.declared.form.CoffForm.TheVariants.{Big32, Big64};
ghost use Rattle.oc_coff.specs.declared.form.Shape.TheVariants.{Big};
ghost use Rattle.oc_coff.specs.Rules.{coff_dialect};
ghost use Rattle.oc_coff_read.specs.Shown.{coff_is_dialect};

use oc_base::Stop;
use oc_coff::CoffForm;
use oc_coff_read::read_object;
use oc_neutral::{Keep, Neutral};
use oc_shows::Reads;
use std::alloc::Global;

/// The reader of COFF objects of many sections of 32 bits, for i386. The time is that of `read_object`.
#[derive(Clone, Copy, Debug)]
pub struct BigCoffReader32;

impl Reads for BigCoffReader32 {
    ghost dialect = { coff_dialect Big32 };

    fn read(&self, alloc: Global, bytes: &[u8], keep: &Keep) -> Result<Neutral, Stop> {
        read_object(alloc, CoffForm::Big32, bytes, keep)
    }

    ghost law = { coff_is_dialect W32 Big };
}

/// The reader of COFF objects of many sections of 64 bits, for x64. The time is that of `read_object`.
#[derive(Clone, Copy, Debug)]
pub struct BigCoffReader64;

impl Reads for BigCoffReader64 {
    ghost dialect = { coff_dialect Big64 };

    fn read(&self, alloc: Global, bytes: &[u8], keep: &Keep) -> Result<Neutral, Stop> {
        read_object(alloc, CoffForm::Big64, bytes, keep)
    }

    ghost law = { coff_is_dialect W64 Big };
}
