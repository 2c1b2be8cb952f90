//! What holds of fields and addends together.
ghost use Rattle.std.specs.Prelude.{ℕ, ℤ};
ghost use Rattle.oc_base.specs.declared.format.Word.{Word};
ghost use Rattle.oc_linking.specs.declared.terms.Width.{Width};
ghost use Rattle.oc_algebra.specs.Promises.{Written, ReadAgain, SignedAgrees};

/// Fields and addends fit together, for all words, widths, shifts and numbers. The field that
/// `to_field` writes for an addend holds the reduced addend, and an addend is refused only where
/// no field holds it. A field no wider than the word is written again as `from_field` read it.
/// It does nothing.
pub fn fields_are_exact()
    ensures written { (w : Word) (k : Width) (shift a : ℤ) → Written w k shift a }
    ensures read { (w : Word) (k : Width) (shift : ℤ) (f : ℕ) → ReadAgain w k shift f }
    ensures signed { (w : Word) (k : Width) (n : ℤ) → SignedAgrees w k n }
{}
