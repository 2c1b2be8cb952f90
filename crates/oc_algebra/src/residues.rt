//! Residues of signed numbers, and their signed representatives.
ghost use Rattle.std.specs.Prelude.{◌≡◌, ◌<◌};
ghost use Rattle.oc_linking.specs.Numbers.{modulus};
ghost use Rattle.oc_algebra.specs.Residues.{residue_of, signed_of, reduced_number};
ghost use Rattle.oc_algebra.specs.Promises.{Represents};

use oc_base::Word;

/// The number from 0 to 2^32 - 1, or to 2^64 - 1, that differs from `n` by a multiple of 2^32 or
/// 2^64. Constant time.
#[tactic(auto, unfolding(crate::specs::Residues::residue_of))]
pub fn residue(word: Word, n: i128) -> u64
    ensures { result ≡ residue_of word n }
{
    match word {
        Word::W32 => n.rem_euclid(1 << 32) as u64,
        Word::W64 => n.rem_euclid(1 << 64) as u64,
    }
}

/// The number from -2^31 to 2^31 - 1, or from -2^63 to 2^63 - 1, of this residue. Constant time.
fn signed(word: Word, residue: u64) -> i64
    requires { residue < modulus word }
    ensures { result ≡ signed_of word residue }
{
    match word {
        Word::W32 => i64::from((residue as u32).cast_signed()),
        Word::W64 => residue.cast_signed(),
    }
}

/// The representative of `n` modulo 2^32 or 2^64: the number from -2^31 to 2^31 - 1, or from -2^63
/// to 2^63 - 1, that differs from `n` by a multiple of the modulus. Constant time.
#[tactic(auto, using(crate::proofs::Laws::residue_small), unfolding(crate::specs::Residues::reduced_number))]
pub fn reduce(word: Word, n: i128) -> i64
    ensures number { result ≡ reduced_number word n }
    ensures representative { Represents word n result }
{
    signed(word, residue(word, n))
}
