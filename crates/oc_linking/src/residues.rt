//! Residues of a word: all addresses, addends and values are taken modulo 2^W (our profile).
ghost use Rattle.std.specs.Prelude.{◌≡◌};
ghost use Rattle.oc_linking.specs.Numbers as numbers;

use oc_base::Word;

/// 2^W, where addresses have W bits. Constant time, no memory.
pub fn modulus(word: Word) -> u128
    ensures { result ≡ numbers.modulus word }
{
    match word {
        Word::W32 => 1 << 32,
        Word::W64 => 1 << 64,
    }
}

/// A number modulo 2^W. Constant time, no memory.
pub fn reduced(word: Word, n: u64) -> u64
    ensures { result ≡ numbers.reduced word n }
{
    (u128::from(n) % modulus(word)) as u64
}

/// `a` less `b`, modulo 2^W. Constant time, no memory.
pub fn minus(word: Word, a: u64, b: u64) -> u64
    ensures { result ≡ numbers.minus word a b }
{
    let modulus = modulus(word);
    ((u128::from(a) + (modulus - u128::from(b) % modulus)) % modulus) as u64
}
