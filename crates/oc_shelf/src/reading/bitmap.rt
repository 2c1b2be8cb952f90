//! Which bytes of a section are taken: a bit for each.
ghost use Rattle.std.specs.Prelude.{◌≡◌, ℕ, ◌*◌, ◌<◌, ◌≤◌, ◌||◌, ◌&&◌, IfOk, false, length, nat_eq, nat_le, nat_lt, true};
ghost use Rattle.oc_shelf.specs.Reading.Bitmaps as bitmaps;
ghost use Rattle.oc_shelf.specs.Reading.Bitmaps.{IsMetIn};

use oc_base::NoMemory;
use std::alloc::Global;
use std::marker::Model;

/// How many bytes a word covers.
const WORD: u64 = 64;

/// The bytes of a section that fields take, in any order. Contracts see the words, each of which
/// covers 64 bytes.
#[derive(Drop)]
pub struct Bitmap {
    words: Vec<u64>,
    // no byte from here on is taken
    top: u64,
}

impl Model for Bitmap {
    ghost use Rattle.std.specs.Prelude.{ℕ, List};
    ghost use Rattle.oc_shelf.specs.Reading.Bitmaps.{EndBy};

    ghost Value = { List ℕ };

    ghost view = { λ b. b.words.items };

    ghost invariant = { λ b. EndBy b.top b.words.items };
}

// whether a byte is taken
fn has(words: &[u64], at: u64) -> bool
    ensures { result ≡ bitmaps.has words.now at }
{
    match words.get((at / WORD) as usize) {
        Some(word) => word >> (at % WORD) & 1 == 1,
        None => false,
    }
}

// takes a byte
fn put(words: &mut [u64], at: u64)
    requires { at < bitmaps.room words.old }
    ensures room { length words.new ≡ length words.old }
    ensures taken { (q : ℕ) → bitmaps.has words.new q ≡ (nat_eq q at || bitmaps.has words.old q) }
{
    words[(at / WORD) as usize] |= 1 << (at % WORD);
}

// whether one of the bytes between two places is taken
fn any_taken(words: &[u64], begin: u64, end: u64) -> bool
    ensures met { result ≡ true → IsMetIn words.now begin end }
    ensures free { result ≡ false → IsMetIn words.now begin end → ⊥ }
{
    for at in begin..end {
        if has(words, at) {
            return true;
        }
    }
    false
}

// takes the bytes between two places
fn put_all(words: &mut [u64], begin: u64, end: u64)
    requires { end ≤ bitmaps.room words.old }
    ensures room { length words.new ≡ length words.old }
    ensures taken { (q : ℕ) → bitmaps.has words.new q ≡ (bitmaps.is_between begin end q || bitmaps.has words.old q) }
{
    for at in begin..end {
        put(words, at);
    }
}

impl Bitmap {
    /// No byte is taken, of this many. `NoMemory` where memory ran out; it takes a bit for each byte.
    /// Linear in them.
    pub fn new(alloc: Global, bytes: u64) -> Result<Bitmap, NoMemory>
        ensures room { IfOk result (λ map. bytes ≤ bitmaps.room map) }
        ensures none { IfOk result (λ map. (q : ℕ) → bitmaps.has map q ≡ false) }
    {
        Ok(Bitmap {
            words: vec![in alloc; 0; bytes.div_ceil(WORD) as usize]?,
            top: 0,
        })
    }

    /// Whether one of the bytes between two places is taken. Constant time past all that are taken,
    /// else linear in the bytes that are asked for.
    pub fn is_met(&self, begin: u64, end: u64) -> bool
        ensures met { result ≡ true → IsMetIn self.now begin end }
        ensures free { result ≡ false → IsMetIn self.now begin end → ⊥ }
    {
        begin < self.top && any_taken(&self.words, begin, end)
    }

    /// Takes the bytes between two places. Linear in them, no memory.
    pub fn take(&mut self, begin: u64, end: u64)
        requires { end ≤ bitmaps.room self.old }
        ensures room { length self.new ≡ length self.old }
        ensures taken { (q : ℕ) → bitmaps.has self.new q ≡ (bitmaps.is_between begin end q || bitmaps.has self.old q) }
    {
        put_all(&mut self.words, begin, end);
        self.top = self.top.max(end);
    }
}
