//! Windows of an entry: its type, its length, its contents and its checksum (TIS OMF 1.1, "Record
//! Format").
ghost use Rattle.std.specs.Prelude.{◌≡◌, ℕ, ◌+◌, ◌-◌, ◌%◌, ◌^◌, ◌<◌, ◌≤◌, ◌∷◌, ◌++◌, length, sum};
ghost use Rattle.oc_base.specs.Numbers.{bytes_of_number};
ghost use Rattle.oc_outside.specs.Windows.{IsFilled};
ghost use Rattle.oc_shelf.specs.Writing.Parts.{IsFilledOn};
ghost use Rattle.oc_omf.specs.Bytes.{checksum, entry_bytes};
ghost use Rattle.oc_omf.specs.declared.contents.TheConstants.{ROOM};

use oc_omf::Contents;
use oc_shelf::copy_window;

/// How many bytes of an entry come before its contents.
const HEAD: usize = 3;

/// How many bytes an entry has beside its contents: those before them, and the checksum.
const BESIDE: usize = HEAD + 1;

// the type of an entry, and the length of these contents and the checksum
#[tactic(auto, unfolding(oc_base::specs::Numbers::bytes_of_number))]
fn head_of(record_type: u8, contents: &[u8]) -> [u8; HEAD]
    requires { length contents.now + 1 < 2 ^ 16 }
    ensures { result ≡ record_type ∷ bytes_of_number 2 (length contents.now + 1) }
{
    let [low, high] = ((contents.len() + 1) as u16).to_le_bytes();
    [record_type, low, high]
}

// the sum of bytes modulo 256, after others that have this sum
fn sum_behind(start: u8, bytes: &[u8]) -> u8
    ensures { result ≡ (start + sum bytes.now) % 256 }
{
    let mut sum = start;
    for byte in bytes {
        sum = sum.wrapping_add(*byte);
    }
    sum
}

// the checksum of a head and contents
fn checksum_of(head: &[u8], contents: &[u8]) -> u8
    ensures { result ≡ checksum (head.now ++ contents.now) }
{
    0u8.wrapping_sub(sum_behind(sum_behind(0, head), contents))
}

// fills what is left of a buffer from bytes that begin at `begin` of an entry
fn fill(bytes: &[u8], begin: usize, from: u64, done: usize, out: &mut [u8]) -> usize
    requires room { done ≤ length out.old }
    requires filled { done ≤ begin - from }
    ensures { IsFilledOn (λ xs. length xs ≡ begin) (λ _. bytes.now) from (done, out.old) (result, out.new) }
{
    let at = (from + done as u64).saturating_sub(begin as u64);
    done + copy_window(bytes, at, &mut out[done..])
}

/// How many bytes the entry of these contents has. Constant time.
pub(crate) fn entry_size(contents: &Contents) -> u64
    ensures long { (type : ℕ) → result ≡ length (entry_bytes type contents.now) }
    ensures few { result ≤ ROOM + 4 }
{
    (contents.as_slice().len() + BESIDE) as u64
}

/// A window of the entry of a type with these contents, as `copy_window` gives it. Linear in the
/// contents.
pub(crate) fn entry_window(record_type: u8, contents: &Contents, from: u64, out: &mut [u8]) -> usize
    ensures { IsFilled (entry_bytes record_type contents.now) from out.old out.new result }
{
    let contents = contents.as_slice();
    let head = head_of(record_type, contents);
    let checksum = checksum_of(&head, contents);
    let mut done = copy_window(&head, from, out);
    done = fill(contents, HEAD, from, done, out);
    fill(&[checksum], HEAD + contents.len(), from, done, out)
}
