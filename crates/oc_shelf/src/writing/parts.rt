//! Windows of a file that is made of parts.
ghost use Rattle.std.specs.Prelude.{◌≡◌, ℕ, ◌-◌, ◌<◌, ◌≤◌, List, [], length, replicate, slice_index_or};
ghost use Rattle.oc_outside.specs.Windows.{IsFilled};
ghost use Rattle.oc_shelf.specs.Writing.Parts.{IsFilledOn, IsPlaced, file_of, pieces_by};

use crate::writing::layout::Layout;
use crate::writing::windows::zero_window;

/// What a file is made of: it gives any window of each part. No call takes memory.
pub trait Parts {
    /// The bytes of each part, in their order.
    ghost parts: { Self → List (List ℕ) };

    /// What is known of them, so that each can be given.
    ghost sound: { Self → Type 0 };

    /// Puts the bytes of part `k` from `from` on, an offset in the part, into the start of `out`,
    /// as many as both have, and gives their number. The rest of `out` stays.
    fn part_window(&self, k: usize, from: u64, out: &mut [u8]) -> usize
        requires there { k < length (parts self.now) }
        requires sound { sound self.now }
        ensures { IsFilled (slice_index_or (parts self.now) k []) from out.old out.new result };
}

// how many parts begin at a place or before, where they begin in order
fn count_upto(places: &[u64], from: u64) -> usize
    ensures within { result ≤ length places.now }
    ensures before { 0 < result → slice_index_or places.now (result - 1) 0 ≤ from }
{
    let mut low = 0;
    let mut high = places.len();
    'halves: while low < high {
        let middle = low + (high - low) / 2;
        if places[middle] <= from {
            low = middle + 1;
        } else {
            high = middle;
        }
    }
    low
}

// fills a buffer that has room with the zeros before a part
fn fill_gap(place: u64, from: u64, done: usize, out: &mut [u8]) -> usize
    requires room { done < length out.old }
    requires filled { done ≤ place - from }
    ensures { IsFilledOn (λ xs. length xs ≤ place) (λ xs. replicate (place - length xs) 0) from (done, out.old) (result, out.new) }
{
    let zeros = place.saturating_sub(from + done as u64);
    done + zero_window(zeros, 0, &mut out[done..])
}

// fills what is left of a buffer from part `k`, which begins at that place
fn fill_part<P: Parts>(
    parts: &P,
    k: usize,
    place: u64,
    from: u64,
    done: usize,
    out: &mut [u8],
) -> usize
    requires there { k < length (P.parts parts.now) }
    requires sound { P.sound parts.now }
    requires room { done ≤ length out.old }
    requires filled { done ≤ place - from }
    ensures { IsFilledOn (λ xs. length xs ≡ place) (λ _. slice_index_or (P.parts parts.now) k []) from (done, out.old) (result, out.new) }
{
    let at = (from + done as u64).saturating_sub(place);
    done + parts.part_window(k, at, &mut out[done..])
}

/// A window of the file of parts that are laid so, as `copy_window` gives it. The time is the
/// logarithm of the number of parts, and that of the parts that meet the window.
pub fn window_of<P: Parts>(parts: &P, layout: &Layout, from: u64, out: &mut [u8]) -> usize
    requires sound { P.sound parts.now }
    requires placed { IsPlaced layout.now (P.parts parts.now) }
    ensures { IsFilled (file_of (pieces_by layout.now (P.parts parts.now))) from out.old out.new result }
{
    let first = count_upto(&layout.places, from).saturating_sub(1);
    let mut done = 0;
    for k in first..layout.places.len() {
        if done == out.len() {
            return done;
        }
        let place = layout.places[k];
        done = fill_gap(place, from, done, out);
        done = fill_part(parts, k, place, from, done, out);
    }
    done
}
