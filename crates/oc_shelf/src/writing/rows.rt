//! Windows of a table of entries of one size.
ghost use Rattle.std.specs.Prelude.{◌≡◌, ℕ, ◌+◌, ◌*◌, ◌-◌, ◌^◌, ◌<◌, ◌≤◌, List, length};
ghost use Rattle.oc_shelf.specs.Writing.Parts.{table_of, row_of, HaveSize, IsFilledOn};
ghost use Rattle.oc_outside.specs.Windows.{IsFilled};

use crate::writing::windows::copy_window;

/// The most bytes that an entry of a table has.
pub const ROW: usize = 64;

/// A table of entries of one size, each made when it is asked for. No call takes memory.
pub trait WritesRows {
    /// The entries.
    ghost rows: { Self → List (List ℕ) };

    /// How many there are.
    fn count(&self) -> usize
        ensures { result ≡ length (rows self.now) };

    /// How many bytes each has, from 1 to `ROW`.
    fn size(&self) -> usize
        ensures some { 1 ≤ result }
        ensures small { result ≤ ROW }
        ensures same { HaveSize result (rows self.now) };

    /// Fills `out`, which has the size of an entry, with entry `k`.
    fn put_row(&self, k: usize, out: &mut [u8])
        requires there { k < length (rows self.now) }
        requires sized { length out.old ≡ length (row_of (rows self.now) k) }
        ensures { out.new ≡ row_of (rows self.now) k };
}

// fills what is left of a buffer from entry `k`, an entry of `size` bytes
fn fill_row<T: WritesRows>(
    table: &T,
    size: usize,
    k: usize,
    from: u64,
    done: usize,
    out: &mut [u8],
) -> usize
    requires there { k < length (T.rows table.now) }
    requires sized { length (row_of (T.rows table.now) k) ≡ size }
    requires small { size ≤ ROW }
    requires near { size * k < 2 ^ 64 }
    requires room { done ≤ length out.old }
    requires filled { done ≤ size * k - from }
    ensures { IsFilledOn (λ xs. length xs ≡ size * k) (λ _. row_of (T.rows table.now) k) from (done, out.old) (result, out.new) }
{
    let begin = size as u64 * k as u64;
    let at = (from + done as u64).saturating_sub(begin);
    let mut buffer = [0; ROW];
    let row = &mut buffer[..size];
    table.put_row(k, row);
    done + copy_window(row, at, &mut out[done..])
}

/// A window of a table, as `copy_window` gives it. The time is that of the entries that meet
/// the window.
pub fn rows_window<T: WritesRows>(table: &T, from: u64, out: &mut [u8]) -> usize
    requires { length (table_of (T.rows table.now)) < 2 ^ 64 }
    ensures { IsFilled (table_of (T.rows table.now)) from out.old out.new result }
{
    let size = table.size();
    let count = table.count();
    let first = from / size as u64;
    if first >= count as u64 {
        return 0;
    }
    let mut done = 0;
    for k in first as usize..count {
        if done == out.len() {
            return done;
        }
        done = fill_row(table, size, k, from, done, out);
    }
    done
}
