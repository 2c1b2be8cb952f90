//! Windows of bytes that lie one after another.
ghost use Rattle.std.specs.Prelude.{◌≡◌, ◌+◌, ◌++◌, ◌^◌, ◌<◌, length, replicate};
ghost use Rattle.oc_outside.specs.Windows.{IsFilled};

use oc_shelf::{copy_window, zero_window};

/// A window of two runs of bytes, one after the other, as `copy_window` gives it. Linear in `out`.
pub(crate) fn pair_window(first: &[u8], second: &[u8], from: u64, out: &mut [u8]) -> usize
    ensures { IsFilled (first.now ++ second.now) from out.old out.new result }
{
    let done = copy_window(first, from, out);
    let past = (from + done as u64).saturating_sub(first.len() as u64);
    done + copy_window(second, past, &mut out[done..])
}

/// A window of bytes and of so many zeros after them, as `copy_window` gives it. Linear in `out`.
pub(crate) fn filled_window(bytes: &[u8], zeros: u64, from: u64, out: &mut [u8]) -> usize
    ensures { IsFilled (bytes.now ++ replicate zeros 0) from out.old out.new result }
{
    let done = copy_window(bytes, from, out);
    let past = (from + done as u64).saturating_sub(bytes.len() as u64);
    done + zero_window(zeros, past, &mut out[done..])
}
