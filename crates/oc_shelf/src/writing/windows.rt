//! Windows: any bytes of a file, put into the start of a buffer.
ghost use Rattle.std.specs.Prelude.{replicate};
ghost use Rattle.oc_outside.specs.Windows.{IsFilled};

/// A window of bytes that are held, from an offset of them on: those that both have are put into
/// the start of `out`, and counted. Linear in `out`.
pub fn copy_window(bytes: &[u8], from: u64, out: &mut [u8]) -> usize
    ensures { IsFilled bytes.now from out.old out.new result }
{
    if from >= bytes.len() as u64 {
        return 0;
    }
    let left = &bytes[from as usize..];
    let count = left.len().min(out.len());
    out[..count].copy_from_slice(&left[..count]);
    count
}

/// A window of `zeros` zeros, as `copy_window` gives it. Linear in `out`.
pub fn zero_window(zeros: u64, from: u64, out: &mut [u8]) -> usize
    ensures { IsFilled (replicate zeros 0) from out.old out.new result }
{
    let left = zeros.saturating_sub(from);
    let count = left.min(out.len() as u64) as usize;
    out[..count].fill(0);
    count
}
