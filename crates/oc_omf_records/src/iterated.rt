//! One block of iterated data, and its size.
ghost use Rattle.std.specs.Prelude.{◌≡◌, min, ◌^◌, ◌*◌, true};
ghost use Rattle.oc_omf_records.specs.Blocks.{size_of};
ghost use Rattle.oc_omf_records.specs.Rows.{row_of, rows_of, is_sized, are_sized};

/// Where sizes stop: a larger one counts as this.
pub const MOST_BYTES: u64 = 1 << 32;

/// A block of iterated data (TIS OMF 1.1, "LIDATA: Logical Iterated Data Record").
#[derive(Debug, Drop)]
pub enum Iterated {
    /// Content, `count` times. Its bytes lie at `place` of the encoded blocks, an offset in bytes.
    Content {
        count: u32,
        place: u64,
        bytes: Vec<u8>,
    },
    /// Blocks in a row, the row `count` times. A copy of it stands for `size` bytes, or for more where
    /// that is 2^32.
    Nested {
        count: u32,
        size: u64,
        blocks: Vec<Iterated>,
    },
}

impl Iterated {
    /// How many bytes the block stands for, or 2^32 where there are more. Constant time.
    pub fn size(&self) -> u64
        requires { is_sized self.now ≡ true }
        ensures { result ≡ min (size_of (row_of self.now)) (2 ^ 32) }
    {
        match self {
            Iterated::Content { count, bytes, .. } => product(*count, bytes.len() as u64),
            Iterated::Nested { count, size, .. } => product(*count, *size),
        }
    }
}

/// How many bytes the blocks stand for, or 2^32 where there are more. Linear in their number, whatever is
/// in them.
pub fn total_size(blocks: &[Iterated]) -> u64
    requires { are_sized blocks.now ≡ true }
    ensures { result ≡ min (size_of (rows_of blocks.now)) (2 ^ 32) }
{
    let mut total = 0u64;
    for block in blocks {
        total = (total + block.size()).min(MOST_BYTES);
    }
    total
}

/// The product, or 2^32 where it is larger.
pub fn product(count: u32, size: u64) -> u64
    ensures { result ≡ min (count * size) (2 ^ 32) }
{
    u64::from(count).saturating_mul(size).min(MOST_BYTES)
}
