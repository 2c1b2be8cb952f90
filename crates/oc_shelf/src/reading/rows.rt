//! Tables of entries of one size.
ghost use Rattle.std.specs.Prelude.{◌≡◌, ◌+◌, ◌*◌, ◌^◌, ◌<◌, ◌≤◌, ◌↔◌, IsTrue, length, slice_range};

/// A table of equal entries in a file.
#[derive(Clone, Copy, Debug, PartialEq, Eq)]
pub struct Rows {
    /// Where the first entry begins, in bytes from the start of the file.
    pub at: u64,
    /// How many bytes each entry has.
    pub size: u64,
    /// How many entries there are.
    pub count: u64,
}

impl Rows {
    /// Whether every entry lies in a file of so many bytes, whatever the numbers. Constant time.
    pub fn lies_in(self, len: u64) -> bool
        ensures { IsTrue result ↔ (self.at + self.size * self.count ≤ len) }
    {
        let bytes = match self.size.checked_mul(self.count) {
            Some(bytes) => bytes,
            None => return false,
        };
        match self.at.checked_add(bytes) {
            Some(end) => end <= len,
            None => false,
        }
    }

    /// Where entry `k` begins, in bytes from the start of the file. Constant time.
    pub fn place(self, k: u64) -> u64
        requires there { k < self.count }
        requires inside { self.at + self.size * self.count < 2 ^ 64 }
        ensures place { result ≡ self.at + self.size * k }
        ensures inside { result + self.size ≤ self.at + self.size * self.count }
    {
        self.at + self.size * k
    }

    /// The bytes of entry `k` of a table that lies in the file. Constant time.
    pub fn entry<'a>(self, file: &'a [u8], k: u64) -> &'a [u8]
        requires there { k < self.count }
        requires inside { self.at + self.size * self.count ≤ length file.now }
        ensures { result.now ≡ slice_range file.now (self.at + self.size * k) (self.at + self.size * k + self.size) }
    {
        let place = self.place(k) as usize;
        &file[place..place + self.size as usize]
    }
}
