//! Numbers at places that exist. All are little endian.
ghost use Rattle.std.specs.Prelude.{◌≡◌, ◌+◌, ◌≤◌, length};
ghost use Rattle.oc_base.specs.Numbers.{number_at};

use byteorder::{ByteOrder, LittleEndian};

/// The byte at `at`, an offset in bytes. Constant time.
#[tactic(auto, unfolding(crate::specs::Numbers::number_at))]
pub fn u8_in(bytes: &[u8], at: usize) -> u8
    requires { at + 1 ≤ length bytes.now }
    ensures { result ≡ number_at bytes.now at 1 }
{
    bytes[at]
}

/// The number of the two bytes from `at`, an offset in bytes. Constant time.
#[tactic(auto, unfolding(crate::specs::Numbers::number_at))]
pub fn u16_in(bytes: &[u8], at: usize) -> u16
    requires { at + 2 ≤ length bytes.now }
    ensures { result ≡ number_at bytes.now at 2 }
{
    LittleEndian::read_u16(&bytes[at..])
}

/// The number of the four bytes from `at`, an offset in bytes. Constant time.
#[tactic(auto, unfolding(crate::specs::Numbers::number_at))]
pub fn u32_in(bytes: &[u8], at: usize) -> u32
    requires { at + 4 ≤ length bytes.now }
    ensures { result ≡ number_at bytes.now at 4 }
{
    LittleEndian::read_u32(&bytes[at..])
}

/// The number of the eight bytes from `at`, an offset in bytes. Constant time.
#[tactic(auto, unfolding(crate::specs::Numbers::number_at))]
pub fn u64_in(bytes: &[u8], at: usize) -> u64
    requires { at + 8 ≤ length bytes.now }
    ensures { result ≡ number_at bytes.now at 8 }
{
    LittleEndian::read_u64(&bytes[at..])
}
