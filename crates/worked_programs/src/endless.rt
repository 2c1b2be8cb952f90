//! An object, and a placement that has no end: each read of it fills the buffer.
ghost use Rattle.std.specs.Prelude.{◌≤◌, length, None};

use oc_outside::{Failed, Files};

/// The files of one object, under its name, and without an end under every other name.
#[derive(Drop)]
pub struct Endless<'a> {
    pub name: &'a str,
    pub object: &'a [u8],
}

impl Files for Endless<'_> {
    ghost held = { λ _. None };

    ghost read_faults = { λ _. 0 };

    ghost write_faults = { λ _. 0 };

    fn read_at(&mut self, name: &str, at: u64, to: &mut [u8]) -> Result<usize, Failed> {
        if name == self.name {
            return Ok(copy_from(self.object, at, to));
        }
        Ok(to.len())
    }

    fn create(&mut self, _name: &str) -> Result<(), Failed> {
        Ok(())
    }

    fn append(&mut self, _name: &str, piece: &[u8]) -> Result<usize, Failed> {
        Ok(piece.len())
    }
}

// copies the bytes of a file from `at` on, as many as there is place for, and gives their number
fn copy_from(file: &[u8], at: u64, to: &mut [u8]) -> usize
    ensures { result ≤ length to.new }
{
    let start = file.len().min(at as usize);
    let rest = &file[start..];
    let count = to.len().min(rest.len());
    let piece = &rest[..count];
    let front = &mut to[..count];
    front.copy_from_slice(piece);
    count
}
