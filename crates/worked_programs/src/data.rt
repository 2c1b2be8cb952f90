//! The files that lie where the program runs.
use anyhow::{Result, anyhow};
use oc_outside::{LIMIT, RealFiles, read_file};

/// The bytes of the file `name`; none for an empty name.
pub fn stored(rt: &HostRuntime, name: &str) -> Result<Vec<u8>> {
    if name.is_empty() {
        return Ok(Vec::new(rt.alloc()));
    }
    let mut files = RealFiles::new(rt.alloc(), rt);
    match read_file(rt.alloc(), &mut files, name, LIMIT) {
        Ok(bytes) => Ok(bytes),
        Err(fault) => Err(anyhow!("{name}: {fault}")),
    }
}
