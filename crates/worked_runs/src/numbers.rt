//! Numbers as little-endian bytes.
use oc_base::NoMemory;

/// Appends two bytes.
pub fn half(bytes: &mut Vec<u8>, number: u16) -> Result<(), NoMemory> {
    bytes.extend_from_slice(number.to_le_bytes().as_slice())?;
    Ok(())
}

/// Appends four bytes.
pub fn word(bytes: &mut Vec<u8>, number: u32) -> Result<(), NoMemory> {
    bytes.extend_from_slice(number.to_le_bytes().as_slice())?;
    Ok(())
}
