//! The words of a conversion to each format, and of a listing.

pub const TO_ELF32: &[&str] = &["-felf32", "a", "b"];

pub const TO_COFF32: &[&str] = &["-fcoff32", "a", "b"];

pub const TO_MAC32: &[&str] = &["-fmac32", "a", "b"];

pub const TO_OMF: &[&str] = &["-fomf", "a", "b"];

pub const TO_ELF64: &[&str] = &["-felf64", "a", "b"];

pub const TO_COFF64: &[&str] = &["-fcoff64", "a", "b"];

pub const TO_MAC64: &[&str] = &["-fmac64", "a", "b"];

pub const TO_BIGELF32: &[&str] = &["-fbigelf32", "a", "b"];

pub const TO_BIGELF64: &[&str] = &["-fbigelf64", "a", "b"];

pub const TO_BIGCOFF32: &[&str] = &["-fbigcoff32", "a", "b"];

pub const TO_BIGCOFF64: &[&str] = &["-fbigcoff64", "a", "b"];

pub const LISTED: &[&str] = &["-ds", "a"];
