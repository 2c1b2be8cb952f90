//! Limits of our profile that more than one crate asks after.

/// The most bytes that an input has.
pub const MOST_INPUT: u64 = 67_108_864;

/// The most bytes that the sections of an object have together, without those of kind Zero.
pub const MOST_CONTENTS: u64 = 67_108_864;
