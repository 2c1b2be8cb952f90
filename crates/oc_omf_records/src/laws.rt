//! What holds of all blocks that are read.
ghost use Rattle.oc_omf_records.specs.Copies.{CopiesAreCopies, SizesAreLengths};
ghost use Rattle.oc_omf_records.specs.Encoding.{ReadingIsWritten, WrittenIsRead};

/// What is read from bytes is written as those bytes by the standard, with at most 32 levels.
pub fn reading_is_written()
    ensures { ReadingIsWritten }
{}

/// What is written by the standard, with at most 32 levels, is read as it is.
pub fn written_is_read()
    ensures { WrittenIsRead }
{}

/// At each place that `Block::copies` gives lie the four bytes that it was asked for, and no two of
/// the copies meet.
pub fn copies_are_copies()
    ensures { CopiesAreCopies }
{}

/// The number of bytes that are expanded is the size.
pub fn sizes_are_lengths()
    ensures { SizesAreLengths }
{}
