//! OMF structures as bytes (TIS OMF 1.1, "Record Formats"), where offsets and lengths have four bytes.
ghost use Rattle.std.specs.Prelude.{◌≡◌, ◌+◌, ◌^◌, ◌<◌, ◌≤◌, ◌++◌, length};
ghost use Rattle.oc_omf.specs.Bytes as structures;
ghost use Rattle.oc_omf.specs.declared.contents.TheConstants.{ROOM};

use crate::constants::{NEAR, OFFSET_32};
use crate::contents::Contents;
use crate::structures::{Method, PublicBase, Segment};

/// Puts a segment. Constant time.
pub fn put_segment(out: &mut Contents, segment: &Segment)
    requires name { segment.now.name < 2 ^ 15 }
    requires class { segment.now.class < 2 ^ 15 }
    requires overlay { segment.now.overlay < 2 ^ 15 }
    requires room { length out.old + 11 ≤ ROOM }
    ensures { out.new ≡ out.old ++ structures.segment_bytes segment.now }
{
    out.put_u8(segment.attributes);
    out.put_u32(segment.length);
    out.put_index(segment.name);
    out.put_index(segment.class);
    out.put_index(segment.overlay);
}

/// Puts an external, without a type. Linear in its name.
pub fn put_external(out: &mut Contents, name: &[u8])
    requires short { length name.now < 256 }
    requires room { length out.old + 2 + length name.now ≤ ROOM }
    ensures { out.new ≡ out.old ++ structures.external_bytes name.now }
{
    out.put_name(name);
    out.put_u8(0);
}

/// Puts a near communal of a size, without a type. Linear in its name.
pub fn put_communal(out: &mut Contents, name: &[u8], size: u32)
    requires short { length name.now < 256 }
    requires room { length out.old + 8 + length name.now ≤ ROOM }
    ensures { out.new ≡ out.old ++ structures.communal_bytes name.now size }
{
    out.put_name(name);
    out.put_u8(0);
    out.put_u8(NEAR);
    out.put_length(size);
}

/// Puts one symbol at an offset of a segment, without a type. Linear in its name.
pub fn put_public(out: &mut Contents, base: PublicBase, name: &[u8], offset: u32)
    requires group { base.group < 2 ^ 15 }
    requires segment { base.segment < 2 ^ 15 }
    requires short { length name.now < 256 }
    requires room { length out.old + 10 + length name.now ≤ ROOM }
    ensures { out.new ≡ out.old ++ structures.public_bytes base name.now offset }
{
    out.put_index(base.group);
    out.put_index(base.segment);
    out.put_name(name);
    out.put_u32(offset);
    out.put_u8(0);
}

/// Puts bytes at an offset of a segment. Linear in them.
pub fn put_data(out: &mut Contents, segment: u16, offset: u32, bytes: &[u8])
    requires segment { segment < 2 ^ 15 }
    requires room { length out.old + 6 + length bytes.now ≤ ROOM }
    ensures { out.new ≡ out.old ++ structures.data_bytes segment offset bytes.now }
{
    out.put_index(segment);
    out.put_u32(offset);
    out.put(bytes);
}

// the first byte of a fixup
fn first_of(self_relative: bool, at: u32) -> u8
    requires { at < 2 ^ 10 }
    ensures { result ≡ structures.first_of self_relative at }
{
    let relative = if self_relative { 0 } else { 1 << 6 };
    (1 << 7) + relative + (OFFSET_32 << 2) + (at / 256) as u8
}

// the fix byte
fn fix_of(frame: Method, target: Method) -> u8
    requires frame { frame.number < 2 ^ 3 }
    requires target { target.number < 2 ^ 2 }
    ensures { result ≡ structures.fix_of frame target }
{
    (frame.number << 4) + (1 << 2) + target.number
}

// puts the index of a frame, which the methods 0, 1 and 2 have
fn put_frame(out: &mut Contents, frame: Method)
    requires index { frame.index < 2 ^ 15 }
    requires room { length out.old + 2 ≤ ROOM }
    ensures bytes { out.new ≡ out.old ++ structures.frame_bytes frame }
    ensures long { length out.new ≤ length out.old + 2 }
{
    if frame.number <= 2 {
        out.put_index(frame.index);
    }
}

/// Puts the fixup of a 32-bit offset at an offset of its data, without threads and without a
/// displacement. Constant time.
pub fn put_fixup(out: &mut Contents, self_relative: bool, at: u32, frame: Method, target: Method)
    requires near { at < 2 ^ 10 }
    requires frame { frame.number < 2 ^ 3 }
    requires target { target.number < 2 ^ 2 }
    requires frame_index { frame.index < 2 ^ 15 }
    requires target_index { target.index < 2 ^ 15 }
    requires room { length out.old + 7 ≤ ROOM }
    ensures { out.new ≡ out.old ++ structures.fixup_bytes self_relative at frame target }
{
    out.put_u8(first_of(self_relative, at));
    out.put_u8((at % 256) as u8);
    out.put_u8(fix_of(frame, target));
    put_frame(out, frame);
    out.put_index(target.index);
}
