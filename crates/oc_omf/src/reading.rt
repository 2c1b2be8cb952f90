//! The structures in entries, read from the contents of their entry.
ghost use Rattle.std.specs.Prelude.{◌≡◌, ◌<◌, MatchResult, Ok, Err};
ghost use Rattle.oc_omf.specs.Structures as structures;

use crate::cursor::{Reading, read_index, read_long, read_name, read_u8};
use crate::structures::{DataHead, Datum, Fixup, Method, PublicBase, Segment, Subrecord, Thread};
use oc_base::View;

/// The segment in the contents of an entry, of the odd type where `wide`.
#[tactic(auto, unfolding(crate::specs::Structures::segment_read))]
pub fn read_segment(view: &View<'_>, wide: bool) -> Reading<Segment>
    ensures { result ≡ structures.segment_read wide view.now 0 }
{
    let (attributes, at) = read_u8(view, 0)?;
    let (length, at) = read_long(view, wide, at)?;
    let (name, at) = read_index(view, at)?;
    let (class, at) = read_index(view, at)?;
    let (overlay, at) = read_index(view, at)?;
    let segment = Segment {
        wide,
        attributes,
        length,
        name,
        class,
        overlay,
    };
    Ok((segment, at))
}

/// The member of a group at `at`: its mark and its segment index.
#[tactic(auto, unfolding(crate::specs::Structures::member_read))]
pub fn read_member(view: &View<'_>, at: u64) -> Reading<(u8, u16)>
    ensures { result ≡ structures.member_read view.now at }
{
    let (mark, at) = read_u8(view, at)?;
    let (segment, at) = read_index(view, at)?;
    Ok(((mark, segment), at))
}

/// Where the symbols of an entry lie.
#[tactic(auto, unfolding(crate::specs::Structures::base_read))]
pub fn read_base(view: &View<'_>) -> Reading<PublicBase>
    ensures { result ≡ structures.base_read view.now 0 }
{
    let (group, at) = read_index(view, 0)?;
    let (segment, at) = read_index(view, at)?;
    Ok((PublicBase { group, segment }, at))
}

/// Where the data in the contents of an entry lie, of the odd type where `wide`. Constant time.
#[tactic(auto, unfolding(crate::specs::Structures::head_read))]
pub fn read_head(view: &View<'_>, wide: bool) -> Reading<DataHead>
    ensures { result ≡ structures.head_read wide view.now 0 }
{
    let (segment, at) = read_index(view, 0)?;
    let (offset, at) = read_long(view, wide, at)?;
    Ok((DataHead { segment, offset }, at))
}

// a method with the index that follows for the methods 0, 1 and 2
#[tactic(auto, unfolding(crate::specs::Structures::method_read))]
fn read_method(view: &View<'_>, number: u8, at: u64) -> Reading<Method>
    ensures { result ≡ structures.method_read number view.now at }
{
    if number > 2 {
        return Ok((Method { number, index: 0 }, at));
    }
    let (index, at) = read_index(view, at)?;
    Ok((Method { number, index }, at))
}

// a thread by its first byte
#[tactic(auto, unfolding(crate::specs::Structures::thread_read))]
fn read_thread(view: &View<'_>, first: u8, at: u64) -> Reading<Subrecord>
    ensures { result ≡ structures.thread_read first view.now at }
{
    let frame = first / 0x40 % 2 == 1;
    let number = if frame { first / 4 % 8 } else { first / 4 % 4 };
    let (method, at) = read_method(view, number, at)?;
    let thread = Thread {
        frame,
        number: first % 4,
        method,
    };
    Ok((Subrecord::Thread(thread), at))
}

// the frame of a fixup by its fix byte
#[tactic(auto, unfolding(crate::specs::Structures::frame_read))]
fn read_frame(view: &View<'_>, fix: u8, at: u64) -> Reading<Datum>
    ensures { result ≡ structures.frame_read fix view.now at }
{
    let number = fix / 0x10 % 8;
    if fix / 0x80 % 2 == 1 {
        return Ok((Datum::Thread(number), at));
    }
    let (method, at) = read_method(view, number, at)?;
    Ok((Datum::Explicit(method), at))
}

// and its target
#[tactic(auto, unfolding(crate::specs::Structures::target_read))]
fn read_target(view: &View<'_>, fix: u8, at: u64) -> Reading<Datum>
    ensures { result ≡ structures.target_read fix view.now at }
{
    let number = fix % 4;
    if fix / 8 % 2 == 1 {
        return Ok((Datum::Thread(number), at));
    }
    let (index, at) = read_index(view, at)?;
    Ok((Datum::Explicit(Method { number, index }), at))
}

// and its displacement
#[tactic(auto, unfolding(crate::specs::Structures::displacement_read))]
fn read_displacement(view: &View<'_>, wide: bool, fix: u8, at: u64) -> Reading<u32>
    ensures { result ≡ structures.displacement_read wide fix view.now at }
{
    if fix / 4 % 2 == 1 {
        return Ok((0, at));
    }
    read_long(view, wide, at)
}

// a fixup by its first byte
#[tactic(auto, unfolding(crate::specs::Structures::fixup_read))]
fn read_fixup(view: &View<'_>, wide: bool, first: u8, at: u64) -> Reading<Subrecord>
    ensures { result ≡ structures.fixup_read wide first view.now at }
{
    let (low, at) = read_u8(view, at)?;
    let (fix, at) = read_u8(view, at)?;
    let (frame, at) = read_frame(view, fix, at)?;
    let (target, at) = read_target(view, fix, at)?;
    let (displacement, at) = read_displacement(view, wide, fix, at)?;
    let fixup = Fixup {
        segment_relative: first / 0x40 % 2 == 1,
        location: first / 4 % 16,
        offset: u16::from(first % 4) * 256 + u16::from(low),
        frame,
        target,
        displacement,
    };
    Ok((Subrecord::Fixup(fixup), at))
}

/// The thread or the fixup at `at`, in an entry of the odd type where `wide`.
#[tactic(auto, unfolding(crate::specs::Structures::subrecord_read))]
pub fn read_subrecord(view: &View<'_>, wide: bool, at: u64) -> Reading<Subrecord>
    ensures { result ≡ structures.subrecord_read wide view.now at }
{
    let (first, at) = read_u8(view, at)?;
    if first / 0x80 % 2 == 1 {
        return read_fixup(view, wide, first, at);
    }
    read_thread(view, first, at)
}
