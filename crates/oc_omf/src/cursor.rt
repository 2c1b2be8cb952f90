//! Fields of an entry's contents, read one after another: each call gives what lies at a place and
//! the place after it. Places are offsets in bytes from the start of the contents; calls take
//! constant time and no memory.
ghost use Rattle.std.specs.Prelude.{◌≡◌, MatchResult, Ok, Err};
ghost use Rattle.oc_omf.specs.Cursor as cursor;
ghost use Rattle.oc_omf.specs.Structures.{long_size};

use crate::cut::Cut;
use oc_base::View;

/// What is read, and the place after it; or the field that the end of the contents cuts.
pub type Reading<T> = Result<(T, u64), Cut>;

/// A byte.
#[tactic(auto, unfolding(crate::specs::Cursor::number_read))]
pub fn read_u8(view: &View<'_>, at: u64) -> Reading<u8>
    ensures { result ≡ cursor.number_read 1 view.now at }
{
    let byte = view.u8_at(at)?;
    let end = view.len();
    prove!(at < end);
    Ok((byte, at + 1))
}

/// A number of two bytes.
#[tactic(auto, unfolding(crate::specs::Cursor::number_read))]
pub fn read_u16(view: &View<'_>, at: u64) -> Reading<u16>
    ensures { result ≡ cursor.number_read 2 view.now at }
{
    let number = view.u16_at(at)?;
    let end = view.len();
    prove!(at < end - 1);
    Ok((number, at + 2))
}

/// A number of three bytes.
#[tactic(auto, unfolding(crate::specs::Cursor::number_read, oc_base::specs::Numbers::number_at))]
pub fn read_u24(view: &View<'_>, at: u64) -> Reading<u32>
    ensures { result ≡ cursor.number_read 3 view.now at }
{
    let _all = view.sub(at, 3)?;
    let end = view.len();
    prove!(at < end - 2);
    let low = view.u16_at(at)?;
    let high = view.u8_at(at + 2)?;
    Ok((u32::from(high) * 65536 + u32::from(low), at + 3))
}

/// A number of four bytes.
#[tactic(auto, unfolding(crate::specs::Cursor::number_read))]
pub fn read_u32(view: &View<'_>, at: u64) -> Reading<u32>
    ensures { result ≡ cursor.number_read 4 view.now at }
{
    let number = view.u32_at(at)?;
    let end = view.len();
    prove!(at < end - 3);
    Ok((number, at + 4))
}

/// An offset or a length, of four bytes where `wide` and else of two.
pub fn read_long(view: &View<'_>, wide: bool, at: u64) -> Reading<u32>
    ensures { result ≡ cursor.number_read (long_size wide) view.now at }
{
    if wide {
        return read_u32(view, at);
    }
    let (number, after) = read_u16(view, at)?;
    Ok((u32::from(number), after))
}

/// An index of one or two bytes.
#[tactic(auto, unfolding(crate::specs::Cursor::index_read))]
pub fn read_index(view: &View<'_>, at: u64) -> Reading<u16>
    ensures { result ≡ cursor.index_read view.now at }
{
    Ok(oc_omf_records::index(view, at)?)
}

/// A name: a length byte and so many bytes.
#[tactic(auto, unfolding(crate::specs::Cursor::name_read))]
pub fn read_name<'a>(view: &View<'a>, at: u64) -> Reading<&'a [u8]>
    ensures { MatchResult result (λ r. cursor.name_read view.now at ≡ Ok (r.0.now, r.1)) (λ c. cursor.name_read view.now at ≡ Err c) }
{
    let Ok(length) = view.u8_at(at) else {
        return Err(Cut::Name);
    };
    let end = view.len();
    prove!(at < end);
    match view.sub(at + 1, u64::from(length)) {
        Ok(name) => Ok((name.bytes(), at + 1 + u64::from(length))),
        Err(_) => Err(Cut::Name),
    }
}
