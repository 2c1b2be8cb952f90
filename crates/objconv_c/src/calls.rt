//! The calls, as C makes them: a slice is a pointer and a length, and `alloc` is nothing.
ghost use Rattle.std.specs.Prelude.{◌≡◌, ◌-◌, ◌^◌};
ghost use Rattle.oc_embed.specs.Conversions.{SaysConversion};
ghost use Rattle.oc_embed.specs.Listings.{SaysListing};
ghost use Rattle.oc_embed.specs.Rooms.{Returns};
ghost use Rattle.oc_embed.specs.Version.{number};

use crate::converter::AnyConverter;
use oc_dispatch::AnyReader;
use oc_embed::{convert_by, list_by, version};
use std::alloc::Global;

/// Converts the object file `input` of any format as `words` ask, into the caller's rooms, and answers the status.
///
/// What each status leaves is told at `convert_by` and in `objconv.h`. The sizes are set in any case, and nothing of the
/// caller's changes but them and the rooms.
#[unsafe(no_mangle)]
pub extern "C" fn objconv_convert(
    alloc: Global,
    input: &[u8],
    words: &[u8],
    output: &mut [u8],
    output_size: &mut usize,
    text: &mut [u8],
    text_size: &mut usize,
) -> i32
    ensures { Returns (SaysConversion words.now input.now) output.old text.old result output_size.new text_size.new output.new text.new }
{
    let left = convert_by(alloc, &AnyConverter, input, words, output, text);
    *output_size = left.output;
    *text_size = left.text;
    i32::from(left.status)
}

/// Lists the symbols of the object file `input` of any format, into the caller's rooms, and answers the status.
///
/// What each status leaves is told at `list_by` and in `objconv.h`. The sizes are set in any case, and nothing of the
/// caller's changes but them and the rooms.
#[unsafe(no_mangle)]
pub extern "C" fn objconv_list(
    alloc: Global,
    input: &[u8],
    output: &mut [u8],
    output_size: &mut usize,
    text: &mut [u8],
    text_size: &mut usize,
) -> i32
    ensures { Returns (SaysListing input.now) output.old text.old result output_size.new text_size.new output.new text.new }
{
    let left = list_by(alloc, &AnyReader, input, output, text);
    *output_size = left.output;
    *text_size = left.text;
    i32::from(left.status)
}

/// The version of the calls, 1.0.0: ten thousand times the first number, a hundred times the second, and the third.
#[unsafe(no_mangle)]
pub extern "C" fn objconv_version() -> u32
    ensures { result ≡ number 1 0 0 }
{
    version()
}
