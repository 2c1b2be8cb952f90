//! Which keys of groups occurred before.
ghost use Rattle.std.specs.Prelude.{◌≡◌, ◌+◌, ◌<◌, List, ℕ, length, bytes_eq, is_some, None, Some, IfOk, OnOk, MatchOption};
ghost use Rattle.std.specs.Map.{update};
ghost use Rattle.oc_strings.specs.Repeats as repeats;
ghost use Rattle.oc_strings.specs.Repeats.{names_of};
ghost use Rattle.oc_elf_judge.specs.Stood.{HaveStood, HaveStoodIf, value_at};

use oc_base::NoMemory;
use oc_strings::Repeat;
use std::collections::BTreeMap;

/// The name at a position. Constant time.
pub(crate) fn name_at<'a>(names: &[Option<&'a [u8]>], k: usize) -> Option<&'a [u8]>
    requires { k < length names.now }
    ensures { MatchOption result (repeats.name_at (names_of names.now) k ≡ None) (λ name. repeats.name_at (names_of names.now) k ≡ Some name.now) }
{
    match names[k] {
        Some(name) => Some(name),
        None => None,
    }
}

// records the key of header `g`, and returns whether it was present
fn take_up<'a>(stood: &mut BTreeMap<&'a [u8], u32>, key: &'a [u8], g: u32) -> Result<bool, NoMemory>
    ensures again { IfOk result (λ again. again ≡ is_some (value_at stood.old key.now)) }
    ensures taken { OnOk result ((other : List ℕ) → value_at stood.new other ≡ update bytes_eq (value_at stood.old) key.now (Some g) other) }
{
    let before = stood.insert(key, g)?;
    Ok(before.is_some())
}

// the same of the key at position `g`, if there is one
fn stands_again<'a>(
    stood: &mut BTreeMap<&'a [u8], u32>,
    keys: &[Option<&'a [u8]>],
    g: u32,
) -> Result<bool, NoMemory>
    requires there { g < length keys.now }
    requires before { HaveStood (names_of keys.now) g stood.old }
    ensures again { IfOk result (λ again. again ≡ is_some (repeats.repeat_at (names_of keys.now) g)) }
    ensures taken { OnOk result (HaveStood (names_of keys.now) (g + 1) stood.new) }
{
    match name_at(keys, g as usize) {
        Some(key) => {
            let again = take_up(stood, key, g)?;
            Ok(again)
        }
        None => Ok(false),
    }
}

/// Whether the key at position `g` occurred before, where `found` is the first repeat of the keys;
/// if there is one, `stood` has the keys before, and this one is recorded in it. `NoMemory` where
/// memory ran out. The time is that of a look-up in an ordered map, if there is a repeat, and else
/// constant.
pub(crate) fn is_repeated<'a>(
    stood: &mut BTreeMap<&'a [u8], u32>,
    keys: &[Option<&'a [u8]>],
    found: Option<Repeat>,
    g: u32,
) -> Result<bool, NoMemory>
    requires there { g < length keys.now }
    requires found { found ≡ repeats.first_repeat (names_of keys.now) }
    requires before { HaveStoodIf found (names_of keys.now) g stood.old }
    ensures again { IfOk result (λ again. again ≡ is_some (repeats.repeat_at (names_of keys.now) g)) }
    ensures taken { OnOk result (HaveStoodIf found (names_of keys.now) (g + 1) stood.new) }
{
    match found {
        None => Ok(false),
        Some(_) => {
            let again = stands_again(stood, keys, g)?;
            Ok(again)
        }
    }
}
