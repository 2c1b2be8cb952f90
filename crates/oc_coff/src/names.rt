//! Names of sections and symbols.
ghost use Rattle.std.specs.Prelude.{◌≡◌, ◌-◌, ◌≤◌, true, nat_eq, length, None, Some, MatchOption};
ghost use Rattle.std.specs.List.{list_all, position};
ghost use Rattle.oc_coff.specs.Names as names;

use crate::strings::Strings;
use oc_base::u32_in;

// where the first NUL lies
fn nul_place(bytes: &[u8]) -> Option<usize>
    ensures { result ≡ position (λ c. nat_eq c 0) bytes.now }
{
    bytes.iter().position(|c| *c == 0)
}

// the bytes before the first NUL, or all
fn until_nul(bytes: &[u8]) -> &[u8]
    ensures { result.now ≡ names.until_nul bytes.now }
{
    match nul_place(bytes) {
        Some(end) => &bytes[..end],
        None => bytes,
    }
}

// whether all bytes are decimal digits
fn are_digits(bytes: &[u8]) -> bool
    ensures { result ≡ list_all names.is_digit bytes.now }
{
    bytes.iter().all(|c| 48 <= *c && *c <= 57)
}

// the value of a decimal digit
fn digit_of(c: u8) -> u32
    requires { names.is_digit c ≡ true }
    ensures value { result ≡ c - 48 }
    ensures few { result ≤ 9 }
{
    u32::from(c) - 48
}

// the number of up to seven decimal digits
#[tactic(auto, using(crate::proofs::NameLemmas::decimal_small, crate::proofs::NameLemmas::decimal_more, crate::proofs::NameLemmas::digit_there))]
fn decimal_of(digits: &[u8]) -> u32
    requires few { length digits.now ≤ 7 }
    requires digits { list_all names.is_digit digits.now ≡ true }
    ensures { result ≡ names.decimal_of digits.now }
{
    let mut number = 0;
    for k in 0..digits.len() {
        number = number * 10 + digit_of(digits[k]);
    }
    number
}

// the name that a text in a section header stands for
fn name_for<'a>(strings: &Strings<'a>, text: &'a [u8]) -> Option<&'a [u8]>
    requires { length text.now ≤ 8 }
    ensures { MatchOption result (names.name_for strings.now text.now ≡ None) (λ name. names.name_for strings.now text.now ≡ Some name.now) }
{
    if text.is_empty() || text[0] != b'/' {
        return Some(text);
    }
    let digits = &text[1..];
    if digits.is_empty() || !are_digits(digits) {
        return None;
    }
    strings.text(decimal_of(digits))
}

/// The name of a section by the eight bytes in its header; `None` exactly where they say no name of
/// the string table. Linear in the name.
#[tactic(auto, unfolding(crate::specs::Names::section_name))]
pub fn section_name<'a>(strings: &Strings<'a>, field: &'a [u8]) -> Option<&'a [u8]>
    requires { length field.now ≡ 8 }
    ensures { MatchOption result (names.section_name strings.now field.now ≡ None) (λ name. names.section_name strings.now field.now ≡ Some name.now) }
{
    name_for(strings, until_nul(field))
}

/// The name of a symbol by the eight bytes in its entry; `None` exactly where they say no name of the
/// string table. Linear in the name.
#[tactic(auto, unfolding(crate::specs::Names::symbol_name))]
pub fn symbol_name<'a>(strings: &Strings<'a>, field: &'a [u8]) -> Option<&'a [u8]>
    requires { length field.now ≡ 8 }
    ensures { MatchOption result (names.symbol_name strings.now field.now ≡ None) (λ name. names.symbol_name strings.now field.now ≡ Some name.now) }
{
    if u32_in(field, 0) != 0 {
        return Some(until_nul(field));
    }
    let offset = u32_in(field, 4);
    if offset == 0 {
        return Some(&[]);
    }
    strings.text(offset)
}
