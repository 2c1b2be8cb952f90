//! A file with its section headers.
ghost use Rattle.std.specs.Prelude.{◌≡◌, ◌+◌, ◌*◌, ◌<◌, ◌≤◌, ◌^◌, length, map, if◌then◌else◌, IfErr, IfOk, OnOk, None, Some};
ghost use Rattle.std.specs.List.{range_with_len};
ghost use Rattle.oc_base.specs.declared.limits.TheConstants.{MOST_INPUT};
ghost use Rattle.oc_base.specs.Stops.{IsStop};
ghost use Rattle.oc_linking.specs.FirstFault.{first_broken, first_fault};
ghost use Rattle.oc_linking.specs.Numbers.{or_else};
ghost use Rattle.oc_elf.specs.Classes.{word_of};
ghost use Rattle.oc_elf.specs.Ehdr.{ehdr_in};
ghost use Rattle.oc_elf.specs.Shdr.{shdr_size};
ghost use Rattle.oc_elf.specs.Frames as frames;
ghost use Rattle.oc_elf.specs.Headers as rules;
ghost use Rattle.oc_elf.specs.Sections as sections;
ghost use Rattle.oc_elf.specs.Laid.{HasHeader, IsFrame};

use crate::class::ElfClass;
use crate::constants::SHT_SYMTAB_SHNDX;
use crate::ehdr::{Ehdr, ehdr_of};
use crate::headers::{big_count, big_names, header_fault, names_fault};
use crate::shdr::{Shdr, null_shdr, shdr_at, shdr_size};
use oc_base::{NoMemory, Stop, Word};
use std::alloc::Global;
use std::marker::Model;

/// A file with its section headers, the first of which is that of no section.
#[derive(Drop)]
pub struct Frame<'a> {
    class: ElfClass,
    file: &'a [u8],
    headers: Vec<Shdr>,
    names: Shdr,
    start: u64,
    /// The number of the header of the table of section numbers.
    shndx: Option<u32>,
}

impl<'a> Model for Frame<'a> {
    ghost use Rattle.oc_elf.specs.Frames.{FileFrame};
    ghost use Rattle.oc_elf.specs.Laid.{IsLaid};

    ghost Value = { FileFrame };

    ghost view = { λ f. record { class = f.class; file = f.file.now; headers = f.headers.items; names = f.names } };

    ghost invariant = { λ f. IsLaid (record { class = f.class; file = f.file.now; headers = f.headers.items; names = f.names }) f.start f.shndx };
}

impl<'a> Frame<'a> {
    /// The class. Constant time.
    pub fn class(&self) -> ElfClass
        ensures { result ≡ self.now.class }
    {
        self.class
    }

    /// The word. Constant time.
    pub fn word(&self) -> Word
        ensures { result ≡ word_of self.now.class }
    {
        self.class.word()
    }

    /// The bytes of the file. Constant time.
    pub fn file(&self) -> &'a [u8]
        ensures { result.now ≡ self.now.file }
    {
        self.file
    }

    /// How many section headers there are. Constant time.
    pub fn count(&self) -> u32
        ensures count { result ≡ length self.now.headers }
        ensures few { result < 2 ^ 21 }
    {
        self.headers.len() as u32
    }

    /// The section header of that number; that of no section where there is none. Constant time.
    pub fn header(&self, k: u32) -> Shdr
        ensures { result ≡ frames.header_at self.now.headers k }
    {
        if k as usize >= self.headers.len() {
            return null_shdr();
        }
        self.headers[k as usize]
    }

    /// The header of the names of sections. Constant time.
    pub fn names(&self) -> Shdr
        ensures { result ≡ self.now.names }
    {
        self.names
    }

    /// The number of the header of the table of section numbers of symbols, where sections are many.
    /// Constant time.
    pub fn shndx_number(&self) -> Option<u32>
        ensures { result ≡ sections.shndx_number self.now.class self.now.headers }
    {
        self.shndx
    }

    /// That header; that of no section where there is none. Constant time.
    pub fn shndx(&self) -> Shdr
        ensures { result ≡ sections.shndx_by self.now.class self.now.headers }
    {
        match self.shndx {
            Some(k) => self.header(k),
            None => null_shdr(),
        }
    }

    /// Where a section header lies, in bytes from the start of the file. Constant time.
    pub fn place(&self, k: u32) -> u64
        requires { k < length self.now.headers }
        ensures { result ≡ frames.header_place (word_of self.now.class) self.now.file k }
    {
        self.start + u64::from(shdr_size(self.class.word())) * u64::from(k)
    }

    /// What is known of it, for callers to cite. It does nothing.
    pub fn is_frame(&self)
        ensures { IsFrame self.now }
    {
        let _ = &self.headers;
    }
}

// section header `k` of those that begin at `start`
#[tactic(auto, unfolding(crate::specs::Frames::header_of))]
fn header_of(word: Word, file: &[u8], start: u64, k: u32) -> Shdr
    requires start { start ≡ (ehdr_in word file.now).e_shoff }
    requires lies { start + shdr_size word * (k + 1) ≤ length file.now }
    ensures { result ≡ frames.header_of word file.now k }
{
    if k == 0 {
        return null_shdr();
    }
    shdr_at(
        word,
        file,
        start as usize + usize::from(shdr_size(word)) * k as usize,
    )
}

// the section headers that begin at `start`
fn headers_of(
    alloc: Global,
    word: Word,
    file: &[u8],
    start: u64,
    count: u32,
) -> Result<Vec<Shdr>, NoMemory>
    requires start { start ≡ (ehdr_in word file.now).e_shoff }
    requires lies { start + shdr_size word * count ≤ length file.now }
    ensures { IfOk result (λ hs. hs.items ≡ map (frames.header_of word file.now) (range_with_len 0 count)) }
{
    let mut headers = Vec::with_capacity(alloc, count as usize)?;
    for k in 0..count {
        headers.push(header_of(word, file, start, k))?;
    }
    Ok(headers)
}

// the section header of that number; that of no section where there is none
fn header_among(headers: &[Shdr], k: u32) -> Shdr
    ensures { result ≡ frames.header_at headers.now k }
{
    if k as usize >= headers.len() {
        return null_shdr();
    }
    headers[k as usize]
}

/// The first of two numbers that is present, where the second is present if a test passes. Constant
/// time.
pub fn first_of(before: Option<u32>, passes: bool, k: u32) -> Option<u32>
    ensures { result ≡ or_else before (if passes then Some k else None) }
{
    match before {
        Some(first) => Some(first),
        None => { if passes { Some(k) } else { None } }
    }
}

// the number of the header of the table of section numbers of symbols, where sections are many
fn shndx_among(class: ElfClass, headers: &[Shdr]) -> Option<u32>
    requires { length headers.now < 2 ^ 32 }
    ensures { result ≡ sections.shndx_number class headers.now }
{
    if !class.is_big() {
        return None;
    }
    let mut first = None;
    for k in 0..headers.len() as u32 {
        let s = header_among(headers, k);
        first = first_of(first, s.sh_type == SHT_SYMTAB_SHNDX, k);
    }
    first
}

// how many section headers there are, and the number of that of the names of sections
fn numbers_of(class: ElfClass, file: &[u8], ehdr: &Ehdr) -> (u32, u32)
    requires is { ehdr.now ≡ ehdr_in (word_of class) file.now }
    requires lies { HasHeader class (length file.now) ehdr.now (frames.zero_in (word_of class) file.now) }
    requires small { length file.now ≤ MOST_INPUT }
    ensures count { result.0 ≡ frames.shdr_count class file.now }
    ensures names { result.1 ≡ frames.names_number class file.now }
{
    if !class.is_big() {
        return (ehdr.e_shnum.into(), ehdr.e_shstrndx.into());
    }
    let zero = shdr_at(class.word(), file, ehdr.e_shoff as usize);
    (big_count(ehdr, &zero) as u32, big_names(ehdr, &zero))
}

// the file with its section headers, where the file header has no fault
fn frame_of<'a>(alloc: Global, class: ElfClass, file: &'a [u8]) -> Result<Frame<'a>, NoMemory>
    requires clean { first_broken (rules.file_conditions class file.now) ≡ None }
    requires small { length file.now ≤ MOST_INPUT }
    ensures { IfOk result (λ f. f ≡ frames.framed class file.now) }
{
    let word = class.word();
    let ehdr = ehdr_of(word, file);
    let start = ehdr.e_shoff;
    let (count, number) = numbers_of(class, file, &ehdr);
    let headers = headers_of(alloc, word, file, start, count)?;
    let names = header_among(headers.as_slice(), number);
    let shndx = shndx_among(class, headers.as_slice());
    Ok(Frame {
        class,
        file,
        headers,
        names,
        start,
        shndx,
    })
}

/// The file with its section headers.
///
/// Stops exactly where the file header or the header of the names of sections has a fault, with the
/// first; or where memory ran out. Linear in the section headers.
pub fn read_frame<'a>(alloc: Global, class: ElfClass, file: &'a [u8]) -> Result<Frame<'a>, Stop>
    requires { length file.now ≤ MOST_INPUT }
    ensures frame { IfOk result (λ f. f ≡ frames.framed class file.now) }
    ensures clean { OnOk result (first_fault (rules.header_stages class file.now) ≡ None) }
    ensures stop { IfErr result (IsStop (first_fault (rules.header_stages class file.now))) }
{
    match header_fault(class, file) {
        Some(fault) => return Err(Stop::Refused(fault)),
        None => (),
    }
    let frame = frame_of(alloc, class, file)?;
    if let Some(fault) = names_fault(frame.count(), &frame.names()) {
        return Err(Stop::Refused(fault));
    }
    Ok(frame)
}
