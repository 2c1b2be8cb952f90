//! Which section holds an address of the file.
ghost use Rattle.std.specs.Prelude.{◌≡◌, ℕ, ◌+◌, ◌≤◌, ◌<◌, ◌&&◌, not, nat_eq, nat_le, nat_lt, if◌then◌else◌, is_some, length, None, Some, IfNone, IfSome, IfOk, IsSome, OnOk};
ghost use Rattle.std.specs.BTreeMap.{get, IsOrdered};
ghost use Rattle.std.specs.List.{All, filter_map};
ghost use Rattle.std.specs.Ordering.{nat_cmp};
ghost use Rattle.oc_linking.specs.Numbers.{or_else};
ghost use Rattle.oc_macho.specs.Framed.{table_at};
ghost use Rattle.oc_macho_judge.specs.Holders as holders;
ghost use Rattle.oc_macho.specs.Sections.{holder_of};
ghost use Rattle.oc_macho.specs.Tables.{Tables};

use oc_base::NoMemory;
use oc_macho::Frame;
use std::alloc::Global;
use std::collections::BTreeMap;
use std::marker::Model;

/// An address of 32 bits at which a section begins or ends.
#[derive(Clone, Copy)]
struct Edge {
    // the address
    at: u32,
    // the number of the first section that begins or ends there
    number: u32,
    // that of the first section that has a byte there
    byte: Option<u32>,
}

/// Which section holds an address of 32 bits, in any order of sections, whether they overlap or not.
/// Contracts see the addresses at which a section begins or ends, in ascending order, each with the
/// first section that does, and the first that has a byte there. Takes 20 bytes for each address.
#[derive(Drop)]
pub struct Holders {
    edges: Vec<Edge>,
    // their addresses alone, close together for the search
    places: Vec<u32>,
}

impl Model for Holders {
    ghost use Rattle.std.specs.Prelude.{List};
    ghost use Rattle.oc_macho_judge.specs.declared.holders.Edge.{Edge};
    ghost use Rattle.std.specs.Prelude.{◌≡◌};
    ghost use Rattle.oc_macho_judge.specs.Holders.{AreInOrder, places_of};

    ghost Value = { List Edge };

    ghost view = { λ h. h.edges.items };

    ghost invariant = { λ h. AreInOrder h.edges.items × (h.places.items ≡ places_of h.edges.items) };
}

// the number at an address
fn number_at(map: &BTreeMap<u128, u32>, at: u128) -> Option<u32>
    ensures { result ≡ get nat_cmp map.now at }
{
    map.get(&at).copied()
}

// puts a number at an address, where there is none yet
fn note(map: &mut BTreeMap<u128, u32>, at: u128, number: u32) -> Result<(), NoMemory>
    ensures { OnOk result ((q : ℕ) → get nat_cmp map.new q ≡ or_else (get nat_cmp map.old q) (if nat_eq q at then Some number else None)) }
{
    if number_at(map, at).is_none() {
        map.insert(at, number)?;
    }
    Ok(())
}

// puts the number of section `i`, counted from 0, where it begins and ends
fn note_section(edges: &mut BTreeMap<u128, u32>, frame: &Frame, i: u32) -> Result<(), NoMemory>
    requires there { i < length frame.now.sections }
    requires edges { holders.AreEdges frame.now i edges.old.entries }
    ensures { OnOk result (holders.AreEdges frame.now (i + 1) edges.new.entries) }
{
    let h = frame.section(i);
    let (begin, size) = (u128::from(h.addr), u128::from(h.size));
    let number = frame.number(i);
    note(edges, begin, number)?;
    note(edges, begin + size, number)?;
    Ok(())
}

// by each address: the first section that begins or ends there
fn edges_of(alloc: Global, frame: &Frame) -> Result<BTreeMap<u128, u32>, NoMemory>
    ensures { IfOk result (λ m. holders.AreEdges frame.now (length frame.now.sections) m.entries) }
{
    let mut edges = BTreeMap::new(alloc);
    let count = frame.section_count();
    for i in 0..count {
        note_section(&mut edges, frame, i)?;
    }
    Ok(edges)
}

// the first address in the map between two addresses
fn first_between(free: &BTreeMap<u128, u32>, begin: u128, end: u128) -> Option<u128>
    ensures none { IfNone result ((q : ℕ) → begin ≤ q → q < end → get nat_cmp free.now q ≡ None) }
    ensures held { IfSome result (λ at. IsSome (get nat_cmp free.now at)) }
    ensures above { IfSome result (λ at. begin ≤ at) }
    ensures below { IfSome result (λ at. at < end) }
{
    match free.range(begin..).next() {
        Some((at, _)) if *at < end => Some(*at),
        _ => None,
    }
}

// gives each free address between two addresses to section `number`
fn give(
    free: &mut BTreeMap<u128, u32>,
    bytes: &mut BTreeMap<u128, u32>,
    begin: u128,
    end: u128,
    number: u32,
) -> Result<(), NoMemory>
    ensures free { OnOk result ((q : ℕ) → is_some (get nat_cmp free.new q) ≡ (is_some (get nat_cmp free.old q) && not (nat_le begin q && nat_lt q end))) }
    ensures bytes { OnOk result (holders.AreGiven free.old begin end number bytes.old bytes.new) }
{
    while let Some(at) = first_between(free, begin, end) {
        bytes.insert(at, number)?;
        free.remove(&at);
    }
    Ok(())
}

// by each address in `edges`: the first section that has a byte there
fn bytes_of(
    alloc: Global,
    frame: &Frame,
    edges: &BTreeMap<u128, u32>,
) -> Result<BTreeMap<u128, u32>, NoMemory>
    requires { holders.AreEdges frame.now (length frame.now.sections) edges.now.entries }
    ensures { IfOk result (holders.AreByteHolders frame.now edges.now) }
{
    let mut free = edges_of(alloc, frame)?;
    let mut bytes = BTreeMap::new(alloc);
    let count = frame.section_count();
    for i in 0..count {
        let h = frame.section(i);
        let (begin, size) = (u128::from(h.addr), u128::from(h.size));
        give(&mut free, &mut bytes, begin, begin + size, frame.number(i))?;
    }
    Ok(bytes)
}

// what is listed of an address: nothing above 32 bits
fn edge_of(bytes: &BTreeMap<u128, u32>, at: u128, number: u32) -> Option<Edge>
    ensures { result ≡ holders.edge_of bytes.now.entries (at, number) }
{
    match u32::try_from(at) {
        Ok(low) => Some(Edge {
            at: low,
            number,
            byte: number_at(bytes, at),
        }),
        Err(_) => None,
    }
}

// what is listed of the addresses in `edges`, in ascending order
fn list_edges(
    alloc: Global,
    edges: &BTreeMap<u128, u32>,
    bytes: &BTreeMap<u128, u32>,
) -> Result<Vec<Edge>, NoMemory>
    ensures order { IsOrdered nat_cmp edges.now }
    ensures list { IfOk result (λ list. list.items ≡ filter_map (holders.edge_of bytes.now.entries) edges.now.entries) }
{
    let mut list = Vec::with_capacity(alloc, edges.len())?;
    for (at, number) in edges {
        if let Some(edge) = edge_of(bytes, *at, *number) {
            list.push(edge)?;
        }
    }
    Ok(list)
}

// their addresses
fn places_of(alloc: Global, edges: &[Edge]) -> Result<Vec<u32>, NoMemory>
    ensures { IfOk result (λ places. places.items ≡ holders.places_of edges.now) }
{
    let mut places = Vec::with_capacity(alloc, edges.len())?;
    for edge in edges {
        places.push(edge.at)?;
    }
    Ok(places)
}

// the last edge that is not above `v`
fn last_upto(edges: &[Edge], places: &[u32], v: u32) -> Option<Edge>
    requires order { holders.AreInOrder edges.now }
    requires places { places.now ≡ holders.places_of edges.now }
    ensures none { IfNone result (All (holders.IsAbove v) edges.now) }
    ensures some { IfSome result (holders.IsLastUpto v edges.now) }
{
    let upto = places.partition_point(|at| *at <= v);
    if upto == 0 {
        return None;
    }
    Some(edges[upto - 1])
}

impl Edge {
    // the section that holds an address, where this is the last edge up to it
    fn holder(self, v: u32) -> Option<u32>
        ensures { result ≡ holders.holder_by self v }
    {
        match self.byte {
            Some(number) => Some(number),
            None if self.at == v => Some(self.number),
            None => None,
        }
    }
}

impl Holders {
    /// Which sections of a file hold addresses. `NoMemory` where memory ran out. The time is about
    /// n log2(n) steps for n sections, whatever their addresses are. Takes two maps of the addresses at
    /// which a section begins or ends, until they are listed.
    pub(crate) fn of(alloc: Global, frame: &Frame) -> Result<Holders, NoMemory>
        ensures { IfOk result (λ h. holders.AreHolders frame.now h) }
    {
        let edges = edges_of(alloc, frame)?;
        let bytes = bytes_of(alloc, frame, &edges)?;
        let list = list_edges(alloc, &edges, &bytes)?;
        let places = places_of(alloc, &list)?;
        Ok(Holders {
            edges: list,
            places,
        })
    }

    /// The number of the section that holds an address: the first that has a byte there, or else the
    /// first that begins or ends there. The time is the logarithm of the number of sections.
    pub fn holder(&self, v: u32) -> Option<u32>
        ensures { (t : Tables) → holders.AreHolders t self.now → result ≡ holder_of t v }
    {
        match last_upto(&self.edges, &self.places, v) {
            Some(edge) => edge.holder(v),
            None => None,
        }
    }
}
