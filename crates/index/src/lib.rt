// One width's part of an index, in lent 32-bit places: a node with a fingerprint is found in a few steps, where the
// original has a hash map (synthesis_arena.rs, `WidthTable`). Whatever the places hold is decided: a probe takes no
// more steps than the part has places, and what it leads to has the fingerprint (SPECIFICATION 7.13 to 7.15).
#![tactic(auto)]

ghost use Rattle.std.specs.Prelude.{◌≡◌, ◌+◌, ◌%◌, ◌<◌, ◌≤◌, length, replicate, []};
ghost use Rattle.circuit.specs.Codes.{mark};
ghost use Rattle.synthesis_arena.specs.Lookup.{told_found};
ghost use Rattle.walk.specs.Index.{place_of, leads, probed, inserted, filled, kept_up, kept};
ghost use Rattle.walk.specs.Finds.{looked_in};
ghost use Rattle.index.specs.Told.{told_by, told_part};

use synthesis_arena::MARK;

// Where a probe begins. A part of an index has a power of two of places, and then no division is needed.
fn first_place(size: usize, fingerprint: u64) -> usize
    requires some { 0 < size }
    ensures first { result ≡ place_of size fingerprint 0 }
{
    let last = size as u64 - 1;
    if size as u64 & last == 0 {
        return (fingerprint & last) as usize;
    }
    (fingerprint % size as u64) as usize
}

// The place after one, round the part.
fn next_place(size: usize, place: usize) -> usize
    requires inside { place < size }
    ensures next { result ≡ (place + 1) % size }
{
    let next = place + 1;
    if next == size {
        return 0;
    }
    next
}

// Whether a place's number leads to a node: not below the start, below the count, and with the fingerprint.
fn leads_to(fingerprints: &[u64], count: usize, from: usize, fingerprint: u64, node: usize) -> bool
    requires within { count ≤ length fingerprints.now }
    ensures leads { result ≡ leads fingerprints.now count from fingerprint node }
{
    if node < from {
        return false;
    }
    if node >= count {
        return false;
    }
    fingerprints[node] == fingerprint
}

// The first node that the probe of a fingerprint leads to, of those from a place on and below the count (SPECIFICATION
// 7.15).
pub fn probe(
    index: &[u32],
    fingerprints: &[u64],
    count: usize,
    from: usize,
    fingerprint: u64,
) -> Option<usize>
    requires within { count ≤ length fingerprints.now }
    ensures probed { told_found result ≡ probed index.now fingerprints.now count from fingerprint }
{
    let size = index.len();
    if size == 0 {
        return None;
    }
    let mut place = first_place(size, fingerprint);
    for _step in 0..size {
        let node = index[place];
        if node == MARK {
            return None;
        }
        if leads_to(fingerprints, count, from, fingerprint, node as usize) {
            return Some(node as usize);
        }
        place = next_place(size, place);
    }
    None
}

// A node is put at the first empty place of its probe; where none is empty, the part stays (SPECIFICATION 7.14).
pub fn insert(index: &mut [u32], fingerprint: u64, node: u32)
    ensures inserted { index.new ≡ inserted index.old fingerprint node }
{
    let size = index.len();
    if size == 0 {
        return;
    }
    let mut place = first_place(size, fingerprint);
    for _step in 0..size {
        if index[place] == MARK {
            index[place] = node;
            return;
        }
        place = next_place(size, place);
    }
}

// Every place is emptied.
pub fn clear(index: &mut [u32])
    ensures cleared { index.new ≡ replicate (length index.old) mark }
{
    index.fill(MARK);
}

// The part is cleared and filled from the nodes below the count, rising (SPECIFICATION 7.14).
pub fn fill(index: &mut [u32], fingerprints: &[u64], count: usize)
    requires within { (count ≤ length fingerprints.now) × (count ≤ mark) }
    ensures filled { index.new ≡ filled fingerprints.now (length index.old) count }
{
    clear(index);
    for (i, &fingerprint) in fingerprints[..count].iter().enumerate() {
        insert(index, fingerprint, i as u32);
    }
}

// How a fingerprint is looked up: by the scan, which does not look at the index, or through the index.
#[derive(Clone, Copy)]
pub enum LookupBy {
    Scan,
    Index,
}

// One width's part of a table and of an index, lent to be read: how its nodes are looked up, how many it has, and its
// places of each array (SPECIFICATION 6.2, 7.13).
#[derive(Clone, Copy)]
pub struct Part<'a> {
    pub by: LookupBy,
    pub count: usize,
    pub fingerprints: &'a [u64],
    pub parents: &'a [u32],
    pub codes: &'a [u32],
    pub index: &'a [u32],
}

impl Part<'_> {
    // The node that the look-up finds, of those from a place on and below the count.
    pub fn look_up(self, from: usize, fingerprint: u64) -> Option<usize>
        requires within { self.count ≤ length self.fingerprints.now }
        ensures looked_up { told_found result ≡ looked_in (told_part self.entry) from fingerprint }
    {
        match self.by {
            LookupBy::Scan => {
                synthesis_arena::node_for(self.fingerprints, self.count, from, fingerprint)
            }
            LookupBy::Index => probe(self.index, self.fingerprints, self.count, from, fingerprint),
        }
    }
}

// The part before a table has nodes: cleared; the scan leaves it.
pub fn start(by: LookupBy, index: &mut [u32])
    ensures started { index.new ≡ kept (told_by by) [] 0 index.old }
{
    match by {
        LookupBy::Scan => {}
        LookupBy::Index => clear(index),
    }
}

// The part once a table has one node more; the scan leaves it.
pub fn keep_up(by: LookupBy, index: &mut [u32], fingerprint: u64, node: u32)
    ensures kept_up { index.new ≡ kept_up (told_by by) index.old fingerprint node }
{
    match by {
        LookupBy::Scan => {}
        LookupBy::Index => insert(index, fingerprint, node),
    }
}
