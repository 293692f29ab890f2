// Reading home: zones, the dictionary, and a tag's list.
ghost use Rattle.std.specs.Prelude.{◌≡◌, true, ◌+◌, ◌*◌, ◌^◌, ◌≤◌, ◌<◌, length};
ghost use Rattle.wire.specs.Bytes.{get16};
ghost use Rattle.records.specs.Records.{encode as record_bytes};
ghost use Rattle.home.specs.Bytes.{step_of, first_at, many_at, end_at, list_at};
ghost use Rattle.home.specs.Sound.{sound as is_sound, list_of};
ghost use Rattle.home.specs.Lookup.{Ordered, index_of, slot_of, slot_block, block_of, offset_of};

use crate::AREA;
use layout::classes::cells;
use std::ops::Range;

// A tag's block: its first cell and its record count.
#[derive(Clone, Copy, Debug, PartialEq, Eq)]
pub struct Block {
    pub cell: usize,
    pub count: usize,
}

impl Block {
    // Where its records lie in home, behind the header.
    pub fn records(self) -> Range<usize>
        requires { list_at self.cell + 8 * self.count < 2 ^ 64 }
        ensures { result ≡ record { start = list_at self.cell; end = list_at self.cell + 8 * self.count } }
    {
        let at = AREA + 8 * self.cell + 8;
        at..at + 8 * self.count
    }
}

// The step code.
pub fn step_of(home: &[u8]) -> usize
    requires { 1664 ≤ length home.now }
    ensures { result ≡ step_of home.now }
{
    wire::get8(home, 122)
}

// A zone's first cell.
pub fn zone_first(home: &[u8], c: usize) -> usize
    requires { (c < 30) × (1664 ≤ length home.now) }
    ensures { (result ≡ first_at home.now c) × (result < 65536) }
{
    wire::get16(home, 2 + 4 * c)
}

// Its block count.
pub fn zone_count(home: &[u8], c: usize) -> usize
    requires { (c < 30) × (1664 ≤ length home.now) }
    ensures { (result ≡ many_at home.now c) × (result < 65536) }
{
    wire::get16(home, 2 + 4 * c + 2)
}

// Where it ends, if the lower zones end at e. An empty one changes nothing.
pub fn zone_end(home: &[u8], step: usize, c: usize, e: usize) -> usize
    requires { (c < 30) × (1664 ≤ length home.now) }
    ensures { result ≡ end_at step home.now c e }
{
    let n = zone_count(home, c);
    if n == 0 {
        return e;
    }
    zone_first(home, c) + n * cells(step, c)
}

// The number of a tag's entry in the dictionary, or of the one that it would be, by halving.
pub fn index_of(home: &[u8], tag: u32) -> usize
    requires { Ordered home.now }
    ensures { (result ≡ index_of home.now tag) × (result ≤ get16 home.now 0) }
{
    let mut low = 0;
    let mut high = wire::get16(home, 0);
    while low < high {
        let mid = low + (high - low) / 2;
        if wire::get32(home, 128 + 6 * mid) < tag {
            low = mid + 1;
        } else {
            high = mid;
        }
    }
    low
}

// Finds a tag in the dictionary: the number of its entry, or of the one that it would be.
pub fn find(home: &[u8], tag: u32) -> Result<usize, usize>
    requires { Ordered home.now }
    ensures { result ≡ slot_of home.now tag }
{
    let i = index_of(home, tag);
    if i == wire::get16(home, 0) {
        return Err(i);
    }
    if wire::get32(home, 128 + 6 * i) == tag {
        Ok(i)
    } else {
        Err(i)
    }
}

// The block to which the i-th entry leads.
fn block_at(home: &[u8], i: usize) -> Block
    requires { (is_sound home.now ≡ true) × (i < get16 home.now 0) }
    ensures { Some result ≡ slot_block home.now (Ok i) }
{
    let cell = wire::get16(home, 128 + 6 * i + 4);
    let count = wire::get16(home, AREA + 8 * cell + 4);
    Block { cell, count }
}

// Finds a tag's block.
pub fn block_of(home: &[u8], tag: u32) -> Option<Block>
    requires { is_sound home.now ≡ true }
    ensures { result ≡ block_of home.now tag }
{
    match find(home, tag) {
        Ok(i) => Some(block_at(home, i)),
        Err(_) => None,
    }
}

// The number of a tag's records, 0 for an unknown tag.
pub fn count(home: &[u8], tag: u32) -> usize
    requires { is_sound home.now ≡ true }
    ensures { result ≡ length (list_of home.now tag) }
{
    match block_of(home, tag) {
        Some(block) => block.count,
        None => 0,
    }
}

// The part of home that holds a tag's records, empty for an unknown tag.
pub fn list(home: &[u8], tag: u32) -> &[u8]
    requires { is_sound home.now ≡ true }
    ensures result_value { result.now ≡ record_bytes (list_of home.now tag) }
    ensures ref_ptr_value { (result.ref_ptr.0 ≡ home.entry.ref_ptr.0) × (result.ref_ptr.1 ≡ home.entry.ref_ptr.1 + offset_of home.now tag) }
{
    match block_of(home, tag) {
        Some(Block { cell, count }) => {
            let at = AREA + 8 * cell + 8;
            &home[at..at + 8 * count]
        }
        None => &home[0..0],
    }
}
