// The edits of a sound workspace, in place: put, delete, set minutes and drop.
#![tactic(auto)]

ghost use Rattle.std.specs.Prelude.{◌≡◌, true, false, ◌<◌};
ghost use Rattle.layout.specs.Zones.{blocks, has_tag};
ghost use Rattle.home.specs.Bytes.{decode};
ghost use Rattle.home.specs.Sound.{sound};
ghost use Rattle.moves.specs.Stored.{Stored};
ghost use Rattle.lists.specs.Listed.{Listed, Missing};
ghost use Rattle.refusals.specs.Rules.{answered, left};
ghost use Rattle.edits.specs.Edits.{put_in, delete_in, set_in, drop_in, fits_after};

use home::AREA;
use home::buildings::building_full;
use home::lookup::{Block, block_of, step_of};
use layout::classes::{LONGEST_LIST, capacity, cells, class_of};
use lists::change::{insert_moving, remove_record};
use lists::here::{insert_here, set_here};
use lists::read::search_at;
use records::Record;
use refusals::Refusal;
use zones::afresh::{settle, total};
use zones::take::take_out;

// Who puts a call: the desk, or a terminal in the pit.
#[derive(Clone, Copy, Debug, PartialEq, Eq)]
pub enum Terminal {
    Desk,
    Pit,
}

impl Terminal {
    ghost use Rattle.edits.specs.Edits.{limit_of, full_of};

    // How many records close a list to it.
    fn limit(self) -> usize
        ensures { result ≡ limit_of self }
    {
        match self {
            Terminal::Desk => 989,
            Terminal::Pit => 64,
        }
    }

    // The refusal of its put to a list that is closed to it.
    fn full(self) -> Refusal
        ensures { result ≡ full_of self }
    {
        match self {
            Terminal::Desk => Refusal::ListFull,
            Terminal::Pit => Refusal::PitFull,
        }
    }
}

// Whether all blocks fit in the area once one of class d stands for one of class c.
fn room_after(home: &[u8], step: usize, c: usize, d: usize) -> bool
    requires { Stored step home.now × (c < 30) × (d < 30) }
    ensures { result ≡ fits_after step home.now c d }
{
    let area = (home.len() - AREA) / 8;
    total(home, step) + cells(step, d) <= area + cells(step, c)
}

// Puts a record in at its rank among the records of the tag's block.
fn insert_record(
    home: &mut [u8],
    by: Terminal,
    tag: u32,
    block: Block,
    j: usize,
    r: Record,
) -> Result<usize, Refusal>
    requires { Missing home.old tag block.cell block.count j r }
    ensures value { result ≡ answered Err (put_in by home.old tag r) }
    ensures home_after { home.new ≡ left (put_in by home.old tag r) home.old }
{
    if block.count >= by.limit() {
        return Err(by.full());
    }
    let step = step_of(home);
    let c = class_of(step, block.count);
    if block.count < capacity(step, c) {
        insert_here(home, block, j, r);
        return Ok(block.count + 1);
    }
    if !room_after(home, step, c, class_of(step, block.count + 1)) {
        return Err(Refusal::NoRoom);
    }
    let mut aside = [0; LONGEST_LIST];
    insert_moving(home, tag, block, j, r, &mut aside);
    Ok(block.count + 1)
}

// Puts a record to a tag that has a block.
fn put_known(
    home: &mut [u8],
    by: Terminal,
    tag: u32,
    block: Block,
    r: Record,
) -> Result<usize, Refusal>
    requires { Listed home.old tag block.cell block.count }
    ensures value { result ≡ answered Err (put_in by home.old tag r) }
    ensures home_after { home.new ≡ left (put_in by home.old tag r) home.old }
{
    match search_at(home, block, records::key_of(r)) {
        Ok(_) => Err(Refusal::Listed),
        Err(j) => insert_record(home, by, tag, block, j, r),
    }
}

// Puts a record to a tag that has none, which is the same for either terminal.
fn put_new(home: &mut [u8], tag: u32, r: Record) -> Result<usize, Refusal>
    requires { (sound home.old ≡ true) × (has_tag tag (blocks (decode home.old)) ≡ false) }
    ensures value { result ≡ answered Err (put_in Terminal.Desk home.old tag r) }
    ensures home_after { home.new ≡ left (put_in Terminal.Desk home.old tag r) home.old }
{
    if building_full(home, tag) {
        return Err(Refusal::BuildingFull);
    }
    if wire::get16(home, 0) == 256 {
        return Err(Refusal::TagsFull);
    }
    let mut list = [0; 8];
    records::insert(&mut list, 0, r);
    if settle(home, tag, &list) {
        Ok(1)
    } else {
        Err(Refusal::NoRoom)
    }
}

// Puts a record to a tag's list. Refused, in this order: `Listed`; `ListFull` at 989 records, or for the pit `PitFull` at 64; `BuildingFull` and,
// with 256 tags, `TagsFull` for a new tag; `NoRoom`.
pub fn put(home: &mut [u8], by: Terminal, tag: u32, r: Record) -> Result<usize, Refusal>
    requires { sound home.old ≡ true }
    ensures value { result ≡ answered Err (put_in by home.old tag r) }
    ensures home_after { home.new ≡ left (put_in by home.old tag r) home.old }
{
    match block_of(home, tag) {
        Some(block) => put_known(home, by, tag, block, r),
        None => put_new(home, tag, r),
    }
}

// Deletes a record of a tag that has a block.
fn delete_known(home: &mut [u8], tag: u32, block: Block, key: u64) -> Result<usize, Refusal>
    requires { Listed home.old tag block.cell block.count }
    ensures value { result ≡ answered Err (delete_in home.old tag key) }
    ensures home_after { home.new ≡ left (delete_in home.old tag key) home.old }
{
    let j = search_at(home, block, key).or(Err(Refusal::Unknown))?;
    remove_record(home, tag, block, j);
    Ok(block.count - 1)
}

// Deletes the record with this primary part from a tag's list. Refused: `Unknown`, no such record.
pub fn delete(home: &mut [u8], tag: u32, key: u64) -> Result<usize, Refusal>
    requires { sound home.old ≡ true }
    ensures value { result ≡ answered Err (delete_in home.old tag key) }
    ensures home_after { home.new ≡ left (delete_in home.old tag key) home.old }
{
    let block = block_of(home, tag).ok_or(Refusal::Unknown)?;
    delete_known(home, tag, block, key)
}

// Sets the minutes of a record of a tag that has a block.
fn set_known(
    home: &mut [u8],
    tag: u32,
    block: Block,
    key: u64,
    minutes: u8,
) -> Result<usize, Refusal>
    requires { Listed home.old tag block.cell block.count }
    ensures value { result ≡ answered Err (set_in home.old tag key minutes) }
    ensures home_after { home.new ≡ left (set_in home.old tag key minutes) home.old }
{
    let j = search_at(home, block, key).or(Err(Refusal::Unknown))?;
    set_here(home, block, j, minutes);
    Ok(block.count)
}

// Sets the minutes of the record with this primary part in a tag's list. Refused: `Unknown`, no such record.
pub fn set_minutes(home: &mut [u8], tag: u32, key: u64, minutes: u8) -> Result<usize, Refusal>
    requires { sound home.old ≡ true }
    ensures value { result ≡ answered Err (set_in home.old tag key minutes) }
    ensures home_after { home.new ≡ left (set_in home.old tag key minutes) home.old }
{
    let block = block_of(home, tag).ok_or(Refusal::Unknown)?;
    set_known(home, tag, block, key, minutes)
}

// Drops a tag with its list. Refused: `Unknown`, no such tag.
pub fn drop_tag(home: &mut [u8], tag: u32) -> Result<usize, Refusal>
    requires { sound home.old ≡ true }
    ensures value { result ≡ answered Err (drop_in home.old tag) }
    ensures home_after { home.new ≡ left (drop_in home.old tag) home.old }
{
    let Block { cell, count } = block_of(home, tag).ok_or(Refusal::Unknown)?;
    let step = step_of(home);
    take_out(home, step, tag, class_of(step, count), cell);
    Ok(0)
}
