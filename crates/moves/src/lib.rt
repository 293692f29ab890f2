// Single moves in home's bytes, in place: blocks, entries of the dictionary and of the zone table.
#![tactic(auto)]

pub mod close;
pub mod slide;

ghost use Rattle.std.specs.Prelude.{◌≡◌, ◌+◌, ◌*◌, ◌≤◌, ◌<◌, length};
ghost use Rattle.wire.specs.Bytes.{get16};
ghost use Rattle.layout.specs.Capacities.{cells as size_of};
ghost use Rattle.home.specs.Bytes.{cell_at};
ghost use Rattle.home.specs.Lookup.{Ordered, index_of};
ghost use Rattle.moves.specs.Moves.{carried, Movable, celled, entered, unentered, zoned, moved};

use home::AREA;
use home::lookup::index_of;
use layout::classes::cells;

// Carries n bytes to another place, which may overlap theirs. The bytes that they left become zero.
fn carry(s: &mut [u8], from: usize, to: usize, n: usize)
    requires { (from + n ≤ length s.old) × (to + n ≤ length s.old) }
    ensures { s.new ≡ carried s.old from to n }
{
    wire::copy_within(s, from, to, n);
    if from < to {
        let k = n.min(to - from);
        wire::fill(s, from, k, 0);
    } else {
        let k = n.min(from - to);
        wire::fill(s, from + n - k, k, 0);
    }
}

// Lets the i-th entry lead to cell p.
fn set_cell(home: &mut [u8], i: usize, p: usize)
    requires { (1664 ≤ length home.old) × (i < 256) }
    ensures { home.new ≡ celled home.old i p }
{
    wire::put16(home, 128 + 6 * i + 4, p);
}

// Zone c starts at this cell and has so many blocks.
pub fn set_zone(home: &mut [u8], c: usize, first: usize, count: usize)
    requires { (1664 ≤ length home.old) × (c < 30) }
    ensures { home.new ≡ zoned home.old c first count }
{
    wire::put16(home, 2 + 4 * c, first);
    wire::put16(home, 2 + 4 * c + 2, count);
}

// Enters a tag with its block's first cell.
pub fn insert_entry(home: &mut [u8], tag: u32, p: usize)
    requires { Ordered home.old × (get16 home.old 0 < 256) }
    ensures { home.new ≡ entered home.old tag p }
{
    let n = wire::get16(home, 0);
    let i = index_of(home, tag);
    let at = 128 + 6 * i;
    wire::copy_within(home, at, at + 6, 6 * (n - i));
    wire::put32(home, at, tag);
    wire::put16(home, at + 4, p);
    wire::put16(home, 0, n + 1);
}

// Takes a tag's entry out.
pub fn remove_entry(home: &mut [u8], tag: u32)
    requires { Ordered home.old × (index_of home.old tag < get16 home.old 0) }
    ensures { home.new ≡ unentered home.old tag }
{
    let n = wire::get16(home, 0);
    let i = index_of(home, tag);
    let gone = 128 + 6 * i;
    wire::copy_within(home, gone + 6, gone, 6 * (n - (i + 1)));
    wire::fill(home, 128 + 6 * (n - 1), 6, 0);
    wire::put16(home, 0, n - 1);
}

// Moves the block of class c at a cell to another one, and corrects its tag's entry.
pub fn move_block(home: &mut [u8], step: usize, c: usize, from: usize, to: usize)
    requires c_bound { (c < 30) × (cell_at from + 8 * size_of step c ≤ length home.old) × (cell_at to + 8 * size_of step c ≤ length home.old) }
    requires movable { Movable home.old from }
    ensures { home.new ≡ moved step home.old c from to }
{
    let tag = wire::get32(home, AREA + 8 * from);
    let i = index_of(home, tag);
    let n = 8 * cells(step, c);
    carry(home, AREA + 8 * from, AREA + 8 * to, n);
    set_cell(home, i, to);
}
