// A block placed, from a class up given the end of the zones below it.
ghost use Rattle.std.specs.Prelude.{◌≡◌, ◌+◌, ◌*◌, ◌≤◌, ◌<◌, length};
ghost use Rattle.std.proofs.Math.Option.{get_or};
ghost use Rattle.wire.specs.Bytes.{over, is_some};
ghost use Rattle.layout.specs.Capacities.{cells as size_of};
ghost use Rattle.home.specs.Bytes.{step_of, cell_at};
ghost use Rattle.home.specs.Sound.{pages_of};
ghost use Rattle.moves.specs.Stored.{settled};
ghost use Rattle.zones.specs.Place.{whole_block, RoomAt, with_block, From, placed_from, placed_in, Placeable};

use home::AREA;
use home::lookup::{step_of, zone_count, zone_first};
use layout::classes::{cells, class_of};
use moves::{insert_entry, set_zone};
use seats::{end_from, first_with, seat};

// Writes a whole block of class c at cell p: its header, its list, and zeros to its end.
fn write_block(home: &mut [u8], step: usize, c: usize, p: usize, tag: u32, list: &[u8])
    requires { (c < 30) × (cell_at p + 8 * size_of step c ≤ length home.old) × (length list.now + 8 ≤ 8 * size_of step c) }
    ensures { home.new ≡ over home.old (cell_at p) (whole_block step c tag list.now) }
{
    let at = AREA + 8 * p;
    let n = list.len();
    let free = 8 * cells(step, c) - 8 - n;
    wire::put32(home, at, tag);
    wire::put16(home, at + 4, n / 8);
    wire::put16(home, at + 6, 0);
    wire::copy(home, at + 8, list);
    wire::fill(home, at + 8 + n, free, 0);
}

// Writes a block of class c at cell p, where there is room for it, its tag's entry, and its zone's.
pub fn put_block(home: &mut [u8], step: usize, c: usize, p: usize, tag: u32, list: &[u8])
    requires { RoomAt step home.old c p tag list.now }
    ensures { home.new ≡ with_block step home.old c p tag list.now }
{
    let n = zone_count(home, c);
    let f = zone_first(home, c);
    write_block(home, step, c, p, tag, list);
    insert_entry(home, tag, p);
    let first = first_with(n, f, p);
    set_zone(home, c, first, n + 1);
}

// Places a block with this list, of class c or above, where the zones below class c end at cell `end`. Of the zone table only the entries
// from class c up are read and written. Nothing is stored where there is no room.
pub fn place_from(home: &mut [u8], step: usize, c: usize, end: usize, tag: u32, list: &[u8]) -> bool
    requires { From step home.old c end list.now }
    ensures value { result ≡ is_some (placed_from step home.old c end tag list.now) }
    ensures home_after { home.new ≡ get_or (placed_from step home.old c end tag list.now) home.old }
{
    let k = class_of(step, list.len() / 8);
    let e = end_from(home, step, c, end, k);
    let f = zone_first(home, k);
    let n = zone_count(home, k);
    let Some(p) = seat(home, step, k, f, n, e) else {
        return false;
    };
    put_block(home, step, k, p, tag, list);
    true
}

// Places a block with this list for a tag that has none. Nothing is stored where there is no room.
pub fn place(home: &mut [u8], tag: u32, list: &[u8]) -> bool
    requires { Placeable home.old tag list.now }
    ensures { (result ≡ is_some (placed_in home.old tag list.now)) × (home.new ≡ settled (step_of home.old) (pages_of home.old) home.old (placed_in home.old tag list.now)) }
{
    let step = step_of(home);
    place_from(home, step, 0, 0, tag, list)
}
