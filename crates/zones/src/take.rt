// A block taken out.
ghost use Rattle.std.specs.Prelude.{◌≡◌, ◌+◌, ◌*◌, ◌≤◌, ◌<◌, length};
ghost use Rattle.layout.specs.Capacities.{cells as size_of};
ghost use Rattle.layout.specs.Zones.{take_out};
ghost use Rattle.home.specs.Bytes.{cell_at, encode, decode};
ghost use Rattle.home.specs.Sound.{pages_of};
ghost use Rattle.moves.specs.Moves.{Movable};
ghost use Rattle.zones.specs.Known.{Known, filled, out_bytes};

use home::AREA;
use home::lookup::{zone_count, zone_first};
use layout::classes::cells;
use moves::close::close_up;
use moves::{move_block, remove_entry, set_zone};
use seats::{end_from, first_with};

// The place of a block of class c that is taken out: the zone's last block fills it, or it becomes zero if it is that one.
fn fill_place(home: &mut [u8], step: usize, c: usize, last: usize, p: usize)
    requires c_bound { (c < 30) × (cell_at p + 8 * size_of step c ≤ length home.old) × (cell_at last + 8 * size_of step c ≤ length home.old) }
    requires movable { p < last → Movable home.old last }
    ensures { home.new ≡ filled step home.old c last p }
{
    if p < last {
        move_block(home, step, c, last, p);
    } else {
        wire::fill(home, AREA + 8 * p, 8 * cells(step, c), 0);
    }
}

// Takes the tag's block of class c at cell p out of its zone.
fn remove_block(home: &mut [u8], step: usize, tag: u32, c: usize, p: usize)
    requires { Known step (pages_of home.old) home.old (decode home.old) tag c p }
    ensures { home.new ≡ out_bytes step (pages_of home.old) (decode home.old) tag c }
{
    let f = zone_first(home, c);
    let n = zone_count(home, c) - 1;
    remove_entry(home, tag);
    fill_place(home, step, c, f + n * cells(step, c), p);
    set_zone(home, c, first_with(n, f, 0), n);
}

// Takes the tag's block of class c at cell p out, and closes up.
pub fn take_out(home: &mut [u8], step: usize, tag: u32, c: usize, p: usize)
    requires { Known step (pages_of home.old) home.old (decode home.old) tag c p }
    ensures { home.new ≡ encode step (pages_of home.old) (take_out (size_of step) tag 0 0 (decode home.old)) }
{
    remove_block(home, step, tag, c, p);
    let e = end_from(home, step, 0, 0, c + 1);
    close_up(home, step, c + 1, e);
}
