// All zones laid out afresh, without gaps, where placing finds no room.
ghost use Rattle.std.specs.Prelude.{◌≡◌, ◌≤◌, take};
ghost use Rattle.layout.specs.Capacities.{cells as size_of};
ghost use Rattle.layout.specs.Zones.{total as total_of};
ghost use Rattle.wire.specs.Bytes.{is_some};
ghost use Rattle.home.specs.Bytes.{step_of, encode, decode};
ghost use Rattle.home.specs.Sound.{pages_of};
ghost use Rattle.moves.specs.Stored.{Stored, settled};
ghost use Rattle.zones.specs.Place.{Placeable};
ghost use Rattle.zones.specs.Afresh.{lower_laid, higher_laid, Layable, laid_in, settled_in};

use crate::place::{place, put_block};
use home::AREA;
use home::lookup::{step_of, zone_count, zone_first};
use layout::classes::{cells, class_of};
use moves::slide::slide;

// The sizes of all blocks, in cells.
pub fn total(home: &[u8], step: usize) -> usize
    requires { Stored step home.now }
    ensures { (result ≡ total_of (size_of step) 0 (decode home.now)) × (result ≤ 8192) }
{
    let mut sum = 0;
    for c in 0..30 {
        sum += zone_count(home, c) * cells(step, c);
    }
    sum
}

// Lays the zones below class c out without gaps from cell 0 on, the lowest one first. Answers where they end.
fn lay_below(home: &mut [u8], step: usize, c: usize) -> usize
    requires { Stored step home.old × (c ≤ 30) }
    ensures value { (result ≡ total_of (size_of step) 0 (take c (decode home.old))) × (result ≤ 8192) }
    ensures home_after { home.new ≡ encode step (pages_of home.old) (lower_laid step (decode home.old) c) }
{
    let mut e = 0;
    for d in 0..c {
        let n = zone_count(home, d);
        slide(home, step, d, e);
        e += n * cells(step, d);
    }
    e
}

// Lays zones c and up out without gaps from cell e on. A zone that goes down moves before the higher ones, one that goes up after them, so
// that each block moves at most once.
fn lay_from(home: &mut [u8], step: usize, c: usize, e: usize)
    requires { Layable step home.old c e }
    ensures { home.new ≡ encode step (pages_of home.old) (higher_laid step (decode home.old) c e) }
{
    if c == 30 {
        return;
    }
    let next = e + zone_count(home, c) * cells(step, c);
    if e <= zone_first(home, c) {
        slide(home, step, c, e);
        lay_from(home, step, c + 1, next);
    } else {
        lay_from(home, step, c + 1, next);
        slide(home, step, c, e);
    }
}

// Lays all zones out afresh, with a block with this list for a tag that has none. Nothing is stored where the sizes of all blocks add up to
// more than the area.
fn lay_afresh(home: &mut [u8], tag: u32, list: &[u8]) -> bool
    requires { Placeable home.old tag list.now }
    ensures { (result ≡ is_some (laid_in home.old tag list.now)) × (home.new ≡ settled (step_of home.old) (pages_of home.old) home.old (laid_in home.old tag list.now)) }
{
    let step = step_of(home);
    let c = class_of(step, list.len() / 8);
    let k = cells(step, c);
    let area = (home.len() - AREA) / 8;
    if area < total(home, step) + k {
        return false;
    }
    let p = lay_below(home, step, c + 1);
    lay_from(home, step, c + 1, p + k);
    put_block(home, step, c, p, tag, list);
    true
}

// Places a block with this list for a tag that has none, or lays all zones out afresh with it. Nothing is stored where the sizes of all blocks
// add up to more than the area.
pub fn settle(home: &mut [u8], tag: u32, list: &[u8]) -> bool
    requires { Placeable home.old tag list.now }
    ensures { (result ≡ is_some (settled_in home.old tag list.now)) × (home.new ≡ settled (step_of home.old) (pages_of home.old) home.old (settled_in home.old tag list.now)) }
{
    place(home, tag, list) || lay_afresh(home, tag, list)
}
