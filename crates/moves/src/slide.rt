// A zone moved as it is to another cell, one block after the other.
ghost use Rattle.std.specs.Prelude.{◌≡◌};
ghost use Rattle.home.specs.Bytes.{decode};
ghost use Rattle.home.specs.Sound.{pages_of};
ghost use Rattle.moves.specs.Slide.{Slides, Going, slid};

use crate::{move_block, set_zone};
use home::lookup::{zone_count, zone_first};
use layout::classes::cells;

// Moves zone c, whose n blocks start at cell f, to start at `to`: its first block first where it goes down, its last
// block first where it goes up.
fn slide_blocks(home: &mut [u8], step: usize, c: usize, f: usize, to: usize, n: usize)
    requires { Going step home.old c f to n }
    ensures { home.new ≡ slid step (pages_of home.old) (decode home.old) c to }
{
    let k = cells(step, c);
    for j in 0..n {
        let i = if to < f { j } else { n - 1 - j };
        move_block(home, step, c, f + i * k, to + i * k);
    }
    set_zone(home, c, to, n);
}

// Moves zone c to start at cell `to`. One that is empty, or there already, stays.
pub fn slide(home: &mut [u8], step: usize, c: usize, to: usize)
    requires { Slides step (pages_of home.old) home.old (decode home.old) c to }
    ensures { home.new ≡ slid step (pages_of home.old) (decode home.old) c to }
{
    let n = zone_count(home, c);
    if n == 0 {
        return;
    }
    let f = zone_first(home, c);
    if f == to {
        return;
    }
    slide_blocks(home, step, c, f, to, n);
}
