// Gaps closed: higher zones are lowered.
ghost use Rattle.std.specs.Prelude.{◌≡◌, ◌+◌, ◌*◌, ◌<◌};
ghost use Rattle.home.specs.Bytes.{decode};
ghost use Rattle.home.specs.Sound.{pages_of};
ghost use Rattle.moves.specs.Close.{Open, low_bytes, low_end, closed_bytes};

use crate::{move_block, set_zone};
use home::lookup::{zone_count, zone_first};
use layout::classes::cells;

// Lowers zone c while the gap before it, from cell e on, is at least its block size. Answers where the zone ends.
fn close_zone(home: &mut [u8], step: usize, c: usize, e: usize) -> usize
    requires { Open step (pages_of home.old) home.old (decode home.old) c e × (c < 30) }
    ensures { (result ≡ low_end step (decode home.old) c e) × (home.new ≡ low_bytes step (pages_of home.old) (decode home.old) c e) }
{
    let n = zone_count(home, c);
    if n == 0 {
        return e;
    }
    let k = cells(step, c);
    let mut f = zone_first(home, c);
    while e + k <= f {
        f -= k;
        move_block(home, step, c, f + n * k, f);
        set_zone(home, c, f, n);
    }
    f + n * k
}

// Closes the gaps before zones c and up, in rising order; the lower zones end at cell e.
pub fn close_up(home: &mut [u8], step: usize, c: usize, e: usize)
    requires { Open step (pages_of home.old) home.old (decode home.old) c e }
    ensures { home.new ≡ closed_bytes step (pages_of home.old) (decode home.old) c e }
{
    let mut end = e;
    for d in c..30 {
        end = close_zone(home, step, d, end);
    }
}
