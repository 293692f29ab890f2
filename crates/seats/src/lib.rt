// A cell for a block, by the same rule for a new block and for one that it displaces.
#![tactic(auto)]

ghost use Rattle.std.specs.Prelude.{◌≡◌, ◌+◌, ◌*◌, ◌-◌, ◌≤◌, ◌<◌, length, MatchOption};
ghost use Rattle.std.specs.Bool.{then_some};
ghost use Rattle.std.proofs.Math.Option.{get_or};
ghost use Rattle.layout.specs.Capacities.{cells as size_of};
ghost use Rattle.wire.specs.Bytes.{is_some};
ghost use Rattle.seats.specs.Seat.{cell_for, first_with, end_from, next_zone, Seatable, seated};

use home::AREA;
use home::lookup::{zone_count, zone_end, zone_first};
use layout::classes::cells;
use moves::{move_block, set_zone};

// Where a block of k cells goes, in a zone with n others from cell f on: to their end, or to the lower zones' end e.
fn cell_for(e: usize, f: usize, n: usize, k: usize) -> usize
    requires { cell_for e f n k < 4294967296 }
    ensures { result ≡ cell_for e f n k }
{
    if n == 0 { e } else { f + n * k }
}

// The zone's first cell then, if p is that cell.
pub fn first_with(n: usize, f: usize, p: usize) -> usize
    ensures { result ≡ first_with n f p }
{
    if n == 0 { p } else { f }
}

// Where the zones below class k end, if those below class c end at e: the last nonempty end is carried along.
pub fn end_from(home: &[u8], step: usize, c: usize, e: usize, k: usize) -> usize
    requires { (c ≤ k) × (k ≤ 30) × (1664 ≤ length home.now) }
    ensures { result ≡ end_from step (k - c) home.now c e }
{
    let mut end = e;
    for d in c..k {
        end = zone_end(home, step, d, end);
    }
    end
}

// The next nonempty zone from class c on.
fn next_zone(home: &[u8], c: usize) -> Option<usize>
    requires { (c ≤ 30) × (1664 ≤ length home.now) }
    ensures { MatchOption result (next_zone (30 - c) home.now c ≡ 30) (λ d. (d ≡ next_zone (30 - c) home.now c) × (d < 30)) }
{
    (c..30).find(|&d| 0 < zone_count(home, d))
}

// The cell of a block of class c, in a zone with n others from cell f on, where the lower zones end at e. If the next higher nonempty zone
// is in the way, its first block is placed by the same rule, and moves once its cell is known. Nothing is stored where there is no room.
pub fn seat(home: &mut [u8], step: usize, c: usize, f: usize, n: usize, e: usize) -> Option<usize>
    requires { Seatable step home.old c f n e }
    ensures value { result ≡ then_some (is_some (seated step home.old c f n e)) (cell_for e f n (size_of step c)) }
    ensures home_after { home.new ≡ get_or (seated step home.old c f n e) home.old }
{
    let k = cells(step, c);
    let p = cell_for(e, f, n, k);
    let end = p + k;
    let Some(d) = next_zone(home, c + 1) else {
        return (AREA + 8 * end <= home.len()).then_some(p);
    };
    let first = zone_first(home, d);
    if end <= first {
        return Some(p);
    }
    let next = first + cells(step, d);
    let others = zone_count(home, d) - 1;
    let q = seat(home, step, d, next, others, end)?;
    move_block(home, step, d, first, q);
    set_zone(home, d, first_with(others, next, q), others + 1);
    Some(p)
}
