// Cuts a commit of three changed pages at every store, and each recovery of what it left. The byte
// of the store that was cut then holds 0, 165, what stood there, what was meant, or 9. After each a
// recovery finishes: the program counts how often that finds the old home, the new one, and anything
// else, by how far the commit had come with its mark. Then it tries all 256 values at each of the
// four stores to the mark.
#![tactic(auto)]

ghost use Rattle.std.specs.Prelude.{◌<◌};

use image_log::Stored;
use std::io::Write;
use std::rt::Stdout;

// An image of 28 log entries and 2 record pages.
type Image = [u8; 3704];

// The home that the commit finds, and the one that it stores.
#[derive(Clone, Copy)]
struct Homes<'a> {
    old: &'a [u8],
    new: &'a [u8],
}

// How often a recovery that finished found the old home, the new one, and anything else.
#[derive(Clone, Copy, Debug, Default, PartialEq, Eq)]
struct Ends {
    old: usize,
    new: usize,
    other: usize,
}

// The pages in which the two homes differ.
fn page(j: usize) -> usize
    ensures { result < 27 }
{
    match j {
        0 => 0,
        1 => 2,
        _ => 26,
    }
}

// Where the commit's next store goes, n of its 394 made: the log, the count, the mark, home, the mark.
fn next_store(n: usize) -> usize
    ensures { result < 3704 }
{
    match n {
        0..=197 => 64 + n,
        198..=200 => n - 190,
        201..=392 => {
            let i = n - 201;
            1912 + 64 * page(i / 64) + i % 64
        },
        _ => 10,
    }
}

// The five values that a byte caught may hold.
fn value(i: usize, stood: u8, meant: u8) -> u8 {
    match i {
        0 => 0,
        1 => 165,
        2 => stood,
        3 => meant,
        _ => 9,
    }
}

// A recovery with all its stores, counted by the home that it leaves.
fn finish(image: &mut Image, homes: Homes, ends: &mut Ends) {
    let done = matches!(image_log::recover(image, 193), Ok(Stored::Done(_)));
    let home = image_log::home(image);
    let found = if done && home == homes.old {
        &mut ends.old
    } else if done && home == homes.new {
        &mut ends.new
    } else {
        &mut ends.other
    };
    *found = found.saturating_add(1);
}

// The stores that a recovery makes, by the mark.
fn need(mark: u8) -> usize
    ensures { result < 194 }
{
    match mark {
        0 => 0,
        165 => 193,
        _ => 1,
    }
}

// A recovery cut at m stores, the byte of the next one caught, and then one that finishes.
fn recovery_caught(image: &Image, m: usize, i: usize, homes: Homes, ends: &mut Ends)
    requires { m < 193 }
{
    let at = next_store(394 - need(image[10]) + m);
    let mut tried = *image;
    let _ = image_log::recover(&mut tried, m + 1);
    let meant = tried[at];
    tried = *image;
    let _ = image_log::recover(&mut tried, m);
    tried[at] = value(i, tried[at], meant);
    finish(&mut tried, homes, ends);
}

// Each cut of a recovery with each of the five values, and a recovery that is not cut.
fn recoveries(image: &mut Image, homes: Homes, ends: &mut Ends) {
    for m in 0..need(image[10]) {
        for i in 0..5 {
            recovery_caught(image, m, i, homes, ends);
        }
    }
    finish(image, homes, ends);
}

// An image whose home is the old one, after a commit of the new one cut at n stores.
fn commit_cut(image: &mut Image, homes: Homes, n: usize) {
    let _ = image_log::format(image, 28, 2, 0, 0, 10000);
    let _ = image_log::commit(image, homes.old, 10000);
    let _ = image_log::commit(image, homes.new, n);
}

// A commit cut at n stores, the byte of the next one caught, and then each recovery.
fn commit_caught(n: usize, i: usize, homes: Homes, ends: &mut Ends)
    requires { n < 394 }
{
    let at = next_store(n);
    let mut cut = [0u8; 3704];
    let mut whole = cut;
    commit_cut(&mut cut, homes, n);
    commit_cut(&mut whole, homes, n + 1);
    cut[at] = value(i, cut[at], whole[at]);
    recoveries(&mut cut, homes, ends);
}

fn line(out: &mut Stdout, word: &str, ends: Ends) {
    let _ = writeln!(
        out,
        "{word}: old {}, new {}, other {}",
        ends.old, ends.new, ends.other
    );
}

// Each cut of the commit from one number of stores up to another, with each of the five values.
fn commits(out: &mut Stdout, word: &str, from: usize, to: usize, homes: Homes)
    requires { to < 395 }
{
    let mut ends = Ends::default();
    for n in from..to {
        for i in 0..5 {
            commit_caught(n, i, homes, &mut ends);
        }
    }
    line(out, word, ends);
}

// The commit's two stores to the mark, a recovery's last and the one over a spoiled mark, caught with v.
fn mark_caught(v: u8, homes: Homes, ends: &mut Ends) {
    let mut image = [0u8; 3704];
    commit_cut(&mut image, homes, 200);
    image[10] = v;
    recoveries(&mut image, homes, ends);
    commit_cut(&mut image, homes, 393);
    image[10] = v;
    recoveries(&mut image, homes, ends);
    commit_cut(&mut image, homes, 201);
    let _ = image_log::recover(&mut image, 192);
    image[10] = v;
    recoveries(&mut image, homes, ends);
    commit_cut(&mut image, homes, 200);
    image[10] = 9;
    let _ = image_log::recover(&mut image, 0);
    image[10] = v;
    recoveries(&mut image, homes, ends);
}

fn every_value(out: &mut Stdout, homes: Homes) {
    let mut ends = Ends::default();
    for v in 0..=255u8 {
        mark_caught(v, homes, &mut ends);
    }
    line(out, "any value in the mark", ends);
}

fn main(rt: HostRuntime) {
    let mut out = rt.stdout();
    let mut old = [0u8; 1792];
    old[0] = 3;
    old[1791] = 165;
    let mut new = old;
    new[63] = 1;
    new[128] = 255;
    new[1664] = 7;
    let homes = Homes {
        old: &old,
        new: &new,
    };
    commits(&mut out, "mark not begun", 0, 200, homes);
    commits(&mut out, "mark caught", 200, 201, homes);
    commits(&mut out, "mark stored", 201, 394, homes);
    every_value(&mut out, homes);
}
