// Runs the specification's bench cases 1 to 12 on the calls of the index and prints what is seen: answers,
// each block's cell and class as dictionary and zones have them, pages that differ, stores, and which home a
// recovery finds. Then cases 1 to 7 again with step code 1, and a list that grows there until nothing is left.
#![tactic(auto)]

ghost use Rattle.std.specs.Prelude.{◌<◌};

use gates::Of;
use image_log::Stored;
use records::Record;
use refusals::Refusal;
use std::fmt::{self, Display, Formatter};
use std::io::Write;
use std::rt::Stdout;

// What a call answers, or the number of its refusal.
#[derive(Drop)]
struct Answer<T>(Result<T, Refusal>);

impl<T: Display> Display for Answer<T> {
    fn fmt<W: fmt::Write>(&self, f: &mut Formatter<W>) -> fmt::Result {
        match &self.0 {
            Ok(answer) => write!(f, "{answer}"),
            Err(refusal) => write!(f, "refused {}", u8::from(*refusal)),
        }
    }
}

// How far a call that stores has come.
#[derive(Drop)]
struct Stores(Stored);

impl Display for Stores {
    fn fmt<W: fmt::Write>(&self, f: &mut Formatter<W>) -> fmt::Result {
        match self.0 {
            Stored::Done(n) => write!(f, "done, {n} stores"),
            Stored::Cut(n) => write!(f, "cut, {n} stores"),
        }
    }
}

// What an image is formatted for: log entries, record pages and a step code.
#[derive(Clone, Copy, Debug, PartialEq, Eq)]
struct Sizes {
    capacity: usize,
    pages: usize,
    step: usize,
}

impl Display for Sizes {
    fn fmt<W: fmt::Write>(&self, f: &mut Formatter<W>) -> fmt::Result {
        write!(f, "{}, {}", self.capacity, self.pages)?;
        if self.step != 0 {
            write!(f, ", step {}", self.step)?;
        }
        Ok(())
    }
}

// Those of most cases, and the same with step code 1.
const FINE: Sizes = Sizes {
    capacity: 28,
    pages: 2,
    step: 0,
};

const COARSE: Sizes = Sizes { step: 1, ..FINE };

// ---- blocks

fn get16(s: &[u8], at: usize) -> usize
    ensures { result < 65536 }
{
    match s.get(at..) {
        Some([a, b, ..]) => usize::from(u16::from_be_bytes([*a, *b])),
        _ => 0,
    }
}

fn get32(s: &[u8], at: usize) -> u32 {
    match s.get(at..) {
        Some([a, b, c, d, ..]) => u32::from_be_bytes([*a, *b, *c, *d]),
        _ => 0,
    }
}

fn step_of(space: &[u8]) -> usize {
    space.get(122).map_or(0, |step| usize::from(*step))
}

// Whether a cell is in the zone of class c.
fn in_zone(space: &[u8], c: usize, cell: usize) -> bool
    requires { c < 30 }
{
    let first = get16(space, 2 + 4 * c);
    let size = layout::classes::cells(step_of(space), c);
    first <= cell && (cell - first) / size < get16(space, 4 + 4 * c)
}

// The class of the zone that a cell is in, or 30.
fn class_at(space: &[u8], cell: usize) -> usize {
    (0..30).find(|&c| in_zone(space, c, cell)).unwrap_or(30)
}

// All blocks, in the dictionary's order.
fn blocks(out: &mut Stdout, space: &[u8]) {
    for i in 0..get16(space, 0) {
        let tag = get32(space, 128 + 6 * i);
        let cell = get16(space, 132 + 6 * i);
        let class = class_at(space, cell);
        let _ = write!(out, "; {tag} at {cell} in class {class}");
    }
}

// ---- edits

fn call(second: u32) -> Record {
    Record {
        level: 0,
        second,
        phone: 0,
        minutes: 0,
    }
}

fn edited(
    out: &mut Stdout,
    case: usize,
    edit: &str,
    tag: u32,
    count: Result<usize, Refusal>,
    space: &[u8],
) {
    let _ = write!(out, "{case}. {edit} {tag}: {}", Answer(count));
    blocks(out, space);
    let _ = writeln!(out);
}

fn put(out: &mut Stdout, case: usize, space: &mut [u8], tag: u32, second: u32) {
    let count = index::put(space, tag, call(second));
    edited(out, case, "put", tag, count, space);
}

fn delete(out: &mut Stdout, case: usize, space: &mut [u8], tag: u32, second: u32) {
    let count = index::delete(space, tag, call(second));
    edited(out, case, "delete", tag, count, space);
}

fn drop_tag(out: &mut Stdout, case: usize, space: &mut [u8], tag: u32) {
    let count = index::drop_tag(space, tag);
    edited(out, case, "drop", tag, count, space);
}

// Puts the calls of seconds 1 to 988.
fn put_988(space: &mut [u8], tag: u32) {
    for second in 1..989 {
        let _ = index::put(space, tag, call(second));
    }
}

// ---- images

fn format(out: &mut Stdout, case: usize, image: &mut [u8], sizes: Sizes) {
    let Sizes {
        capacity,
        pages,
        step,
    } = sizes;
    let stores = index::format(image, capacity, pages, step, 100000).map(Stores);
    let _ = write!(out, "{case}. format {sizes}: {}", Answer(stores));
}

// Ends the line with a begin.
fn begin(out: &mut Stdout, image: &[u8], space: &mut [u8]) {
    let begun = index::begin(image, space).map(|()| "done");
    let _ = writeln!(out, "; begin: {}", Answer(begun));
}

// A fresh image and its workspace.
fn start(out: &mut Stdout, case: usize, image: &mut [u8], space: &mut [u8], sizes: Sizes) {
    format(out, case, image, sizes);
    begin(out, image, space);
}

// The pages in which home and workspace differ.
fn pages(out: &mut Stdout, case: usize, image: &[u8], space: &[u8]) {
    let _ = write!(out, "{case}. pages that differ:");
    let home = image_log::home(image);
    for (page, (a, b)) in home.chunks(64).zip(space.chunks(64)).enumerate() {
        if a != b {
            let _ = write!(out, " {page}");
        }
    }
    let _ = writeln!(out);
}

// Which home an image holds.
fn which(home: &[u8], old: &[u8], new: &[u8]) -> &'static str {
    if home == old {
        "old"
    } else if home == new {
        "new"
    } else {
        "neither"
    }
}

fn commit(out: &mut Stdout, case: usize, image: &mut [u8], space: &[u8], n: usize) {
    let stores = index::commit(image, space, n).map(Stores);
    let _ = write!(out, "{case}. commit with {n}: {}", Answer(stores));
}

// What a recovery leaves of a commit, and the count of a tag's list.
fn recover(out: &mut Stdout, image: &mut [u8], old: &[u8], new: &[u8], tag: u32) {
    let stores = Answer(index::recover(image, 100000).map(Stores));
    let home = which(image_log::home(image), old, new);
    let count = Answer(reads::count(Of::Image, image, tag));
    let _ = writeln!(
        out,
        "; recover: {stores}; home is {home}; {tag} has {count}"
    );
}

// A commit with an allowance of n on a copy of an image, and a recovery.
fn attempt(out: &mut Stdout, case: usize, image: &[u8; 3704], space: &[u8], n: usize, tag: u32) {
    let mut tried = *image;
    commit(out, case, &mut tried, space, n);
    recover(out, &mut tried, image_log::home(image), space, tag);
}

// ---- cases

fn cases_1_to_4(out: &mut Stdout, space: &mut [u8]) {
    put(out, 1, space, 7, 1);
    put(out, 1, space, 9, 1);
    put(out, 2, space, 7, 2);
    put(out, 2, space, 7, 3);
    put(out, 2, space, 7, 4);
    put(out, 2, space, 7, 5);
    put(out, 3, space, 11, 1);
    put(out, 4, space, 13, 1);
}

fn cases_5_and_6(out: &mut Stdout, space: &mut [u8]) {
    delete(out, 5, space, 7, 3);
    put(out, 5, space, 13, 1);
    drop_tag(out, 6, space, 9);
    put(out, 6, space, 13, 1);
}

fn case_7(out: &mut Stdout, space: &mut [u8]) {
    put(out, 7, space, 13, 2);
    put(out, 7, space, 13, 3);
    put(out, 7, space, 13, 4);
    put(out, 7, space, 13, 5);
    drop_tag(out, 7, space, 7);
    drop_tag(out, 7, space, 11);
}

fn case_8(out: &mut Stdout, image: &mut [u8; 3704], space: &mut [u8]) {
    start(out, 8, image, space, FINE);
    put(out, 8, space, 7, 1);
    pages(out, 8, image, space);
    attempt(out, 8, image, space, 200, 7);
    attempt(out, 8, image, space, 201, 7);
    attempt(out, 8, image, space, 393, 7);
    attempt(out, 8, image, space, 394, 7);
}

fn case_9(out: &mut Stdout, image: &mut [u8; 3704], space: &mut [u8]) {
    start(out, 9, image, space, FINE);
    put(out, 9, space, 0, 1);
    pages(out, 9, image, space);
    attempt(out, 9, image, space, 263, 0);
    attempt(out, 9, image, space, 264, 0);
}

fn case_10(out: &mut Stdout, space: &mut [u8]) {
    let mut image = [0u8; 1988];
    let sizes = Sizes {
        capacity: 2,
        ..FINE
    };
    start(out, 10, &mut image, space, sizes);
    put(out, 10, space, 7, 1);
    pages(out, 10, &image, space);
    commit(out, 10, &mut image, space, 394);
    let _ = writeln!(out);
}

fn case_11(out: &mut Stdout) {
    let mut image = [0u8; 18178];
    let mut space = [0u8; 18048];
    let sizes = Sizes {
        capacity: 1,
        pages: 256,
        step: 0,
    };
    start(out, 11, &mut image, &mut space, sizes);
    put_988(&mut space, 7);
    put(out, 11, &mut space, 7, 989);
    put(out, 11, &mut space, 7, 990);
    put(out, 11, &mut space, 7, 500);
}

fn case_12(out: &mut Stdout, image: &mut [u8], space: &mut [u8]) {
    start(out, 12, image, space, FINE);
    put(out, 12, space, 7, 1);
    commit(out, 12, image, space, 394);
    begin(out, image, space);
    pages(out, 12, image, space);
    commit(out, 12, image, space, 0);
    let _ = writeln!(out);
}

// ---- step code 1

// A list outgrows its block.
fn outgrow(out: &mut Stdout, space: &mut [u8]) {
    put(out, 13, space, 7, 1);
    put(out, 13, space, 9, 1);
    put(out, 13, space, 7, 2);
    put(out, 13, space, 7, 3);
    put(out, 13, space, 7, 4);
    put(out, 13, space, 7, 5);
}

// Its next block takes two records more. Neither a new tag nor an eighth record has room.
fn case_13(out: &mut Stdout, space: &mut [u8]) {
    outgrow(out, space);
    put(out, 13, space, 11, 1);
    put(out, 13, space, 7, 6);
    put(out, 13, space, 7, 7);
    put(out, 13, space, 7, 8);
}

fn coarse(out: &mut Stdout, image: &mut [u8], space: &mut [u8]) {
    start(out, 1, image, space, COARSE);
    cases_1_to_4(out, space);
    cases_5_and_6(out, space);
    case_7(out, space);
    start(out, 13, image, space, COARSE);
    case_13(out, space);
    format(out, 14, image, Sizes { step: 2, ..FINE });
    let _ = writeln!(out);
}

fn main(rt: HostRuntime) {
    let mut out = rt.stdout();
    let mut image = [0u8; 3704];
    let mut space = [0u8; 1792];
    start(&mut out, 1, &mut image, &mut space, FINE);
    cases_1_to_4(&mut out, &mut space);
    cases_5_and_6(&mut out, &mut space);
    case_7(&mut out, &mut space);
    case_8(&mut out, &mut image, &mut space);
    case_9(&mut out, &mut image, &mut space);
    case_10(&mut out, &mut space);
    case_11(&mut out);
    case_12(&mut out, &mut image, &mut space);
    coarse(&mut out, &mut image, &mut space);
}
