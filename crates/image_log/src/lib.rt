// The image's head, and the calls that store: format, commit and recover.
// Nothing here knows what the pages hold.
#![tactic(auto)]

ghost use Rattle.std.specs.Prelude.{◌≡◌, true, [], ◌+◌, ◌*◌, ◌<◌, length, drop, leb};
ghost use Rattle.wire.specs.Bytes.{pick};
ghost use Rattle.redo.specs.Image.{mark, home_at, head_ok, home as home_of, in_range, image_length};
ghost use Rattle.redo.specs.Entry.{changes, Loggable};
ghost use Rattle.redo.specs.Stores.{format_stores, clear_mark, commit_stores};
ghost use Rattle.image_log.specs.Head.{head_of};
ghost use Rattle.image_log.specs.Calls.{answer, after, store, formattable as formattable_as, format_plan, recover_plan, commit_plan, any_bytes};

use redo::meter::Meter;
use redo::{entry, meter, sizes, stages};
use refusals::Refusal;

// How far a call that stores has come, with the number of stores made: done, or cut by its allowance.
#[derive(Clone, Copy, Debug, PartialEq, Eq)]
pub enum Stored {
    Done(usize),
    Cut(usize),
}

// What the mark of an image with a right head says: 0, 165, or spoiled: any other mark, which a store cut halfway can have left.
#[derive(Clone, Copy, Debug, PartialEq, Eq)]
pub enum Mark {
    Clear,
    Committed,
    Spoiled,
}

// Looks at the head, which every image call but format does first. With any mark but 0 all but recover are refused.
pub fn read_head(image: &[u8]) -> Result<Mark, Refusal>
    ensures { result ≡ head_of image.now }
{
    if !sizes::head_ok(image) {
        return Err(Refusal::BadHead);
    }
    Ok(match image[10] {
        0 => Mark::Clear,
        165 => Mark::Committed,
        _ => Mark::Spoiled,
    })
}

// Done or cut, by the stores needed and allowed, with the number made.
fn report(need: usize, n: usize, made: usize) -> Stored
    ensures { result ≡ pick (leb need n) (Stored.Done made) (Stored.Cut made) }
{
    if need <= n {
        Stored::Done(made)
    } else {
        Stored::Cut(made)
    }
}

// Home, the last 26 + R pages, as a part of an image with a right head.
pub fn home_behind(image: &[u8]) -> &[u8]
    requires { head_ok image.now ≡ true }
    ensures result_value { result.now ≡ home_of image.now }
    ensures ref_ptr_value { (result.ref_ptr.0 ≡ image.entry.ref_ptr.0) × (result.ref_ptr.1 ≡ image.entry.ref_ptr.1 + home_at image.now) }
{
    let at = 64 + 66 * wire::get16(image, 4);
    &image[at..]
}

// The same of any image; empty where the head or the length is not right.
pub fn home(image: &[u8]) -> &[u8]
    ensures result_value { result.now ≡ pick (head_ok image.now) (home_of image.now) [] }
    ensures ref_ptr_value { (result.ref_ptr.0 ≡ image.entry.ref_ptr.0) × (result.ref_ptr.1 ≡ image.entry.ref_ptr.1 + pick (head_ok image.now) (home_at image.now) 0) }
{
    if sizes::head_ok(image) {
        home_behind(image)
    } else {
        &image[..0]
    }
}

fn write_format(
    image: &mut [u8],
    capacity: usize,
    pages: usize,
    p: usize,
    v: u8,
    n: usize,
) -> Result<Stored, Refusal>
    requires { (in_range capacity pages ≡ true) × (length image.old ≡ image_length capacity pages) × (p < 64 * (26 + pages)) }
    ensures value { result ≡ answer (store (format_stores capacity pages p v)) n }
    ensures image_after { image.new ≡ after (store (format_stores capacity pages p v)) n image.old }
{
    let need = image.len() + 1;
    let head = sizes::head_page(capacity, pages);
    let mut made = meter::write_at(image, 0, &[0], n);
    made += meter::write_at(image, 1, &head[1..], n - made);
    made += meter::write_rest(image, 64, 64 + 66 * capacity + p, v, n - made);
    made += meter::write_at(image, 0, &head[..1], n - made);
    Ok(report(need, n, made))
}

// Whether the sizes are in range, the image's length is theirs, and offset p lies in home.
fn formattable(image: &[u8], capacity: usize, pages: usize, p: usize) -> bool
    ensures { result ≡ formattable_as image.now capacity pages p }
{
    sizes::in_range(capacity, pages)
        && image.len() == sizes::image_length(capacity, pages)
        && p < 64 * (26 + pages)
}

// Formats the image for L log entries and R record pages. Home is zero but for a byte v at offset p.
pub fn format(
    image: &mut [u8],
    capacity: usize,
    pages: usize,
    p: usize,
    v: u8,
    n: usize,
) -> Result<Stored, Refusal>
    ensures value { result ≡ answer (format_plan image.old capacity pages p v) n }
    ensures image_after { image.new ≡ after (format_plan image.old capacity pages p v) n image.old }
{
    if !formattable(image, capacity, pages, p) {
        return Err(Refusal::Sizes);
    }
    write_format(image, capacity, pages, p, v, n)
}

// With the mark set: replays the log, if it is one that a commit can have left.
fn recover_committed(image: &mut [u8], n: usize) -> Result<Stored, Refusal>
    requires { (head_ok image.old ≡ true) × (mark image.old ≡ 165) }
    ensures value { result ≡ answer (recover_plan image.old) n }
    ensures image_after { image.new ≡ after (recover_plan image.old) n image.old }
{
    let capacity = wire::get16(image, 4);
    let pages = 26 + wire::get16(image, 6);
    let k = wire::get16(image, 8);
    if k == 0 || k > capacity || !entry::rising(image, k, pages) {
        return Err(Refusal::BadLog);
    }
    let meter = stages::recover(image, k, 64 + 66 * capacity, Meter { left: n, made: 0 });
    Ok(report(64 * k + 1, n, meter.made))
}

// With a spoiled mark: stores 0 over it, whatever count, log and home hold.
fn recover_spoiled(image: &mut [u8], n: usize) -> Result<Stored, Refusal>
    requires { head_ok image.old ≡ true }
    ensures value { result ≡ answer (store clear_mark) n }
    ensures image_after { image.new ≡ after (store clear_mark) n image.old }
{
    let made = meter::write_at(image, 10, &[0], n);
    Ok(report(1, n, made))
}

// Finishes a commit that was cut after its mark was stored, or clears a spoiled mark; with the mark clear there is nothing to do.
pub fn recover(image: &mut [u8], n: usize) -> Result<Stored, Refusal>
    ensures value { result ≡ answer (recover_plan image.old) n }
    ensures image_after { image.new ≡ after (recover_plan image.old) n image.old }
{
    match read_head(image)? {
        Mark::Clear => Ok(Stored::Done(0)),
        Mark::Committed => recover_committed(image, n),
        Mark::Spoiled => recover_spoiled(image, n),
    }
}

// Writes the k changed pages to the log and, once the mark is stored, to home.
fn commit_pages(
    image: &mut [u8],
    home: usize,
    space: &[u8],
    pages: usize,
    k: usize,
    n: usize,
) -> Result<Stored, Refusal>
    requires { Loggable image.old home space.now pages k × (0 < k) × (pages < 65536) }
    ensures value { result ≡ answer (store (commit_stores home (changes (drop home image.old) space.now pages))) n }
    ensures image_after { image.new ≡ after (store (commit_stores home (changes (drop home image.old) space.now pages))) n image.old }
{
    let start = Meter { left: n, made: 0 };
    let end = stages::commit(image, home, space, pages, k, start);
    Ok(report(130 * k + 4, n, end.made))
}

// A commit to an image with a right head and mark 0, which the caller has looked at: 6, 13, or the stores.
pub fn commit_clear(image: &mut [u8], space: &[u8], n: usize) -> Result<Stored, Refusal>
    requires { (head_ok image.old ≡ true) × (mark image.old ≡ 0) }
    ensures value { result ≡ answer (commit_plan any_bytes image.old space.now) n }
    ensures image_after { image.new ≡ after (commit_plan any_bytes image.old space.now) n image.old }
{
    let pages = 26 + wire::get16(image, 6);
    if space.len() != 64 * pages {
        return Err(Refusal::SpaceLength);
    }
    let capacity = wire::get16(image, 4);
    let home = 64 + 66 * capacity;
    let k = entry::count_changed(image, home, space, pages);
    if capacity < k {
        return Err(Refusal::LogShort);
    }
    if k == 0 {
        return Ok(Stored::Done(0));
    }
    commit_pages(image, home, space, pages, k, n)
}

// Makes the workspace the image's home, through the log.
pub fn commit(image: &mut [u8], space: &[u8], n: usize) -> Result<Stored, Refusal>
    ensures value { result ≡ answer (commit_plan any_bytes image.old space.now) n }
    ensures image_after { image.new ≡ after (commit_plan any_bytes image.old space.now) n image.old }
{
    match read_head(image)? {
        Mark::Clear => commit_clear(image, space, n),
        Mark::Committed | Mark::Spoiled => Err(Refusal::Unrecovered),
    }
}
