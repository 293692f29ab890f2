// Log entries: checking, replaying and writing them. What stores is told how many stores are left, and answers how many it made.
ghost use Rattle.std.specs.Prelude.{◌≡◌, ◌∷◌, [], ◌++◌, ◌+◌, ◌*◌, ◌≤◌, ◌<◌, length, drop};
ghost use Rattle.wire.specs.Bytes.{bytes16, equal};
ghost use Rattle.redo.specs.Store.{run};
ghost use Rattle.redo.specs.Entry.{page, entry_at, entry, entries, rising as rising_from, changes, logged, replay as replayed, Replayable, Loggable};
ghost use Rattle.redo.specs.Stores.{recover_stores, log_stores};
ghost use Rattle.redo.specs.Stage.{Makes};

use crate::meter;

// The first k entries' page numbers are below limit, each above the one before.
pub fn rising(image: &[u8], k: usize, limit: usize) -> bool
    requires { entry_at k ≤ length image.now }
    ensures { result ≡ rising_from 0 limit (entries image.now 0 k) }
{
    let mut low = 0;
    for j in 0..k {
        let p = wire::get16(image, 64 + 66 * j);
        if !(low..limit).contains(&p) {
            return false;
        }
        low = p + 1;
    }
    true
}

// Stores entry j's page to its place in home.
fn replay_one(image: &mut [u8], j: usize, home: usize, left: usize) -> usize
    requires { (entry_at j + 66 ≤ length image.old) × (home + 64 * (entry image.old j).page + 64 ≤ length image.old) }
    ensures { Makes left (replayed home (entry image.old j ∷ [])) image.old result image.new }
{
    let p = wire::get16(image, 64 + 66 * j);
    let at = 64 + 66 * j + 2;
    let bytes: [u8; 64] = image[at..at + 64].try_into().unwrap();
    meter::write_at(image, home + 64 * p, &bytes, left)
}

// Stores the first k entries' pages to home, in order.
fn replay(image: &mut [u8], k: usize, home: usize, left: usize) -> usize
    requires { Replayable image.old home k }
    ensures { Makes left (replayed home (entries image.old 0 k)) image.old result image.new }
{
    let mut made = 0;
    for j in 0..k {
        made += replay_one(image, j, home, left - made);
    }
    made
}

// Replays the log of k entries and clears the mark: all that recover does, and commit once its mark is stored.
// With no store left it reads nothing: the log may be cut.
pub(crate) fn replay_log(image: &mut [u8], k: usize, home: usize, left: usize) -> usize
    requires { 0 < left → Replayable image.old home k }
    ensures { Makes left (recover_stores home (entries image.old 0 k)) image.old result image.new }
{
    if left == 0 {
        return 0;
    }
    let made = replay(image, k, home, left);
    made + meter::write_at(image, 10, &[0], left - made)
}

// Page p of home bytes or of a workspace.
fn page_at(bytes: &[u8], p: usize) -> &[u8]
    requires { 64 * p + 64 ≤ length bytes.now }
    ensures { result.now ≡ page bytes.now p }
{
    &bytes[64 * p..64 * p + 64]
}

fn same_page(image: &[u8], home: usize, space: &[u8], p: usize) -> bool
    requires { (home + 64 * p + 64 ≤ length image.now) × (64 * p + 64 ≤ length space.now) }
    ensures { result ≡ equal (page (drop home image.now) p) (page space.now p) }
{
    wire::equal(page_at(&image[home..], p), page_at(space, p))
}

// The number of pages in which the workspace differs from home.
pub fn count_changed(image: &[u8], home: usize, space: &[u8], pages: usize) -> usize
    requires { (home + 64 * pages ≤ length image.now) × (64 * pages ≤ length space.now) }
    ensures { result ≡ length (changes (drop home image.now) space.now pages) }
{
    let mut k = 0;
    for p in 0..pages {
        if !same_page(image, home, space, p) {
            k += 1;
        }
    }
    k
}

// Writes page p of the workspace as a log entry at an offset: its number, then its bytes.
fn log_entry(image: &mut [u8], at: usize, space: &[u8], p: usize, left: usize) -> usize
    requires { (at + 66 ≤ length image.old) × (64 * p + 64 ≤ length space.now) }
    ensures { Makes left (run at (bytes16 p ++ page space.now p)) image.old result image.new }
{
    let made = meter::write_at(image, at, &wire::bytes16(p), left);
    made + meter::write_at(image, at + 2, page_at(space, p), left - made)
}

// Writes the entries of all pages that differ.
fn log_pages(image: &mut [u8], home: usize, space: &[u8], pages: usize, left: usize) -> usize
    requires { (home + 64 * pages ≤ length image.old) × (64 * pages ≤ length space.now) × (entry_at (length (changes (drop home image.old) space.now pages)) ≤ home) }
    ensures { Makes left (logged 0 (changes (drop home image.old) space.now pages)) image.old result image.new }
{
    let mut made = 0;
    let mut k = 0;
    for p in 0..pages {
        if !same_page(image, home, space, p) {
            made += log_entry(image, 64 + 66 * k, space, p, left - made);
            k += 1;
        }
    }
    made
}

// Writes the count of a log's k entries, and the mark.
fn mark_log(image: &mut [u8], k: usize, left: usize) -> usize
    requires { 11 ≤ length image.old }
    ensures { Makes left (run 8 (bytes16 k) ++ run 10 (165 ∷ [])) image.old result image.new }
{
    let made = meter::write_at(image, 8, &wire::bytes16(k), left);
    made + meter::write_at(image, 10, &[165], left - made)
}

// Writes the whole log: the entries of the k pages that differ, their count, and the mark.
pub(crate) fn write_log(
    image: &mut [u8],
    home: usize,
    space: &[u8],
    pages: usize,
    k: usize,
    left: usize,
) -> usize
    requires { Loggable image.old home space.now pages k }
    ensures { Makes left (log_stores (changes (drop home image.old) space.now pages)) image.old result image.new }
{
    let made = log_pages(image, home, space, pages, left);
    made + mark_log(image, k, left - made)
}
