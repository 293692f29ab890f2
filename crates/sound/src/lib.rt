// The test whether bytes are a sound home, in one pass over them.
#![tactic(auto)]

ghost use Rattle.std.specs.Prelude.{◌≡◌, true, ◌&&◌, ◌+◌, ◌*◌, ◌^◌, ◌≤◌, ◌<◌, length, eqb};
ghost use Rattle.wire.specs.Bytes.{part, blank, get16};
ghost use Rattle.records.specs.Records.{rising as ordered, records};
ghost use Rattle.layout.specs.Capacities.{capacity as capacity_of, under as under_of, cells as cells_of};
ghost use Rattle.home.specs.Bytes.{step_of, cell_at, tag_at};
ghost use Rattle.home.specs.Sound.{sized as sized_of, sound as is_sound, bare as bare_in};
ghost use Rattle.sound.specs.Checks.{coded as coded_in, block_fine, blocks_fine, lies as lies_in, zone_fine, zones_fine, many_in, tags_fine, leads_at, entry_fine};

use home::AREA;
use home::lookup::{step_of, zone_count, zone_first};
use layout::classes::{capacity, cells, class_of, under};

// Whether n bytes from an offset on are zero.
fn zeros(home: &[u8], at: usize, n: usize) -> bool
    requires { at + n ≤ length home.now }
    ensures { result ≡ blank (part home.now at n) }
{
    let end = at + n;
    wire::all_zero(&home[at..end])
}

// Whether n records from an offset on are strictly rising.
fn rising(home: &[u8], at: usize, n: usize) -> bool
    requires { at + 8 * n ≤ length home.now }
    ensures { result ≡ ordered (records home.now at n) }
{
    let end = at + 8 * n;
    records::rising(&home[at..end])
}

// Whether a zone of `many` blocks lies behind the lower zones, which end at cell e, with a gap of less
// than a block, and inside the area.
fn lies(first: usize, many: usize, size: usize, e: usize, area: usize) -> bool
    requires { (first < 65536) × (many < 65536) × (size ≤ 990) × (e + size < 2 ^ 64) }
    ensures { result ≡ lies_in area e size first many }
{
    (e <= first) & ((first < e + size) & (first + many * size <= area))
}

// A home under test, with its step code and the cells of its area, all of which lie in it.
#[derive(Clone, Copy)]
struct Test<'a> {
    home: &'a [u8],
    step: usize,
    area: usize,
    ghost inside: { cell_at area ≤ length home.now },
}

impl Test<'_> {
    // A block of zone c at cell p, where the zone's blocks have more than `low` records, and at most `room`.
    fn block_fine(&self, c: usize, low: usize, room: usize, p: usize) -> bool
        requires { (c < 30) × (low ≡ under_of self.now.step c) × (room ≡ capacity_of self.now.step c) × (cell_at p + 8 * cells_of self.now.step c ≤ length self.now.home.now) }
        ensures { result ≡ block_fine self.now.step self.now.home.now c p }
    {
        let at = AREA + 8 * p;
        let n = wire::get16(self.home, at + 4);
        if n <= low {
            return false;
        }
        if room < n {
            return false;
        }
        if wire::get16(self.home, at + 6) != 0 {
            return false;
        }
        if !rising(self.home, at + 8, n) {
            return false;
        }
        zeros(self.home, at + 8 + 8 * n, 8 * (room - n))
    }

    // The n blocks of zone c from cell p on.
    fn blocks_fine(&self, c: usize, p: usize, n: usize) -> bool
        requires { (c < 30) × (cell_at (p + n * cells_of self.now.step c) ≤ length self.now.home.now) }
        ensures { result ≡ blocks_fine self.now.step self.now.home.now c p n }
    {
        let low = under(self.step, c);
        let room = capacity(self.step, c);
        let size = cells(self.step, c);
        for i in 0..n {
            if !self.block_fine(c, low, room, p + i * size) {
                return false;
            }
        }
        true
    }

    // Zone c, where the lower zones end at cell e.
    fn zone_fine(&self, c: usize, e: usize) -> bool
        requires { (c < 30) × (e ≤ self.now.area) }
        ensures { result ≡ zone_fine self.now.step self.now.home.now self.now.area c e }
    {
        let first = zone_first(self.home, c);
        let many = zone_count(self.home, c);
        if many == 0 {
            return first == 0;
        }
        lies(first, many, cells(self.step, c), e, self.area)
            && zeros(self.home, AREA + 8 * e, 8 * (first - e))
            && self.blocks_fine(c, first, many)
    }

    // All zones and the cells behind them, with n blocks in all. An entry of zeros is an empty zone's.
    fn zones_fine(&self, n: usize) -> bool
        ensures { result ≡ zones_fine self.now.step self.now.home.now self.now.area 0 0 30 && eqb (many_in self.now.home.now 0 30) n }
    {
        let mut many = 0;
        let mut e = 0;
        for c in 0..30 {
            if wire::get32(self.home, 2 + 4 * c) != 0 {
                if !self.zone_fine(c, e) {
                    return false;
                }
                let blocks = zone_count(self.home, c);
                many += blocks;
                e = zone_first(self.home, c) + blocks * cells(self.step, c);
            }
        }
        zeros(self.home, AREA + 8 * e, 8 * (self.area - e)) & (many == n)
    }

    // Whether p is a block's first cell. The block there gives its class, so that one zone is looked at.
    fn leads_at(&self, p: usize) -> bool
        ensures { result ≡ leads_at self.now.step self.now.home.now self.now.area p }
    {
        if self.area <= p {
            return false;
        }
        let n = wire::get16(self.home, AREA + 8 * p + 4);
        if 990 <= n {
            return false;
        }
        let c = class_of(self.step, n);
        let first = zone_first(self.home, c);
        let many = zone_count(self.home, c);
        let size = cells(self.step, c);
        if p < first {
            return false;
        }
        if first + many * size <= p {
            return false;
        }
        (p - first) % size == 0
    }

    // The i-th entry, which has this tag: it is not below `low`, and leads to a block with it.
    fn entry_fine(&self, low: u64, tag: u32, i: usize) -> bool
        requires { (i < 256) × (tag ≡ tag_at self.now.home.now i) }
        ensures { result ≡ entry_fine self.now.step self.now.home.now self.now.area low i }
    {
        let p = wire::get16(self.home, 128 + 6 * i + 4);
        low <= u64::from(tag) && self.leads_at(p) && wire::get32(self.home, AREA + 8 * p) == tag
    }

    // The dictionary's n entries.
    fn tags_fine(&self, n: usize) -> bool
        requires { (n ≤ 256) × (zones_fine self.now.step self.now.home.now self.now.area 0 0 30 ≡ true) }
        ensures { result ≡ tags_fine self.now.step self.now.home.now 0 0 n }
    {
        let mut low: u64 = 0;
        for i in 0..n {
            let tag = wire::get32(self.home, 128 + 6 * i);
            if !self.entry_fine(low, tag, i) {
                return false;
            }
            low = u64::from(tag) + 1;
        }
        true
    }
}

// Whether the length is 64(26 + R), R from 1 to 1,024.
pub fn sized(home: &[u8]) -> bool
    ensures { result ≡ sized_of home.now }
{
    let n = home.len();
    if n < 1728 {
        return false;
    }
    let pages = n / 64 - 26;
    (pages <= 1024) & (n == 64 * (26 + pages))
}

// Whether the step code is one of the two, with zeros behind it.
fn coded(home: &[u8]) -> bool
    requires { 1664 ≤ length home.now }
    ensures { result ≡ coded_in home.now }
{
    (step_of(home) <= 1) & zeros(home, 123, 5)
}

// Whether all bytes are zero but for the step code: in one pass where that is zero, too.
fn bare(home: &[u8]) -> bool
    requires { 1664 ≤ length home.now }
    ensures { result ≡ bare_in home.now }
{
    let step = step_of(home);
    if step == 0 {
        return wire::all_zero(home);
    }
    if !zeros(home, 0, 122) {
        return false;
    }
    (step <= 1) & zeros(home, 123, home.len() - 123)
}

// Whether a home of n tags is sound.
fn tagged(home: &[u8], step: usize, n: usize) -> bool
    requires { (sized_of home.now ≡ true) × (n ≡ get16 home.now 0) × (step ≡ step_of home.now) }
    ensures { result ≡ is_sound home.now }
{
    let area = 8 * (home.len() / 64 - 26);
    let test = Test { home, step, area };
    if 256 < n {
        return false;
    }
    if !coded(home) {
        return false;
    }
    if !test.zones_fine(n) {
        return false;
    }
    if !test.tags_fine(n) {
        return false;
    }
    zeros(home, 128 + 6 * n, 1536 - 6 * n)
}

// Whether bytes are a sound home. One without tags has zeros alone, but for its step code.
pub fn sound(home: &[u8]) -> bool
    ensures { result ≡ is_sound home.now }
{
    if !sized(home) {
        return false;
    }
    let n = wire::get16(home, 0);
    if n == 0 {
        bare(home)
    } else {
        tagged(home, step_of(home), n)
    }
}
