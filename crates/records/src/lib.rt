// Records of calls and lists of them in bytes, ordered by level, then second, then phone.
#![tactic(auto)]

ghost use Rattle.std.specs.Prelude.{◌≡◌, true, ◌+◌, ◌*◌, ◌/◌, ◌≤◌, ◌<◌, length};
ghost use Rattle.wire.specs.Bytes.{over};
ghost use Rattle.records.specs.Cells.{CellsOf};
ghost use Rattle.records.specs.Records.{key, record_at, bytes_of, decode, rising as ordered, ranked, below, inserted, removed, amended};

// A call on record. Level, second and phone are its primary part.
#[derive(Clone, Copy, Debug, PartialEq, Eq)]
pub struct Record {
    pub level: u8,
    pub second: u32,
    pub phone: u16,
    pub minutes: u8,
}

// A record's primary part as one number.
pub fn key_of(r: Record) -> u64
    ensures { result ≡ key r }
{
    u64::from(r.level) * 281474976710656 + u64::from(r.second) * 65536 + u64::from(r.phone)
}

// The 8 bytes of each record.
fn cells(s: &[u8]) -> &[[u8; 8]]
    ensures { CellsOf s.now result.now }
{
    s.as_chunks().0
}

// The key of a record's 8 bytes, which the compiler reads at once.
fn key_in(cell: &[u8; 8]) -> u64
    ensures value { result ≡ key (record_at cell.now 0) }
    ensures upper_bound { result < 72057594037927936 }
{
    u64::from_be_bytes(*cell) / 256
}

// The key of the i-th record.
pub fn key_at(s: &[u8], i: usize) -> u64
    requires { 8 * i + 8 ≤ length s.now }
    ensures { (result ≡ key (record_at s.now (8 * i))) × (result < 72057594037927936) }
{
    key_in(&cells(s)[i])
}

// The i-th record.
pub fn record_at(s: &[u8], i: usize) -> Record
    requires { 8 * i + 8 ≤ length s.now }
    ensures { result ≡ record_at s.now (8 * i) }
{
    let at = 8 * i;
    Record {
        level: s[at],
        second: wire::get32(s, at + 1),
        phone: wire::get16(s, at + 5) as u16,
        minutes: s[at + 7],
    }
}

// Writes a record's bytes at an offset.
pub fn store(s: &mut [u8], at: usize, r: Record)
    requires { at + 8 ≤ length s.old }
    ensures { s.new ≡ over s.old at (bytes_of r) }
{
    s[at] = r.level;
    wire::put32(s, at + 1, r.second);
    wire::put16(s, at + 5, r.phone as usize);
    s[at + 7] = r.minutes;
}

// Whether records are strictly rising by their primary parts. The loop has no early exit, so that it
// can be vectorised.
pub fn rising(s: &[u8]) -> bool
    ensures { result ≡ ordered (decode s.now) }
{
    let Some((first, others)) = cells(s).split_first() else {
        return true;
    };
    let mut ok = true;
    let mut last = key_in(first);
    for cell in others {
        let next = key_in(cell);
        ok = ok & (last < next);
        last = next;
    }
    ok
}

// Where a key stands in a rising list, or would stand: the records before it. Found by halving.
pub fn search(s: &[u8], key: u64) -> Result<usize, usize>
    requires { ordered (decode s.now) ≡ true }
    ensures { result ≡ ranked key (decode s.now) }
{
    let list = cells(s);
    let i = list.partition_point(|cell| key_in(cell) < key);
    if i < list.len() && key_in(&list[i]) == key {
        Ok(i)
    } else {
        Err(i)
    }
}

// Counts the records of a rising list before a key, which the search tells whether it is there or not.
pub fn count_before(s: &[u8], key: u64) -> usize
    requires { ordered (decode s.now) ≡ true }
    ensures { result ≡ below key (decode s.now) }
{
    match search(s, key) {
        Ok(i) => i,
        Err(i) => i,
    }
}

// Puts a record in at a rank of a list that has a free cell behind it.
pub fn insert(s: &mut [u8], i: usize, r: Record)
    requires { 8 * i + 8 ≤ length s.old }
    ensures { s.new ≡ inserted s.old i r }
{
    let at = 8 * i;
    let behind = s.len() - (at + 8);
    wire::copy_within(s, at, at + 8, behind);
    store(s, at, r);
}

// Takes the record at a rank out of a list. The last cell becomes zero.
pub fn remove(s: &mut [u8], i: usize)
    requires { 8 * i + 8 ≤ length s.old }
    ensures { s.new ≡ removed s.old i }
{
    let at = 8 * i;
    let last = s.len() - 8;
    let behind = s.len() - (at + 8);
    wire::copy_within(s, at + 8, at, behind);
    wire::fill(s, last, 8, 0);
}

// Sets the minutes of the record at a rank.
pub fn set_minutes(s: &mut [u8], i: usize, minutes: u8)
    requires { 8 * i + 8 ≤ length s.old }
    ensures { s.new ≡ amended s.old i minutes }
{
    s[8 * i + 7] = minutes;
}
