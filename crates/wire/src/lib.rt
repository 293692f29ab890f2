// Numbers and runs of bytes in slices. Numbers are unsigned, most significant byte first.
#![tactic(auto)]

ghost use Rattle.std.specs.Prelude.{◌≡◌, ◌+◌, ◌≤◌, ◌<◌, length, get_or, replicate};
ghost use Rattle.wire.specs.Bytes.{get16 as number16, get32 as number32, bytes16 as digits16, bytes32 as digits32, part, over, equal as same, blank};

// The byte at an offset.
pub fn get8(s: &[u8], at: usize) -> usize
    requires { at < length s.now }
    ensures { (result ≡ get_or s.now at 0) × (result < 256) }
{
    usize::from(s[at])
}

// The number of 2 bytes at an offset.
pub fn get16(s: &[u8], at: usize) -> usize
    requires { at + 1 < length s.now }
    ensures value { result ≡ number16 s.now at }
    ensures upper_bound { result < 65536 }
{
    usize::from(u16::from_be_bytes([s[at], s[at + 1]]))
}

// The number of 4 bytes at an offset.
pub fn get32(s: &[u8], at: usize) -> u32
    requires { at + 3 < length s.now }
    ensures { result ≡ number32 s.now at }
{
    u32::from_be_bytes([s[at], s[at + 1], s[at + 2], s[at + 3]])
}

// The 2 bytes of a number.
pub fn bytes16(v: usize) -> [u8; 2]
    ensures { result ≡ digits16 v }
{
    [(v / 256 % 256) as u8, (v % 256) as u8]
}

// Writes a number of 2 bytes at an offset.
pub fn put16(s: &mut [u8], at: usize, v: usize)
    requires { at + 1 < length s.old }
    ensures { s.new ≡ over s.old at (digits16 v) }
{
    copy(s, at, &bytes16(v));
}

// Writes a number of 4 bytes at an offset.
pub fn put32(s: &mut [u8], at: usize, v: u32)
    requires { at + 3 < length s.old }
    ensures { s.new ≡ over s.old at (digits32 v) }
{
    copy(s, at, &v.to_be_bytes());
}

// Copies src into dst from an offset on.
pub fn copy(dst: &mut [u8], at: usize, src: &[u8])
    requires { at + length src.now ≤ length dst.old }
    ensures { dst.new ≡ over dst.old at src.now }
{
    dst[at..at + src.len()].copy_from_slice(src);
}

// Copies n bytes from one offset to another; the two runs may overlap.
pub fn copy_within(s: &mut [u8], from: usize, to: usize, n: usize)
    requires { (from + n ≤ length s.old) × (to + n ≤ length s.old) }
    ensures { s.new ≡ over s.old to (part s.old from n) }
{
    s.copy_within(from..from + n, to);
}

// Sets n bytes from an offset on to b.
pub fn fill(s: &mut [u8], at: usize, n: usize, b: u8)
    requires { at + n ≤ length s.old }
    ensures { s.new ≡ over s.old at (replicate n b) }
{
    for x in s[at..at + n].iter_mut() {
        *x = b;
    }
}

// Whether two slices hold the same bytes. The loop has no early exit, so that it can be vectorised: on pages
// it takes less time than `a == b`, which has one.
pub fn equal(a: &[u8], b: &[u8]) -> bool
    ensures { result ≡ same a.now b.now }
{
    if a.len() != b.len() {
        return false;
    }
    let mut ok = true;
    for (x, y) in a.iter().zip(b) {
        ok &= x == y;
    }
    ok
}

// Whether all bytes are zero: all of them in one number, without an early exit either.
pub fn all_zero(s: &[u8]) -> bool
    ensures { result ≡ blank s.now }
{
    let mut seen = 0;
    for x in s {
        seen |= *x;
    }
    seen == 0
}
