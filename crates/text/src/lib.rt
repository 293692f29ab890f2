// Numbers and fields in text: decimal numbers read and written, and where a byte stands.
#![tactic(auto)]

ghost use Rattle.std.specs.Prelude.{◌≡◌, ◌+◌, ◌≤◌, length};
ghost use Rattle.wire.specs.Bytes.{over};
ghost use Rattle.text.specs.Text.{Found, number_of, digits, field};

// Where a byte first stands at or after an offset.
pub fn find(line: &[u8], from: usize, byte: u8) -> Option<usize>
    requires { from ≤ length line.now }
    ensures { Found byte line.now from result }
{
    let at = line[from..].iter().position(|x| *x == byte)?;
    Some(from + at)
}

// A field as a number up to `most`.
pub fn number_of(s: &[u8], most: u32) -> Option<u32>
    ensures { result ≡ number_of most s.now }
{
    // Empty, or a needless zero first.
    if let [] | [b'0', _, ..] = s {
        return None;
    }
    let mut v = 0;
    for x in s {
        if !x.is_ascii_digit() {
            return None;
        }
        v = v * 10 + u64::from(*x - b'0');
        if u64::from(most) < v {
            return None;
        }
    }
    Some(v as u32)
}

// Writes a number from an offset on, its last digit behind those before it, and answers the offset behind it.
fn put_number(out: &mut [u8], at: usize, v: u32) -> usize
    requires { at + length (digits v) ≤ length out.old }
    ensures { (out.new ≡ over out.old at (digits v)) × (result ≡ at + length (digits v)) }
{
    if v < 10 {
        out[at] = (48 + v) as u8;
        return at + 1;
    }
    let end = put_number(out, at, v / 10);
    out[end] = (48 + v % 10) as u8;
    end + 1
}

// Writes a number and the byte that ends it.
pub fn put_field(out: &mut [u8], at: usize, v: u32, end: u8) -> usize
    requires { at + length (field v end) ≤ length out.old }
    ensures { (out.new ≡ over out.old at (field v end)) × (result ≡ at + length (field v end)) }
{
    let next = put_number(out, at, v);
    out[next] = end;
    next + 1
}
