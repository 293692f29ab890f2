// Answers printed. Each function writes from an offset on and answers the offset behind what it wrote.
#![tactic(auto)]

ghost use Rattle.std.specs.Prelude.{◌≡◌, ◌+◌, ◌/◌, ◌≤◌, length};
ghost use Rattle.wire.specs.Bytes.{over};
ghost use Rattle.records.specs.Records.{decode};
ghost use Rattle.print.specs.Print.{record_line, list_lines, longest, ok_line, no_line, bad_line, head_line};

use records::Record;
use text::put_field;

// The bytes of the longest answer, that of a list of 989 records.
pub const LONGEST: usize = 24745;

// Prints a record: level, second, phone, minutes.
pub fn put_record(out: &mut [u8], at: usize, r: Record) -> usize
    requires { at + 25 ≤ length out.old }
    ensures { (out.new ≡ over out.old at (record_line r)) × (result ≡ at + length (record_line r)) }
{
    let second = put_field(out, at, r.level as u32, b',');
    let phone = put_field(out, second, r.second, b',');
    let minutes = put_field(out, phone, r.phone as u32, b',');
    put_field(out, minutes, r.minutes as u32, b'\n')
}

// Prints that a command is done.
pub fn put_ok(out: &mut [u8]) -> usize
    requires { 3 ≤ length out.old }
    ensures { (out.new ≡ over out.old 0 ok_line) × (result ≡ length ok_line) × (result ≤ 7) }
{
    wire::copy(out, 0, b"ok\n");
    3
}

// Prints a refusal's number.
pub fn put_no(out: &mut [u8], n: u8) -> usize
    requires { 7 ≤ length out.old }
    ensures { (out.new ≡ over out.old 0 (no_line n)) × (result ≡ length (no_line n)) × (result ≤ 7) }
{
    wire::copy(out, 0, b"no,");
    put_field(out, 3, n as u32, b'\n')
}

// Prints that a line is bad.
pub fn put_bad(out: &mut [u8]) -> usize
    requires { 4 ≤ length out.old }
    ensures { (out.new ≡ over out.old 0 bad_line) × (result ≡ length bad_line) × (result ≤ 7) }
{
    wire::copy(out, 0, b"bad\n");
    4
}

// Prints a list's tag and count.
fn put_head(out: &mut [u8], tag: u32, count: u32) -> usize
    requires { 27 ≤ length out.old }
    ensures { (out.new ≡ over out.old 0 (head_line tag count)) × (result ≡ length (head_line tag count)) }
{
    wire::copy(out, 0, b"list,");
    let at = put_field(out, 5, tag, b',');
    put_field(out, at, count, b'\n')
}

// Prints a list's tag and count, and each of its records.
pub fn put_list(out: &mut [u8], tag: u32, list: &[u8]) -> usize
    requires { (length list.now / 8 ≤ 989) × (longest ≤ length out.old) }
    ensures { (out.new ≡ over out.old 0 (list_lines tag (decode list.now))) × (result ≡ length (list_lines tag (decode list.now))) × (result ≤ longest) }
{
    let n = list.len() / 8;
    let mut at = put_head(out, tag, n as u32);
    for i in 0..n {
        at = put_record(out, at, records::record_at(list, i));
    }
    at
}
