// Runs sequences of calls of which an independent model has told the answers, and the CRC-32 of the workspace
// after an edit and of the image after a call on it. Counts where the index does the same.
//
// The input's lines have 48 bytes in fixed columns, all numbers hexadecimal:
//     p 00000007 00 00000000 0000 5f ok 0001 e93b7037
// A letter; tag, level, second, phone, minutes; the answer's word and number; the checksum, or dashes. Edits: p put,
// d delete, s set, x drop. Calls on the image: f format, L and R in place of tag and second; b begin; c commit and
// r recover, the allowance in place of the tag. Words: ok a count, no a refusal, dn done, ct cut. A sequence is
// headed by n with L and R as for format, and ends with a line of dashes.
#![tactic(auto)]

ghost use Rattle.std.specs.Prelude.{◌<◌};

use image_log::Stored;
use records::Record;
use refusals::Refusal;
use std::io::{Read, Write};
use std::rt::{Stdin, Stdout};

type Line = [u8; 48];

// What a call answers: one word and a number.
#[derive(Clone, Copy, Debug, PartialEq, Eq)]
enum Answer {
    Count(usize),
    Refused(usize),
    Done(usize),
    Cut(usize),
}

impl From<Refusal> for Answer {
    fn from(refusal: Refusal) -> Answer {
        Answer::Refused(usize::from(u8::from(refusal)))
    }
}

impl From<Stored> for Answer {
    fn from(stored: Stored) -> Answer {
        match stored {
            Stored::Done(n) => Answer::Done(n),
            Stored::Cut(n) => Answer::Cut(n),
        }
    }
}

// Calls, answers as told, checksums told, checksums as told.
#[derive(Clone, Copy, Debug, Default, PartialEq, Eq)]
struct Tally {
    calls: usize,
    answers: usize,
    told: usize,
    sums: usize,
}

// ---- checksums

fn one_bit(c: u32) -> u32 {
    if c % 2 == 1 {
        c / 2 ^ 0xedb88320
    } else {
        c / 2
    }
}

fn one_byte(c: u32, b: u8) -> u32 {
    (0..8).fold(c ^ u32::from(b), |c, _| one_bit(c))
}

fn crc32(s: &[u8]) -> u32 {
    !s.iter().fold(!0, |c, &b| one_byte(c, b))
}

// ---- lines

// The next line; none at the end of a sequence or of the input.
fn next_line(input: &mut Stdin) -> Option<Line> {
    let mut line = [0u8; 48];
    input.read_exact(&mut line).ok()?;
    if line[0] == b'-' { None } else { Some(line) }
}

fn digit(b: u8) -> u32
    ensures { result < 16 }
{
    if b < b'a' {
        u32::from(b) % 16
    } else {
        (u32::from(b) + 9) % 16
    }
}

// The number in these columns.
fn number(columns: &[u8]) -> u32 {
    columns
        .iter()
        .fold(0, |v, &b| v % 0x10000000 * 16 + digit(b))
}

fn tag(line: &Line) -> u32 {
    number(&line[2..10])
}

fn second(line: &Line) -> u32 {
    number(&line[14..22])
}

fn record(line: &Line) -> Record {
    Record {
        level: (number(&line[11..13]) % 256) as u8,
        second: second(line),
        phone: (number(&line[23..27]) % 65536) as u16,
        minutes: (number(&line[28..30]) % 256) as u8,
    }
}

// The answer that a line tells.
fn told(line: &Line) -> Option<Answer> {
    let n = number(&line[34..38]) as usize;
    match line[31] {
        b'o' => Some(Answer::Count(n)),
        b'n' => Some(Answer::Refused(n)),
        b'd' => Some(Answer::Done(n)),
        b'c' => Some(Answer::Cut(n)),
        _ => None,
    }
}

// The checksum that a line tells; none in dashes.
fn checksum(line: &Line) -> Option<u32> {
    if line[39] == b'-' {
        None
    } else {
        Some(number(&line[39..47]))
    }
}

// ---- calls

// Runs a line's call.
fn run(image: &mut [u8], space: &mut [u8], line: &Line) -> Result<Answer, Refusal> {
    let tag = tag(line);
    let record = record(line);
    match line[0] {
        b'p' => index::put(space, tag, record).map(Answer::Count),
        b'd' => index::delete(space, tag, record).map(Answer::Count),
        b's' => index::set_minutes(space, tag, record).map(Answer::Count),
        b'x' => index::drop_tag(space, tag).map(Answer::Count),
        b'b' => index::begin(image, space).map(|()| Answer::Done(0)),
        b'f' => index::format(image, tag as usize, record.second as usize, 0, 1000000).map(
            Answer::from,
        ),
        b'c' => index::commit(image, space, tag as usize).map(Answer::from),
        _ => index::recover(image, tag as usize).map(Answer::from),
    }
}

// The bytes that a line's checksum is of: the workspace after an edit, else the image.
fn summed<'a>(image: &'a [u8], space: &'a [u8], line: &Line) -> &'a [u8] {
    match line[0] {
        b'p' | b'd' | b's' | b'x' => space,
        _ => image,
    }
}

// ---- sequences

// Runs a sequence, up to 10,000 calls of it, and counts.
fn sequence(input: &mut Stdin, image: &mut [u8], space: &mut [u8]) -> Tally {
    let mut tally = Tally::default();
    let mut next = next_line(input);
    for _ in 0..10000usize {
        let Some(line) = next else {
            break;
        };
        let answer = run(image, space, &line).unwrap_or_else(Answer::from);
        tally.calls += 1;
        tally.answers += usize::from(told(&line) == Some(answer));
        if let Some(sum) = checksum(&line) {
            tally.told += 1;
            tally.sums += usize::from(crc32(summed(image, space, &line)) == sum);
        }
        next = next_line(input);
    }
    tally
}

// The sequence that a line heads, on an empty workspace and an image of zeros, if they fit 8,192 bytes each.
fn headed(input: &mut Stdin, out: &mut Stdout, head: &Line) {
    let capacity = tag(head) as usize % 64;
    let pages = second(head) as usize % 64;
    let _ = match capacity {
        0 => write!(out, "workspace, R {pages}: "),
        _ => write!(out, "L {capacity}, R {pages}: "),
    };
    let home = 64 * (26 + pages);
    let length = 64 + 66 * capacity + home;
    let mut image = [0u8; 8192];
    let mut space = [0u8; 8192];
    if length > image.len() || home > space.len() {
        return;
    }
    let Tally {
        calls,
        answers,
        told,
        sums,
    } = sequence(input, &mut image[..length], &mut space[..home]);
    let _ = writeln!(
        out,
        "{calls} calls; as in the model: {answers} answers, {sums} of {told} checksums"
    );
}

fn main(rt: HostRuntime) {
    let mut input = rt.stdin();
    let mut out = rt.stdout();
    for _ in 0..100 {
        let Some(head) = next_line(&mut input) else {
            break;
        };
        headed(&mut input, &mut out, &head);
    }
}
