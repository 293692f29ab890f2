// An index served: lines from a reader, their answers to a writer.
#![tactic(auto)]

ghost use Rattle.std.specs.Prelude.{◌≡◌, ◌≤◌, ◌<◌, length, take, IfOk, MatchResult};
ghost use Rattle.print.specs.Print.{longest};
ghost use Rattle.stream.specs.Stream.{state};
ghost use Rattle.serve.specs.Served.{Passes, Serves, Ends};

use std::io;
use std::io::{Read, Write};

// How serving ended, with the bytes read and the bytes written: at the input's end, at a write that
// failed, or at a bound that no run reaches.
#[derive(Clone, Copy, Debug, PartialEq, Eq)]
pub enum Served {
    Input(u64, u64),
    Output(u64),
    Bound(u64, u64),
}

// Bytes read or printed at a time.
const SIZE: usize = 65536;

// The bytes held of a line still open.
#[derive(Drop)]
struct Kept {
    bytes: [u8; 81],
    held: usize,
    ghost few: { held ≤ 81 },
}

// Writes bytes, and answers how many. A failure to write none is passed over.
fn write<W: Write>(output: &mut W, bytes: &[u8]) -> io::Result<usize>
    ensures { MatchResult result (λ n. n ≡ length bytes.now) (λ e. 0 < length bytes.now) }
{
    let written = output.write_all(bytes);
    if !bytes.is_empty() {
        written?;
    }
    Ok(bytes.len())
}

// Answers a piece, and writes the answers each time that the output is full. Answers how many bytes are written.
fn pass<W: Write>(
    image: &mut [u8],
    space: &mut [u8],
    kept: &mut Kept,
    piece: &[u8],
    out: &mut [u8; SIZE],
    output: &mut W,
) -> io::Result<usize>
    requires { length piece.now ≤ 65536 }
    ensures passes { Passes (state (take kept.old.held kept.old.bytes) image.old space.old) piece.now result (state (take kept.new.held kept.new.bytes) image.new space.new) }
    ensures sent_bound { IfOk result (λ n. n ≤ 4294967296) }
{
    let mut from = 0;
    let mut sent = 0;
    while from < piece.len() {
        let fed = stream::feed(
            image,
            space,
            &mut kept.bytes,
            kept.held,
            &piece[from..],
            out,
        );
        kept.held = fed.held;
        sent += write(output, &out[..fed.printed])?;
        from += fed.used;
    }
    Ok(sent)
}

// Ends the open line, as a newline does: the input is at its end.
fn end<W: Write>(
    image: &mut [u8],
    space: &mut [u8],
    kept: &mut Kept,
    out: &mut [u8; SIZE],
    read: u64,
    sent: u64,
    output: &mut W,
) -> Served
    requires { sent < 9223372036854775808 }
    ensures { Ends (state (take kept.old.held kept.old.bytes) image.old space.old) read sent result image.new space.new }
{
    if kept.held == 0 {
        return Served::Input(read, sent);
    }
    match pass(image, space, kept, b"\n", out, output) {
        Ok(n) => Served::Input(read, sent + n as u64),
        Err(_) => Served::Output(read),
    }
}

// Serves the index on an image. At the input's end its lines are answered, one after another, and
// image and workspace are what they leave. A read that fails ends the input.
pub fn serve<R: Read, W: Write>(
    image: &mut [u8],
    space: &mut [u8],
    input: &mut R,
    output: &mut W,
) -> Served
    ensures { Serves image.old space.old result image.new space.new }
{
    let mut kept = Kept {
        bytes: [0; 81],
        held: 0,
    };
    let mut buf = [0; SIZE];
    let mut out = [0; SIZE];
    let mut read: u64 = 0;
    let mut sent: u64 = 0;
    while read < 9223372036854775808 && sent < 9223372036854775808 {
        let n = input.read(&mut buf).unwrap_or(0);
        if n == 0 {
            return end(image, space, &mut kept, &mut out, read, sent, output);
        }
        read += n as u64;
        let Ok(more) = pass(image, space, &mut kept, &buf[..n], &mut out, output) else {
            return Served::Output(read);
        };
        sent += more as u64;
    }
    Served::Bound(read, sent)
}
