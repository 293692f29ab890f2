// Input in pieces, split into lines, each answered.
#![tactic(auto)]

ghost use Rattle.std.specs.Prelude.{◌≡◌, ◌++◌, ◌+◌, ◌≤◌, ◌<◌, length, take};
ghost use Rattle.wire.specs.Bytes.{over};
ghost use Rattle.parse.specs.Grammar.{parsed};
ghost use Rattle.print.specs.Print.{longest};
ghost use Rattle.lines.specs.Answer.{line_text, line_image, line_space};
ghost use Rattle.stream.specs.Stream.{state, clip};
ghost use Rattle.stream.specs.Feeds.{Feeds};

use lines::answer::answer_line;
use print::LONGEST;
use text::find;

// Of a piece: the bytes used, the bytes held of a line still open, the bytes printed.
#[derive(Clone, Copy, Debug, PartialEq, Eq)]
pub struct Fed {
    pub used: usize,
    pub held: usize,
    pub printed: usize,
}

// Keeps bytes behind those held, as far as 81 in all.
fn keep(kept: &mut [u8], held: usize, bytes: &[u8]) -> usize
    requires { (held ≤ 81) × (81 ≤ length kept.old) }
    ensures { (take result kept.new ≡ clip (take held kept.old ++ bytes.now)) × (result ≤ 81) }
{
    let n = bytes.len().min(81 - held);
    wire::copy(kept, held, &bytes[..n]);
    held + n
}

// Answers the line of the bytes held and the rest.
fn answer_kept(
    image: &mut [u8],
    space: &mut [u8],
    kept: &mut [u8],
    held: usize,
    rest: &[u8],
    out: &mut [u8],
) -> usize
    requires { (held ≤ 81) × (81 ≤ length kept.old) × (longest ≤ length out.old) }
    ensures out_after { (out.new ≡ over out.old 0 (line_text (parsed (take held kept.old ++ rest.now)) image.old space.old)) × (result ≡ length (line_text (parsed (take held kept.old ++ rest.now)) image.old space.old)) × (result ≤ longest) }
    ensures image_after { (image.new ≡ line_image (parsed (take held kept.old ++ rest.now)) image.old space.old) × (space.new ≡ line_space (parsed (take held kept.old ++ rest.now)) image.old space.old) }
{
    if held == 0 {
        return answer_line(image, space, rest, out);
    }
    let end = keep(kept, held, rest);
    answer_line(image, space, &kept[..end], out)
}

// Answers a piece's first line, or keeps it where its end is not there yet.
fn step(
    image: &mut [u8],
    space: &mut [u8],
    kept: &mut [u8],
    held: usize,
    piece: &[u8],
    out: &mut [u8],
) -> Fed
    requires { (held ≤ 81) × (81 ≤ length kept.old) × (longest ≤ length out.old) }
    ensures feeds { Feeds (state (take held kept.old) image.old space.old) piece.now out.old result kept.new image.new space.new out.new }
    ensures held_bound { (result.held ≤ 81) × (result.printed ≤ longest) × (0 < length piece.now → 0 < result.used) }
{
    match find(piece, 0, b'\n') {
        None => Fed {
            used: piece.len(),
            held: keep(kept, held, piece),
            printed: 0,
        },
        Some(end) => Fed {
            used: end + 1,
            held: 0,
            printed: answer_kept(image, space, kept, held, &piece[..end], out),
        },
    }
}

// Answers a piece's lines until it is used or the output has no room for the longest answer.
fn feed_lines(
    image: &mut [u8],
    space: &mut [u8],
    kept: &mut [u8],
    held: usize,
    piece: &[u8],
    out: &mut [u8],
) -> Fed
    requires { (held ≤ 81) × (81 ≤ length kept.old) }
    ensures feeds { Feeds (state (take held kept.old) image.old space.old) piece.now out.old result kept.new image.new space.new out.new }
    ensures held_bound { (result.held ≤ 81) × (result.used < length piece.now → length out.old < result.printed + longest) }
{
    let mut fed = Fed {
        used: 0,
        held: held,
        printed: 0,
    };
    while fed.used < piece.len() && LONGEST <= out.len() - fed.printed {
        let f = step(
            image,
            space,
            kept,
            fed.held,
            &piece[fed.used..],
            &mut out[fed.printed..],
        );
        fed = Fed {
            used: fed.used + f.used,
            held: f.held,
            printed: fed.printed + f.printed,
        };
    }
    fed
}

// Takes in a piece: answers its lines as far as the output has room, and keeps what is left of an open line.
// Nothing is used where fewer than 81 bytes can be kept, or more are held. The input's end is a newline
// where bytes are held, and nothing else.
pub fn feed(
    image: &mut [u8],
    space: &mut [u8],
    kept: &mut [u8],
    held: usize,
    piece: &[u8],
    out: &mut [u8],
) -> Fed
    ensures feeds { Feeds (state (take held kept.old) image.old space.old) piece.now out.old result kept.new image.new space.new out.new }
    ensures held_bound { (held ≤ 81) × (81 ≤ length kept.old) → (result.held ≤ 81) × (result.used < length piece.now → length out.old < result.printed + longest) }
{
    if 81 < held || kept.len() < 81 {
        return Fed {
            used: 0,
            held: held,
            printed: 0,
        };
    }
    feed_lines(image, space, kept, held, piece, out)
}
