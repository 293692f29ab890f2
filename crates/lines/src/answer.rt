// A line in, its whole answer out.
ghost use Rattle.std.specs.Prelude.{◌≡◌, ◌≤◌, length};
ghost use Rattle.wire.specs.Bytes.{over};
ghost use Rattle.parse.specs.Grammar.{parsed};
ghost use Rattle.print.specs.Print.{longest};
ghost use Rattle.lines.specs.Answer.{reply_line, list_text, is_show, command_text, command_image, command_space, line_text, line_image, line_space, printed_of, out_of, image_after, space_after};

use crate::failure::Failure;
use crate::run::run;
use gates::Of;
use parse::{Command, Word, parse};
use print::{LONGEST, put_bad, put_list, put_no, put_ok};

// Whether a word asks for a list.
#[tactic(auto, unfolding(crate::specs::Answer::is_show))]
fn is_list(word: Word) -> bool
    ensures { result ≡ is_show word }
{
    matches!(word, Word::Show)
}

// Prints what is replied to an edit.
#[tactic(auto, unfolding(crate::specs::Answer::reply_line))]
fn put_reply(out: &mut [u8], r: Result<(), Failure>) -> usize
    requires { longest ≤ length out.old }
    ensures { (out.new ≡ over out.old 0 (reply_line r)) × (result ≡ length (reply_line r)) × (result ≤ longest) }
{
    match r {
        Ok(()) => put_ok(out),
        Err(f) => put_no(out, u8::from(f)),
    }
}

// Prints a tag's list in an image, or its refusal.
fn put_listing(image: &[u8], tag: u32, out: &mut [u8]) -> usize
    requires { longest ≤ length out.old }
    ensures { (out.new ≡ over out.old 0 (list_text image.now tag)) × (result ≡ length (list_text image.now tag)) × (result ≤ longest) }
{
    match reads::count(Of::Image, image, tag) {
        Ok(_) => {
            let list = reads::show(Of::Image, image, tag);
            put_list(out, tag, list)
        }
        Err(r) => put_no(out, u8::from(r)),
    }
}

// Does what a command says, and prints its answer.
fn answer_command(image: &mut [u8], space: &mut [u8], c: Command, out: &mut [u8]) -> usize
    requires { longest ≤ length out.old }
    ensures out_after { (out.new ≡ over out.old 0 (command_text image.old space.old c)) × (result ≡ length (command_text image.old space.old c)) × (result ≤ longest) }
    ensures image_after { (image.new ≡ command_image image.old space.old c) × (space.new ≡ command_space image.old space.old c) }
{
    if is_list(c.word) {
        put_listing(image, c.tag, out)
    } else {
        put_reply(out, run(image, space, c))
    }
}

// Answers a line, where the output has room for the longest answer.
#[tactic(auto, unfolding(crate::specs::Answer::line_text, crate::specs::Answer::line_image, crate::specs::Answer::line_space))]
pub fn answer_line(image: &mut [u8], space: &mut [u8], line: &[u8], out: &mut [u8]) -> usize
    requires { longest ≤ length out.old }
    ensures out_after { (out.new ≡ over out.old 0 (line_text (parsed line.now) image.old space.old)) × (result ≡ length (line_text (parsed line.now) image.old space.old)) × (result ≤ longest) }
    ensures image_after { (image.new ≡ line_image (parsed line.now) image.old space.old) × (space.new ≡ line_space (parsed line.now) image.old space.old) }
{
    match parse(line) {
        Some(c) => answer_command(image, space, c, out),
        None => put_bad(out),
    }
}

// Answers a line, and tells how many bytes are printed. Nothing changes where the output is too short.
#[tactic(auto, unfolding(crate::specs::Answer::printed_of, crate::specs::Answer::out_of, crate::specs::Answer::image_after, crate::specs::Answer::space_after))]
pub fn answer(image: &mut [u8], space: &mut [u8], line: &[u8], out: &mut [u8]) -> Option<usize>
    ensures value { (result ≡ printed_of image.old space.old line.now out.old) × (out.new ≡ out_of image.old space.old line.now out.old) }
    ensures image_after { (image.new ≡ image_after image.old space.old line.now out.old) × (space.new ≡ space_after image.old space.old line.now out.old) }
{
    if out.len() < LONGEST {
        return None;
    }
    Some(answer_line(image, space, line, out))
}
