// A line of text read as a command.
#![tactic(auto)]

ghost use Rattle.std.specs.Prelude.{◌≡◌};
ghost use Rattle.parse.specs.Grammar.{word_of, parsed};

use records::Record;
use text::number_of;

// A command's word; `list` is Show.
#[derive(Clone, Copy, Debug, PartialEq, Eq)]
pub enum Word {
    Put,
    Del,
    Set,
    Drop,
    Show,
}

// A line's command: the word, the tag and the call.
#[derive(Clone, Copy, Debug, PartialEq, Eq)]
pub struct Command {
    pub word: Word,
    pub tag: u32,
    pub call: Record,
}

// A field as a word.
#[tactic(auto, using(crate::specs::ParseLaws::word_bytes, std::proofs::lemmas::Bool::Decides::nat_tests))]
fn word_of(s: &[u8]) -> Option<Word>
    ensures { result ≡ word_of s.now }
{
    match s {
        b"put" => Some(Word::Put),
        b"del" => Some(Word::Del),
        b"set" => Some(Word::Set),
        b"drop" => Some(Word::Drop),
        b"list" => Some(Word::Show),
        _ => None,
    }
}

// The command of a line.
pub fn parse(line: &[u8]) -> Option<Command>
    ensures { result ≡ parsed line.now }
{
    if 80 < line.len() {
        return None;
    }
    let mut fields = line.split(|x| *x == b',');
    let word = word_of(fields.next()?)?;
    let tag = number_of(fields.next()?, 4294967295)?;
    let level = number_of(fields.next()?, 255)?;
    let second = number_of(fields.next()?, 4294967295)?;
    let phone = number_of(fields.next()?, 65535)?;
    let minutes = number_of(fields.next()?, 255)?;
    if fields.next().is_some() {
        return None;
    }
    let call = Record {
        level: level as u8,
        second,
        phone: phone as u16,
        minutes: minutes as u8,
    };
    Some(Command { word, tag, call })
}
