// Edits made and committed.
ghost use Rattle.std.specs.Prelude.{◌≡◌};
ghost use Rattle.refusals.specs.Rules.{answered, left};
ghost use Rattle.image_log.specs.Calls.{after, commit_plan};
ghost use Rattle.home.specs.Sound.{sound};
ghost use Rattle.lines.specs.Run.{edit_of, plenty, plan_reply, reply_of, image_of, left_of};

use crate::failure::Failure;
use image_log::Stored;
use parse::{Command, Word};
use records::Record;
use refusals::Refusal;

// Edits a workspace as the word says.
#[tactic(auto, unfolding(crate::specs::Run::edit_of, refusals::specs::Rules::first))]
fn edit(space: &mut [u8], word: Word, tag: u32, call: Record) -> Result<usize, Refusal>
    ensures value { result ≡ answered Err (edit_of word space.old tag call) }
    ensures space_after { space.new ≡ left (edit_of word space.old tag call) space.old }
{
    match word {
        Word::Put => index::put(space, tag, call),
        Word::Del => index::delete(space, tag, call),
        Word::Set => index::set_minutes(space, tag, call),
        Word::Drop => index::drop_tag(space, tag),
        Word::Show => Ok(0),
    }
}

// Commits an edited workspace.
#[tactic(auto, unfolding(crate::specs::Run::outcome_reply))]
fn keep(image: &mut [u8], space: &[u8]) -> Result<(), Failure>
    ensures value { result ≡ plan_reply (commit_plan sound image.old space.now) }
    ensures image_after { image.new ≡ after (commit_plan sound image.old space.now) plenty image.old }
{
    match index::commit(image, space, 4294967295)? {
        Stored::Done(_) => Ok(()),
        Stored::Cut(_) => Err(Failure::Cut),
    }
}

// Makes the edit that a command names, and commits it.
pub fn run(image: &mut [u8], space: &mut [u8], c: Command) -> Result<(), Failure>
    ensures value { result ≡ reply_of image.old space.old c }
    ensures image_after { (image.new ≡ image_of image.old space.old c) × (space.new ≡ left_of image.old space.old c) }
{
    index::begin(image, space)?;
    edit(space, c.word, c.tag, c.call)?;
    keep(image, space)
}
