// The call index: the calls that begin, edit, commit, recover and format.
#![tactic(auto)]

ghost use Rattle.std.specs.Prelude.{◌≡◌, Err};
ghost use Rattle.refusals.specs.Rules.{answered, left};
ghost use Rattle.image_log.specs.Calls.{answer, after, recover_plan, commit_plan};
ghost use Rattle.home.specs.Sound.{sound as is_sound};
ghost use Rattle.records.specs.Records.{key};
ghost use Rattle.index.specs.Calls.{begin_call, put_call, delete_call, set_call, drop_call, format_plan};

use edits::Terminal;
use gates::Of;
use image_log::Stored;
use records::Record;
use refusals::Refusal;

// Copies an image's home to a workspace.
#[tactic(auto, using(gates::specs::GatesLaws::behind_gate), unfolding(crate::specs::Calls::begin_call, gates::specs::Gates::home_in, refusals::specs::Rules::first))]
pub fn begin(image: &[u8], space: &mut [u8]) -> Result<(), Refusal>
    ensures value { result ≡ answered Err (begin_call image.now space.old) }
    ensures space_after { space.new ≡ left (begin_call image.now space.old) space.old }
{
    gates::gate(Of::Image, image)?;
    let home = gates::home(Of::Image, image);
    if space.len() != home.len() {
        return Err(Refusal::SpaceLength);
    }
    space.copy_from_slice(home);
    Ok(())
}

// Puts a record to a tag's list in a workspace, from either terminal.
#[tactic(auto, using(gates::specs::GatesLaws::behind_gate, gates::specs::GatesLaws::space_open), unfolding(crate::specs::Calls::put_call))]
pub fn put_by(space: &mut [u8], by: Terminal, tag: u32, r: Record) -> Result<usize, Refusal>
    ensures value { result ≡ answered Err (put_call by space.old tag r) }
    ensures space_after { space.new ≡ left (put_call by space.old tag r) space.old }
{
    gates::gate(Of::Space, space)?;
    edits::put(space, by, tag, r)
}

// Puts a record from the desk. Refused after 6 and 7: 8, listed already; 10, 989 records; 19, its building is full; 11, 256 tags; 12, no room.
pub fn put(space: &mut [u8], tag: u32, r: Record) -> Result<usize, Refusal>
    ensures value { result ≡ answered Err (put_call Terminal.Desk space.old tag r) }
    ensures space_after { space.new ≡ left (put_call Terminal.Desk space.old tag r) space.old }
{
    put_by(space, Terminal::Desk, tag, r)
}

// Puts a record from the pit. Refused after 6 and 7: 8, listed already; 17, 64 records; 19, its building is full; 11, 256 tags; 12, no room.
pub fn put_pit(space: &mut [u8], tag: u32, r: Record) -> Result<usize, Refusal>
    ensures value { result ≡ answered Err (put_call Terminal.Pit space.old tag r) }
    ensures space_after { space.new ≡ left (put_call Terminal.Pit space.old tag r) space.old }
{
    put_by(space, Terminal::Pit, tag, r)
}

// Deletes the record with r's level, second and phone from a tag's list. Refused after 6 and 7: 9, no such record.
#[tactic(auto, using(gates::specs::GatesLaws::behind_gate, gates::specs::GatesLaws::space_open), unfolding(crate::specs::Calls::delete_call))]
pub fn delete(space: &mut [u8], tag: u32, r: Record) -> Result<usize, Refusal>
    ensures value { result ≡ answered Err (delete_call space.old tag (key r)) }
    ensures space_after { space.new ≡ left (delete_call space.old tag (key r)) space.old }
{
    gates::gate(Of::Space, space)?;
    edits::delete(space, tag, records::key_of(r))
}

// Gives the record with r's level, second and phone r's minutes. Refused after 6 and 7: 9, no such record.
#[tactic(auto, using(gates::specs::GatesLaws::behind_gate, gates::specs::GatesLaws::space_open), unfolding(crate::specs::Calls::set_call))]
pub fn set_minutes(space: &mut [u8], tag: u32, r: Record) -> Result<usize, Refusal>
    ensures value { result ≡ answered Err (set_call space.old tag (key r) r.minutes) }
    ensures space_after { space.new ≡ left (set_call space.old tag (key r) r.minutes) space.old }
{
    gates::gate(Of::Space, space)?;
    edits::set_minutes(space, tag, records::key_of(r), r.minutes)
}

// Drops a tag with its list. Refused after 6 and 7: 9, no such tag.
#[tactic(auto, using(gates::specs::GatesLaws::behind_gate, gates::specs::GatesLaws::space_open), unfolding(crate::specs::Calls::drop_call))]
pub fn drop_tag(space: &mut [u8], tag: u32) -> Result<usize, Refusal>
    ensures value { result ≡ answered Err (drop_call space.old tag) }
    ensures space_after { space.new ≡ left (drop_call space.old tag) space.old }
{
    gates::gate(Of::Space, space)?;
    edits::drop_tag(space, tag)
}

// Makes a workspace the image's home, through the log, with an allowance of stores.
#[tactic(auto, using(gates::specs::GatesLaws::behind_gate, gates::specs::GatesLaws::image_open, crate::specs::CommitLaws::commit_refused, crate::specs::CommitLaws::commit_length, crate::specs::CommitLaws::commit_unsound, crate::specs::CommitLaws::commit_passes), unfolding(gates::specs::Gates::home_in, image_log::specs::Calls::answer, image_log::specs::Calls::after))]
pub fn commit(image: &mut [u8], space: &[u8], n: usize) -> Result<Stored, Refusal>
    ensures value { result ≡ answer (commit_plan is_sound image.old space.now) n }
    ensures image_after { image.new ≡ after (commit_plan is_sound image.old space.now) n image.old }
{
    gates::gate(Of::Image, image)?;
    if space.len() != gates::home(Of::Image, image).len() {
        return Err(Refusal::SpaceLength);
    }
    if !sound::sound(space) {
        return Err(Refusal::UnsoundSpace);
    }
    image_log::commit_clear(image, space, n)
}

// Finishes a commit that was cut after its mark was stored, or clears a spoiled mark.
pub fn recover(image: &mut [u8], n: usize) -> Result<Stored, Refusal>
    ensures value { result ≡ answer (recover_plan image.old) n }
    ensures image_after { image.new ≡ after (recover_plan image.old) n image.old }
{
    image_log::recover(image, n)
}

// Leaves an empty index with room for L log entries and R record pages, of this step code.
#[tactic(auto, using(crate::specs::FormatLaws::format_uncoded, crate::specs::FormatLaws::format_coded), unfolding(image_log::specs::Calls::answer, image_log::specs::Calls::after))]
pub fn format(
    image: &mut [u8],
    capacity: usize,
    pages: usize,
    step: usize,
    n: usize,
) -> Result<Stored, Refusal>
    ensures value { result ≡ answer (format_plan image.old capacity pages step) n }
    ensures image_after { image.new ≡ after (format_plan image.old capacity pages step) n image.old }
{
    if 1 < step {
        return Err(Refusal::Sizes);
    }
    let code = step as u8;
    image_log::format(image, capacity, pages, 122, code, n)
}
