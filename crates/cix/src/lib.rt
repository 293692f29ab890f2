// The index for C and Rust: its calls over numbers and byte slices, each with one number as its answer.
#![tactic(auto)]

ghost use Rattle.std.specs.Prelude.{◌≡◌, ◌+◌, ◌*◌, ◌<◌, Err};
ghost use Rattle.refusals.specs.Rules.{number_of, answered, left};
ghost use Rattle.image_log.specs.Calls.{answer, after, recover_plan, commit_plan};
ghost use Rattle.records.specs.Records.{key};
ghost use Rattle.home.specs.Sound.{sound as is_sound};
ghost use Rattle.reads.specs.Reads.{count_in, rank_in};
ghost use Rattle.reads.specs.Merges.{merge_in};
ghost use Rattle.edits.specs.declared.Terminal.TheVariants.{Desk, Pit};
ghost use Rattle.index.specs.Calls.{begin_call, put_call, delete_call, set_call, drop_call, format_plan};
ghost use Rattle.cix.specs.Numbers.{refused, of_answer, of_begun, of_outcome, Fits, call as call_of};
ghost use Rattle.cix.specs.Places.{span_in};

use gates::Of;
use image_log::Stored;
use merges::Merge;
use records::Record;
use refusals::Refusal;

// A refusal as a number.
fn refused(r: Refusal) -> u64
    ensures { result ≡ refused (number_of r) }
{
    8589934592 + u64::from(u8::from(r))
}

// Answers as numbers.
#[tactic(auto, unfolding(crate::specs::Numbers::of_answer))]
fn of_answer(a: Result<usize, Refusal>) -> u64
    ensures { result ≡ of_answer a }
{
    match a {
        Ok(n) => n as u64,
        Err(r) => refused(r),
    }
}

#[tactic(auto, unfolding(crate::specs::Numbers::of_begun))]
fn of_begun(b: Result<(), Refusal>) -> u64
    ensures { result ≡ of_begun b }
{
    match b {
        Ok(()) => 0,
        Err(r) => refused(r),
    }
}

#[tactic(auto, unfolding(crate::specs::Numbers::of_outcome, crate::specs::Numbers::Fits))]
fn of_outcome(o: Result<Stored, Refusal>) -> u64
    requires { Fits o }
    ensures { result ≡ of_outcome o }
{
    match o {
        Ok(Stored::Done(n)) => n as u64,
        Ok(Stored::Cut(n)) => 4294967296 + n as u64,
        Err(r) => refused(r),
    }
}

// A record from its four numbers.
fn call(level: u8, second: u32, phone: u16, minutes: u8) -> Record
    ensures { result ≡ call_of level second phone minutes }
{
    Record {
        level,
        second,
        phone,
        minutes,
    }
}

// Makes the image an empty index with room for that many log entries and record pages, of this step code.
#[tactic(auto, using(crate::specs::Numbers::stores_fit))]
#[unsafe(no_mangle)]
pub extern "C" fn cix_format(
    image: &mut [u8],
    entries: u32,
    pages: u32,
    step: u32,
    stores: u32,
) -> u64
    ensures value { result ≡ of_outcome (answer (format_plan image.old entries pages step) stores) }
    ensures image_after { image.new ≡ after (format_plan image.old entries pages step) stores image.old }
{
    of_outcome(index::format(
        image,
        entries as usize,
        pages as usize,
        step as usize,
        stores as usize,
    ))
}

// Copies the image's home to a workspace.
#[unsafe(no_mangle)]
pub extern "C" fn cix_begin(image: &[u8], space: &mut [u8]) -> u64
    ensures value { result ≡ of_begun (answered Err (begin_call image.now space.old)) }
    ensures space_after { space.new ≡ left (begin_call image.now space.old) space.old }
{
    of_begun(index::begin(image, space))
}

// Puts a record to a tag's list.
#[unsafe(no_mangle)]
pub extern "C" fn cix_put(
    space: &mut [u8],
    tag: u32,
    level: u8,
    second: u32,
    phone: u16,
    minutes: u8,
) -> u64
    ensures value { result ≡ of_answer (answered Err (put_call Desk space.old tag (call_of level second phone minutes))) }
    ensures space_after { space.new ≡ left (put_call Desk space.old tag (call_of level second phone minutes)) space.old }
{
    of_answer(index::put(space, tag, call(level, second, phone, minutes)))
}

// Puts a record to a tag's list from the pit.
#[unsafe(no_mangle)]
pub extern "C" fn cix_put_pit(
    space: &mut [u8],
    tag: u32,
    level: u8,
    second: u32,
    phone: u16,
    minutes: u8,
) -> u64
    ensures value { result ≡ of_answer (answered Err (put_call Pit space.old tag (call_of level second phone minutes))) }
    ensures space_after { space.new ≡ left (put_call Pit space.old tag (call_of level second phone minutes)) space.old }
{
    of_answer(index::put_pit(space, tag, call(level, second, phone, minutes)))
}

// Deletes a record from a tag's list.
#[unsafe(no_mangle)]
pub extern "C" fn cix_delete(space: &mut [u8], tag: u32, level: u8, second: u32, phone: u16) -> u64
    ensures value { result ≡ of_answer (answered Err (delete_call space.old tag (key (call_of level second phone 0)))) }
    ensures space_after { space.new ≡ left (delete_call space.old tag (key (call_of level second phone 0))) space.old }
{
    of_answer(index::delete(space, tag, call(level, second, phone, 0)))
}

// Sets a record's minutes.
#[unsafe(no_mangle)]
pub extern "C" fn cix_set_minutes(
    space: &mut [u8],
    tag: u32,
    level: u8,
    second: u32,
    phone: u16,
    minutes: u8,
) -> u64
    ensures value { result ≡ of_answer (answered Err (set_call space.old tag (key (call_of level second phone minutes)) minutes)) }
    ensures space_after { space.new ≡ left (set_call space.old tag (key (call_of level second phone minutes)) minutes) space.old }
{
    of_answer(index::set_minutes(space, tag, call(level, second, phone, minutes)))
}

// Drops a tag with its list.
#[unsafe(no_mangle)]
pub extern "C" fn cix_drop_tag(space: &mut [u8], tag: u32) -> u64
    ensures value { result ≡ of_answer (answered Err (drop_call space.old tag)) }
    ensures space_after { space.new ≡ left (drop_call space.old tag) space.old }
{
    of_answer(index::drop_tag(space, tag))
}

// Makes a workspace the image's home, with an allowance of stores.
#[tactic(auto, using(crate::specs::Numbers::stores_fit))]
#[unsafe(no_mangle)]
pub extern "C" fn cix_commit(image: &mut [u8], space: &[u8], stores: u32) -> u64
    ensures value { result ≡ of_outcome (answer (commit_plan is_sound image.old space.now) stores) }
    ensures image_after { image.new ≡ after (commit_plan is_sound image.old space.now) stores image.old }
{
    of_outcome(index::commit(image, space, stores as usize))
}

// Finishes a commit that was cut after its mark was stored, or clears a spoiled mark.
#[tactic(auto, using(crate::specs::Numbers::stores_fit))]
#[unsafe(no_mangle)]
pub extern "C" fn cix_recover(image: &mut [u8], stores: u32) -> u64
    ensures value { result ≡ of_outcome (answer (recover_plan image.old) stores) }
    ensures image_after { image.new ≡ after (recover_plan image.old) stores image.old }
{
    of_outcome(index::recover(image, stores as usize))
}

// Counts a tag's list in an image.
#[unsafe(no_mangle)]
pub extern "C" fn cix_count_image(image: &[u8], tag: u32) -> u64
    ensures { result ≡ of_answer (count_in Of.Image image.now tag) }
{
    of_answer(reads::count(Of::Image, image, tag))
}

// Counts a tag's list in a workspace.
#[unsafe(no_mangle)]
pub extern "C" fn cix_count_space(space: &[u8], tag: u32) -> u64
    ensures { result ≡ of_answer (count_in Of.Space space.now tag) }
{
    of_answer(reads::count(Of::Space, space, tag))
}

// Counts the records of a tag's list before a primary part, in an image.
#[unsafe(no_mangle)]
pub extern "C" fn cix_rank_image(image: &[u8], tag: u32, level: u8, second: u32, phone: u16) -> u64
    ensures { result ≡ of_answer (rank_in Of.Image image.now tag (key (call_of level second phone 0))) }
{
    of_answer(reads::rank(Of::Image, image, tag, call(level, second, phone, 0)))
}

// Counts the records of a tag's list before a primary part, in a workspace.
#[unsafe(no_mangle)]
pub extern "C" fn cix_rank_space(space: &[u8], tag: u32, level: u8, second: u32, phone: u16) -> u64
    ensures { result ≡ of_answer (rank_in Of.Space space.now tag (key (call_of level second phone 0))) }
{
    of_answer(reads::rank(Of::Space, space, tag, call(level, second, phone, 0)))
}

// Writes the calls that both lists have, of two tags in an image, to an output.
#[unsafe(no_mangle)]
pub extern "C" fn cix_both_image(image: &[u8], first: u32, second: u32, out: &mut [u8]) -> u64
    ensures value { result ≡ of_answer (answered Err (merge_in Merge.Both Of.Image image.now first second out.old)) }
    ensures out_after { out.new ≡ left (merge_in Merge.Both Of.Image image.now first second out.old) out.old }
{
    of_answer(reads::merge(Of::Image, image, Merge::Both, first, second, out))
}

// Writes the calls that both lists have, of two tags in a workspace, to an output.
#[unsafe(no_mangle)]
pub extern "C" fn cix_both_space(space: &[u8], first: u32, second: u32, out: &mut [u8]) -> u64
    ensures value { result ≡ of_answer (answered Err (merge_in Merge.Both Of.Space space.now first second out.old)) }
    ensures out_after { out.new ≡ left (merge_in Merge.Both Of.Space space.now first second out.old) out.old }
{
    of_answer(reads::merge(Of::Space, space, Merge::Both, first, second, out))
}

// Writes the calls that either list has, of two tags in an image, to an output.
#[unsafe(no_mangle)]
pub extern "C" fn cix_either_image(image: &[u8], first: u32, second: u32, out: &mut [u8]) -> u64
    ensures value { result ≡ of_answer (answered Err (merge_in Merge.Either Of.Image image.now first second out.old)) }
    ensures out_after { out.new ≡ left (merge_in Merge.Either Of.Image image.now first second out.old) out.old }
{
    of_answer(reads::merge(Of::Image, image, Merge::Either, first, second, out))
}

// Writes the calls that either list has, of two tags in a workspace, to an output.
#[unsafe(no_mangle)]
pub extern "C" fn cix_either_space(space: &[u8], first: u32, second: u32, out: &mut [u8]) -> u64
    ensures value { result ≡ of_answer (answered Err (merge_in Merge.Either Of.Space space.now first second out.old)) }
    ensures out_after { out.new ≡ left (merge_in Merge.Either Of.Space space.now first second out.old) out.old }
{
    of_answer(reads::merge(Of::Space, space, Merge::Either, first, second, out))
}

// Writes the first list's calls that the second has not, of two tags in an image, to an output.
#[unsafe(no_mangle)]
pub extern "C" fn cix_without_image(image: &[u8], first: u32, second: u32, out: &mut [u8]) -> u64
    ensures value { result ≡ of_answer (answered Err (merge_in Merge.Without Of.Image image.now first second out.old)) }
    ensures out_after { out.new ≡ left (merge_in Merge.Without Of.Image image.now first second out.old) out.old }
{
    of_answer(reads::merge(Of::Image, image, Merge::Without, first, second, out))
}

// Writes the first list's calls that the second has not, of two tags in a workspace, to an output.
#[unsafe(no_mangle)]
pub extern "C" fn cix_without_space(space: &[u8], first: u32, second: u32, out: &mut [u8]) -> u64
    ensures value { result ≡ of_answer (answered Err (merge_in Merge.Without Of.Space space.now first second out.old)) }
    ensures out_after { out.new ≡ left (merge_in Merge.Without Of.Space space.now first second out.old) out.old }
{
    of_answer(reads::merge(Of::Space, space, Merge::Without, first, second, out))
}

// A place and the length of n records as one number.
fn span(place: usize, n: usize) -> u64
    requires { (place < 1000000) × (n < 1000000) }
    ensures { result ≡ place * 4294967296 + 8 * n }
{
    place as u64 * 4294967296 + 8 * n as u64
}

// Where a tag's records lie in what is lent.
#[tactic(auto, using(gates::specs::GatesLaws::behind_gate, crate::specs::PlacesLaws::home_within, crate::specs::PlacesLaws::span_room, crate::specs::PlacesLaws::span_known, crate::specs::PlacesLaws::span_unknown, crate::specs::PlacesLaws::span_refused))]
fn span_in(of: Of, bytes: &[u8], tag: u32) -> u64
    ensures { result ≡ span_in of bytes.now tag }
{
    let Ok(()) = gates::gate(of, bytes) else {
        return 0;
    };
    let home = gates::home(of, bytes);
    let Some(block) = home::lookup::block_of(home, tag) else {
        return 0;
    };
    let at = bytes.len() - home.len();
    span(at + block.records().start, block.count)
}

// Where a tag's records lie in an image.
#[unsafe(no_mangle)]
pub extern "C" fn cix_show_image(image: &[u8], tag: u32) -> u64
    ensures { result ≡ span_in Of.Image image.now tag }
{
    span_in(Of::Image, image, tag)
}

// Where a tag's records lie in a workspace.
#[unsafe(no_mangle)]
pub extern "C" fn cix_show_space(space: &[u8], tag: u32) -> u64
    ensures { result ≡ span_in Of.Space space.now tag }
{
    span_in(Of::Space, space, tag)
}
