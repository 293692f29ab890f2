// The reads of an image or of a workspace: count, rank, show and the merges.
#![tactic(auto)]

ghost use Rattle.std.specs.Prelude.{◌≡◌, ◌+◌, Err};
ghost use Rattle.refusals.specs.Rules.{answered, left};
ghost use Rattle.records.specs.Records.{key, decode};
ghost use Rattle.merges.specs.Merging.{merge as merged};
ghost use Rattle.reads.specs.Reads.{count_in, rank_in, show_in, show_from};
ghost use Rattle.reads.specs.Merges.{written, merge_in};

use gates::Of;
use merges::Merge;
use records::Record;
use refusals::Refusal;

// Counts a tag's list.
#[tactic(auto, using(gates::specs::GatesLaws::behind_gate), unfolding(crate::specs::Reads::count_in))]
pub fn count(of: Of, bytes: &[u8], tag: u32) -> Result<usize, Refusal>
    ensures { result ≡ count_in of bytes.now tag }
{
    gates::gate(of, bytes)?;
    Ok(home::lookup::count(gates::home(of, bytes), tag))
}

// Counts the records of a tag's list before a record's primary part, which need not be listed.
#[tactic(auto, using(gates::specs::GatesLaws::behind_gate, crate::specs::ReadsLaws::list_rises, crate::specs::ReadsLaws::list_reads), unfolding(crate::specs::Reads::rank_in))]
pub fn rank(of: Of, bytes: &[u8], tag: u32, r: Record) -> Result<usize, Refusal>
    ensures { result ≡ rank_in of bytes.now tag (key r) }
{
    gates::gate(of, bytes)?;
    let list = home::lookup::list(gates::home(of, bytes), tag);
    Ok(records::count_before(list, records::key_of(r)))
}

// The part of the lent bytes that holds a tag's records.
#[tactic(auto, using(gates::specs::GatesLaws::behind_gate), unfolding(crate::specs::Reads::show_in, crate::specs::Reads::show_from))]
pub fn show(of: Of, bytes: &[u8], tag: u32) -> &[u8]
    ensures result_value { result.now ≡ show_in of bytes.now tag }
    ensures ref_ptr_value { (result.ref_ptr.0 ≡ bytes.entry.ref_ptr.0) × (result.ref_ptr.1 ≡ bytes.entry.ref_ptr.1 + show_from of bytes.now tag) }
{
    match gates::gate(of, bytes) {
        Ok(()) => home::lookup::list(gates::home(of, bytes), tag),
        Err(_) => &bytes[0..0],
    }
}

// A merge of two lists to an output, if it has room for it.
#[tactic(auto, unfolding(refusals::specs::Rules::first))]
fn merge_lists(m: Merge, xs: &[u8], ys: &[u8], out: &mut [u8]) -> Result<usize, Refusal>
    ensures value { result ≡ answered Err (written (merged m (decode xs.now) (decode ys.now)) out.old) }
    ensures out_after { out.new ≡ left (written (merged m (decode xs.now) (decode ys.now)) out.old) out.old }
{
    let k = merges::merge_count(m, xs, ys);
    if out.len() / 8 < k {
        return Err(Refusal::OutputShort);
    }
    Ok(merges::merge_into(m, xs, ys, out))
}

// Writes both, either or first-without-second of two tags' lists to an output.
#[tactic(auto, using(gates::specs::GatesLaws::behind_gate, crate::specs::ReadsLaws::list_reads), unfolding(crate::specs::Merges::merge_in))]
pub fn merge(
    of: Of,
    bytes: &[u8],
    m: Merge,
    first: u32,
    second: u32,
    out: &mut [u8],
) -> Result<usize, Refusal>
    ensures value { result ≡ answered Err (merge_in m of bytes.now first second out.old) }
    ensures out_after { out.new ≡ left (merge_in m of bytes.now first second out.old) out.old }
{
    gates::gate(of, bytes)?;
    let home = gates::home(of, bytes);
    let xs = home::lookup::list(home, first);
    let ys = home::lookup::list(home, second);
    merge_lists(m, xs, ys, out)
}
