// Both, either and first-without-second of two ordered lists of records in bytes.
#![tactic(auto)]

ghost use Rattle.std.specs.Prelude.{◌≡◌, [], ◌∷◌, ◌*◌, ◌≤◌, ◌<◌, length, MatchOption};
ghost use Rattle.wire.specs.Bytes.{over};
ghost use Rattle.records.specs.Records.{record_at, decode, encode};
ghost use Rattle.merges.specs.Merging.{of_first, of_second, keeps, next, merge};
ghost use Rattle.merges.specs.LoopLaws.{Lowest, Taken, left};

use records::Record;
use std::cmp::Ordering;

// Where the lowest call of two lists stands.
#[derive(Clone, Copy, Debug, PartialEq, Eq)]
pub enum Side {
    First,
    Shared,
    Second,
}

impl Side {
    // How many records of the first list the call takes up.
    fn of_first(self) -> usize
        ensures { result ≡ of_first self }
    {
        match self {
            Side::First | Side::Shared => 1,
            Side::Second => 0,
        }
    }

    // And how many of the second.
    fn of_second(self) -> usize
        ensures { result ≡ of_second self }
    {
        match self {
            Side::Shared | Side::Second => 1,
            Side::First => 0,
        }
    }
}

// What is made of two lists.
#[derive(Clone, Copy, Debug, PartialEq, Eq)]
pub enum Merge {
    Both,
    Either,
    Without,
}

impl Merge {
    // Whether a call is kept.
    fn keeps(self, side: Side) -> bool
        ensures { result ≡ keeps self side }
    {
        match self {
            Merge::Both => side == Side::Shared,
            Merge::Either => true,
            Merge::Without => side == Side::First,
        }
    }
}

// Two lists, or what is left of them. Its methods are inlined, since a loop over calls takes twice the time.
#[derive(Clone, Copy)]
struct Lists<'a> {
    first: &'a [u8],
    second: &'a [u8],
}

impl Lists<'_> {
    // Where the lowest call stands, if either list has one.
    #[inline(always)]
    fn lowest(&self) -> Option<Side>
        ensures { MatchOption result ((length self.now.first.now < 8) × (length self.now.second.now < 8)) (Lowest self.now.first.now self.now.second.now) }
    {
        let first_ended = self.first.len() < 8;
        if self.second.len() < 8 {
            return if first_ended { None } else { Some(Side::First) };
        }
        if first_ended {
            return Some(Side::Second);
        }
        let x = records::key_at(self.first, 0);
        let y = records::key_at(self.second, 0);
        match x.cmp(&y) {
            Ordering::Less => Some(Side::First),
            Ordering::Equal => Some(Side::Shared),
            Ordering::Greater => Some(Side::Second),
        }
    }

    // The record of the lowest call: the first list's where both have it.
    #[inline(always)]
    fn record(&self, side: Side) -> Record
        requires { (8 * of_first side ≤ length self.now.first.now) × (8 * of_second side ≤ length self.now.second.now) }
        ensures { result ≡ next side (record_at self.now.first.now 0) (record_at self.now.second.now 0) }
    {
        match side {
            Side::First => records::record_at(self.first, 0),
            Side::Shared => records::record_at(self.first, 0),
            Side::Second => records::record_at(self.second, 0),
        }
    }

    // Takes out the lowest call.
    #[inline(always)]
    fn next_call(&mut self) -> Option<(Side, Record)>
        ensures { MatchOption result ((length self.old.first.now < 8) × (length self.old.second.now < 8)) (λ p. Taken self.old.first.now self.old.second.now p.0 p.1 self.new.first.now self.new.second.now) }
    {
        let side = self.lowest()?;
        let r = self.record(side);
        self.first = &self.first[8 * side.of_first()..];
        self.second = &self.second[8 * side.of_second()..];
        Some((side, r))
    }

    // Takes out calls up to the next that a merge keeps.
    #[inline(always)]
    fn next(&mut self, m: Merge) -> Option<Record>
        ensures { MatchOption result (left m self.old.first.now self.old.second.now ≡ []) (λ r. left m self.old.first.now self.old.second.now ≡ r ∷ left m self.new.first.now self.new.second.now) }
    {
        while let Some((side, r)) = self.next_call() {
            if m.keeps(side) {
                return Some(r);
            }
        }
        None
    }
}

// How many records a merge of two lists has.
pub fn merge_count(m: Merge, a: &[u8], b: &[u8]) -> usize
    ensures { result ≡ length (merge m (decode a.now) (decode b.now)) }
{
    let mut lists = Lists {
        first: a,
        second: b,
    };
    let mut k = 0;
    while let Some(_) = lists.next(m) {
        k += 1;
    }
    k
}

// Writes a merge of two lists to an output that has room for it. Bytes beyond stay.
pub fn merge_into(m: Merge, a: &[u8], b: &[u8], out: &mut [u8]) -> usize
    requires { 8 * length (merge m (decode a.now) (decode b.now)) ≤ length out.old }
    ensures value { result ≡ length (merge m (decode a.now) (decode b.now)) }
    ensures out_after { out.new ≡ over out.old 0 (encode (merge m (decode a.now) (decode b.now))) }
{
    let mut lists = Lists {
        first: a,
        second: b,
    };
    let mut k = 0;
    while let Some(r) = lists.next(m) {
        records::store(out, 8 * k, r);
        k += 1;
    }
    k
}
