// Why a call is refused: each refusal by name and number.
#![tactic(auto)]

ghost use Rattle.std.specs.Prelude.{◌≡◌};
ghost use Rattle.refusals.specs.Rules.{number_of};

// Each is told to C, and printed, by its number. There is no 16 and no 18.
#[derive(Clone, Copy, Debug, PartialEq, Eq)]
pub enum Refusal {
    // the image's head or length is not right
    BadHead = 1,
    // no longer given
    BadMark = 2,
    // the image's mark is not 0: recover first
    Unrecovered = 3,
    // recover: the log's count or page numbers are not right
    BadLog = 4,
    // the image's home is not sound
    UnsoundHome = 5,
    // the workspace has the wrong length
    SpaceLength = 6,
    // the workspace is not sound
    UnsoundSpace = 7,
    // put: that call is on the list already
    Listed = 8,
    // delete or set: no such call; drop: no such tag
    Unknown = 9,
    // put: the list has 989 calls
    ListFull = 10,
    // put: there are 256 tags
    TagsFull = 11,
    // put: all blocks together would not fit
    NoRoom = 12,
    // commit: more pages differ than the log has entries
    LogShort = 13,
    // format: sizes or step code out of range, or the length does not match
    Sizes = 14,
    // the output is shorter than the records to write
    OutputShort = 15,
    // put from the pit: the list has 64 calls or more
    PitFull = 17,
    // put of a new tag: its building has 8 tags or more, and the unused tags are kept for buildings that have fewer than 8
    BuildingFull = 19,
}

impl From<Refusal> for u8 {
    ghost from_gives = { λ r n. n ≡ number_of r };

    fn from(r: Refusal) -> u8 {
        r as u8
    }
}
