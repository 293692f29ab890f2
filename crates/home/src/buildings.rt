// The buildings' parts of the tags, counted along the dictionary: its tags rise, so that those of a building stand together.
ghost use Rattle.std.specs.Prelude.{◌≡◌, true, ◌<◌, leb};
ghost use Rattle.wire.specs.Bytes.{get16};
ghost use Rattle.layout.specs.Zones.{blocks, tags};
ghost use Rattle.layout.specs.Buildings.{building, owned, building_full};
ghost use Rattle.home.specs.Bytes.{decode, tag_at, first_tags};
ghost use Rattle.home.specs.Sound.{sound as is_sound};
ghost use Rattle.home.specs.Lookup.{Ordered};

// The tags of one building: its number is their top four bits.
const PER_BUILDING: u32 = 268435456;

// The building of the i-th entry.
fn building_at(home: &[u8], i: usize) -> u32
    requires { Ordered home.now × (i < get16 home.now 0) }
    ensures { result ≡ building (tag_at home.now i) }
{
    wire::get32(home, 128 + 6 * i) / PER_BUILDING
}

// Whether eight entries of its building stand before the i-th: then the one eight places before it is of that building.
fn beyond_eighth(home: &[u8], i: usize) -> bool
    requires { Ordered home.now × (i < get16 home.now 0) }
    ensures { result ≡ leb 8 (owned (building (tag_at home.now i)) (first_tags home.now i)) }
{
    i >= 8 && building_at(home, i - 8) == building_at(home, i)
}

// Whether a tag's building may not add it: it has 8 or more, and 128 tags, all that 16 times 8 leave of 256, are beyond the eighth of theirs.
// That takes 136 tags; fewer are not looked at.
pub fn building_full(home: &[u8], tag: u32) -> bool
    requires { is_sound home.now ≡ true }
    ensures { result ≡ building_full tag (tags (blocks (decode home.now))) }
{
    let n = wire::get16(home, 0);
    if n < 136 {
        return false;
    }
    let mine = tag / PER_BUILDING;
    let mut own = 0;
    let mut beyond = 0;
    for i in 0..n {
        own += usize::from(building_at(home, i) == mine);
        beyond += usize::from(beyond_eighth(home, i));
    }
    (own >= 8) & (beyond >= 128)
}
