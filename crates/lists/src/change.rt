// A tag's list that changes with its block.
ghost use Rattle.std.specs.Prelude.{◌≡◌, true, ◌≢◌, ◌+◌, ◌-◌, ◌*◌, ◌≤◌, ◌<◌, length};
ghost use Rattle.records.specs.Records.{insert as inserted, decode as records_in};
ghost use Rattle.layout.specs.Capacities.{class_of};
ghost use Rattle.home.specs.Bytes.{step_of, decode};
ghost use Rattle.home.specs.Sound.{pages_of, list_of};
ghost use Rattle.home.specs.Layout.{change};
ghost use Rattle.wire.specs.Bytes.{is_some};
ghost use Rattle.lists.specs.Listed.{Ranked, Missing, Moving, changed, without};

use crate::here::{insert_aside, remove_aside, remove_here};
use home::lookup::{Block, step_of};
use layout::classes::{LONGEST_LIST, class_of, under};
use records::Record;
use zones::afresh::settle;
use zones::take::take_out;

// The tag's list becomes this one, in a block of another class, for which there is room.
fn move_list(home: &mut [u8], tag: u32, block: Block, list: &[u8])
    requires { Moving home.old tag block.cell block.count list.now }
    ensures { home.new ≡ changed home.old tag (records_in list.now) }
{
    let step = step_of(home);
    take_out(home, step, tag, class_of(step, block.count), block.cell);
    settle(home, tag, list);
}

// The list with a record put in at rank j goes to a block of another class, for which there is room. It is made aside.
pub fn insert_moving(home: &mut [u8], tag: u32, block: Block, j: usize, r: Record, aside: &mut [u8])
    requires missing { Missing home.old tag block.cell block.count j r × (block.count < 989) × (class_of (step_of home.old) (block.count + 1) ≢ class_of (step_of home.old) block.count) × (8 * (block.count + 1) ≤ length aside.old) }
    requires home_value { is_some (change (step_of home.old) (8 * pages_of home.old) tag (inserted r (list_of home.old tag)) (decode home.old)) ≡ true }
    ensures { home.new ≡ changed home.old tag (inserted r (list_of home.old tag)) }
{
    let end = 8 * (block.count + 1);
    insert_aside(home, block, j, r, &mut aside[0..end]);
    move_list(home, tag, block, &aside[0..end]);
}

// The list without its record of rank j goes to a block of another class. There is always room.
fn remove_moving(home: &mut [u8], tag: u32, block: Block, j: usize, aside: &mut [u8])
    requires { Ranked home.old tag block.cell block.count j × (1 < block.count) × (class_of (step_of home.old) (block.count - 1) ≢ class_of (step_of home.old) block.count) × (8 * (block.count - 1) ≤ length aside.old) }
    ensures { home.new ≡ changed home.old tag (without j (list_of home.old tag)) }
{
    let end = 8 * (block.count - 1);
    remove_aside(home, block, j, &mut aside[0..end]);
    move_list(home, tag, block, &aside[0..end]);
}

// The list loses its record of rank j. Its block goes with the last record, and changes class where the list does.
pub fn remove_record(home: &mut [u8], tag: u32, block: Block, j: usize)
    requires { Ranked home.old tag block.cell block.count j }
    ensures { home.new ≡ changed home.old tag (without j (list_of home.old tag)) }
{
    let step = step_of(home);
    let c = class_of(step, block.count);
    if block.count == 1 {
        take_out(home, step, tag, c, block.cell);
    } else if under(step, c) < block.count - 1 {
        remove_here(home, block, j);
    } else {
        let mut aside = [0; LONGEST_LIST];
        remove_moving(home, tag, block, j, &mut aside);
    }
}
