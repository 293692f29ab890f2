// A tag's list changed where its block lies, and the changed list made aside for a block of another class.
ghost use Rattle.std.specs.Prelude.{◌≡◌, ◌+◌, ◌-◌, ◌*◌, ◌≤◌, ◌<◌, length};
ghost use Rattle.home.specs.Bytes.{list_at};
ghost use Rattle.home.specs.Lookup.{Within};
ghost use Rattle.lists.specs.Lists.{inserted_here, removed_here, set_here, grown, shrunk};

use home::AREA;
use home::lookup::Block;
use records::Record;

// Puts a record in at rank j of the block's records, which has a free cell behind them.
pub fn insert_here(home: &mut [u8], block: Block, j: usize, r: Record)
    requires { (j ≤ block.count) × (list_at block.cell + 8 * (block.count + 1) ≤ length home.old) }
    ensures { home.new ≡ inserted_here home.old block.cell block.count j r }
{
    let grown = Block {
        count: block.count + 1,
        ..block
    };
    records::insert(&mut home[grown.records()], j, r);
    wire::put16(home, AREA + 8 * block.cell + 4, grown.count);
}

// Takes the record at rank j out of the block's records.
pub fn remove_here(home: &mut [u8], block: Block, j: usize)
    requires { (j < block.count) × Within home.old block }
    ensures { home.new ≡ removed_here home.old block.cell block.count j }
{
    records::remove(&mut home[block.records()], j);
    wire::put16(home, AREA + 8 * block.cell + 4, block.count - 1);
}

// Sets the minutes of the record at rank j of the block's records.
pub fn set_here(home: &mut [u8], block: Block, j: usize, minutes: u8)
    requires { (j < block.count) × Within home.old block }
    ensures { home.new ≡ set_here home.old block.cell block.count j minutes }
{
    records::set_minutes(&mut home[block.records()], j, minutes);
}

// Writes the block's records to out, with a record put in at rank j.
pub fn insert_aside(home: &[u8], block: Block, j: usize, r: Record, out: &mut [u8])
    requires { (j ≤ block.count) × Within home.now block × (length out.old ≡ 8 * (block.count + 1)) }
    ensures { out.new ≡ grown home.now block.cell block.count j r }
{
    let list = &home[block.records()];
    out[..list.len()].copy_from_slice(list);
    records::insert(out, j, r);
}

// Writes the block's records to out, without the one at rank j.
pub fn remove_aside(home: &[u8], block: Block, j: usize, out: &mut [u8])
    requires { (j < block.count) × Within home.now block × (length out.old ≡ 8 * (block.count - 1)) }
    ensures { out.new ≡ shrunk home.now block.cell block.count j }
{
    let list = &home[block.records()];
    let at = 8 * j;
    out[..at].copy_from_slice(&list[..at]);
    out[at..].copy_from_slice(&list[at + 8..]);
}
