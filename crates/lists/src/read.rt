// A key's rank in the list of a block.
ghost use Rattle.std.specs.Prelude.{◌≡◌, true};
ghost use Rattle.home.specs.Bytes.{list_at};
ghost use Rattle.home.specs.Lookup.{Within};
ghost use Rattle.records.specs.Records.{records as records_at, ranked as ranked_in, rising};

use home::lookup::Block;

// Finds a key among the block's records.
pub fn search_at(home: &[u8], block: Block, key: u64) -> Result<usize, usize>
    requires { Within home.now block × (rising (records_at home.now (list_at block.cell) block.count) ≡ true) }
    ensures { result ≡ ranked_in key (records_at home.now (list_at block.cell) block.count) }
{
    records::search(&home[block.records()], key)
}
