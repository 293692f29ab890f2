// The stages of commit and recover. One meter is made for a call and lent to each of its stages in turn.
// In each stage a function of `entry` makes what stores it can of those left, and the meter counts them.
ghost use Rattle.std.specs.Prelude.{◌+◌, ◌<◌, ◌^◌, drop};
ghost use Rattle.redo.specs.Entry.{entries, changes, Replayable, Loggable};
ghost use Rattle.redo.specs.Stores.{recover_stores, log_stores, commit_stores};
ghost use Rattle.redo.specs.Stage.{Stage};

use crate::entry;
use crate::meter::Meter;

// The first stage of a commit: the entries of the k pages that differ, their count, and the mark.
fn log_stage(image: &mut [u8], home: usize, space: &[u8], pages: usize, k: usize, meter: &mut Meter)
    requires { Loggable image.old home space.now pages k × (meter.old.left + meter.old.made < 2 ^ 64) }
    ensures { Stage meter.old.left meter.old.made (log_stores (changes (drop home image.old) space.now pages)) image.old meter.new.left meter.new.made image.new }
{
    let made = entry::write_log(image, home, space, pages, k, meter.left);
    meter.spend(made);
}

// The last stage of a commit and the only one of a recovery: the logged pages to home, then the mark cleared.
fn replay_stage(image: &mut [u8], k: usize, home: usize, meter: &mut Meter)
    requires { (0 < meter.old.left → Replayable image.old home k) × (meter.old.left + meter.old.made < 2 ^ 64) }
    ensures { Stage meter.old.left meter.old.made (recover_stores home (entries image.old 0 k)) image.old meter.new.left meter.new.made image.new }
{
    let made = entry::replay_log(image, k, home, meter.left);
    meter.spend(made);
}

// A recovery: one stage.
pub fn recover(image: &mut [u8], k: usize, home: usize, start: Meter) -> Meter
    requires { Replayable image.old home k × (start.left + start.made < 2 ^ 64) }
    ensures { Stage start.left start.made (recover_stores home (entries image.old 0 k)) image.old result.left result.made image.new }
{
    let mut meter = start;
    replay_stage(image, k, home, &mut meter);
    meter
}

// A commit: both stages in turn.
pub fn commit(
    image: &mut [u8],
    home: usize,
    space: &[u8],
    pages: usize,
    k: usize,
    start: Meter,
) -> Meter
    requires { Loggable image.old home space.now pages k × (0 < k) × (pages < 65536) × (start.left + start.made < 2 ^ 64) }
    ensures { Stage start.left start.made (commit_stores home (changes (drop home image.old) space.now pages)) image.old result.left result.made image.new }
{
    let mut meter = start;
    log_stage(image, home, space, pages, k, &mut meter);
    replay_stage(image, k, home, &mut meter);
    meter
}
