//! The keys by which a graph chooses its next block. Those of clear blocks are the noted ones. A block
//! that isn't clear may have any key among them, and loses it once it would be the best.
ghost use Rattle.std.specs.Prelude.{◌≡◌, ◌<◌, All, length};
ghost use Rattle.pb_lease.specs.Tables.{blocks};
ghost use Rattle.pb_lease.specs.Free.{Shows, IsIn, IsClearIn, IsBesideHot, KeepsClear};

use crate::tables::MachineTables;
use pb_bundles::{Homes, KeyTree};

/// The block has the key that is noted.
pub fn show(free: &mut KeyTree, homes: &Homes, block: u32)
    requires { block < length free.old }
    ensures { Shows (λ b. b ≡ block) homes.now.keys free.old free.new }
{
    let key = homes.key(block);
    if free.get(block) != key {
        free.set(block, key);
    }
}

/// Every block has the key that is noted.
pub fn show_every(free: &mut KeyTree, homes: &Homes)
    requires { length homes.now.keys ≡ length free.old }
    ensures { Shows (λ b. b < length free.old) homes.now.keys free.old free.new }
{
    for block in 0..homes.count() {
        show(free, homes, block);
    }
}

/// These blocks have the keys that are noted.
pub fn show_all(free: &mut KeyTree, homes: &Homes, near: &[u32])
    requires { All (λ b. b < length free.old) near.now }
    ensures { Shows (IsIn near.now) homes.now.keys free.old free.new }
{
    for block in near {
        show(free, homes, *block);
    }
}

/// Those of these blocks that are clear have the keys that are noted.
pub fn show_clear(free: &mut KeyTree, homes: &Homes, tables: &MachineTables, near: &[u32])
    requires places { length free.old ≡ (blocks tables.now).count }
    requires inside { All (λ b. b < (blocks tables.now).count) near.now }
    ensures { Shows (IsClearIn tables.now near.now) homes.now.keys free.old free.new }
{
    for block in near {
        if tables.is_clear(*block) {
            show(free, homes, *block);
        }
    }
}

/// The blocks that interfere with a hot one in the interference of the block have the keys that are
/// noted.
pub fn show_beside_hot(free: &mut KeyTree, homes: &Homes, tables: &MachineTables, block: u32)
    requires places { length free.old ≡ (blocks tables.now).count }
    requires block { block < (blocks tables.now).count }
    ensures { Shows (IsBesideHot tables.now block) homes.now.keys free.old free.new }
{
    let near = tables.abstraction().interference(block);
    for other in near {
        if tables.is_hot(*other) {
            show_all(free, homes, tables.abstraction().interference(*other));
        }
    }
}

/// Takes keys of blocks that aren't clear away, until the best block is clear.
pub fn prune(free: &mut KeyTree, tables: &MachineTables)
    requires { length free.old ≡ (blocks tables.now).count }
    ensures { KeepsClear tables.now free.old free.new }
{
    for _ in 0..tables.abstraction().count() {
        match free.first(&|_| true) {
            Some(block) => {
                if tables.is_clear(block) {
                    return;
                }
                free.set(block, None);
            }
            None => return,
        }
    }
}
