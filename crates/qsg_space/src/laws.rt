//! What holds of the maps of blocks, for all of them.

ghost use Rattle.std.specs.Prelude.{◌≡◌, ◌<◌, Bool, List, length, map, if◌then◌else◌, slice_index_or};
ghost use Rattle.std.specs.List.Sorted.{IsStrictlyIncreasing};
ghost use Rattle.qsg_space.specs.Spaces.{free_blocks, free_count, marked, is_free, has_block, number_of};
ghost use Rattle.qsg_num.specs.declared.ids.Block.{Block};

/// The free blocks are those that are in range and not used.
pub fn free_blocks_are_free()
    ensures { (used : List Bool) (b : Block) → has_block b (free_blocks used) ≡ is_free used b }
{}

/// The free blocks stand in rising order.
pub fn free_blocks_rise()
    ensures { (used : List Bool) → IsStrictlyIncreasing (map number_of (free_blocks used)) }
{}

/// There are as many as are counted.
pub fn free_blocks_are_counted()
    ensures { (used : List Bool) → length (free_blocks used) ≡ free_count used }
{}

/// After blocks are marked, each of them that is in range is as it was marked, and each other block is as it was.
pub fn marked_blocks_alone_change()
    ensures { (now : Bool) (bs : List Block) (used : List Bool) (b : Block) (d : Bool) → b.number < length used →
        slice_index_or (marked now bs used) b.number d ≡ (if has_block b bs then now else slice_index_or used b.number d) }
{}
