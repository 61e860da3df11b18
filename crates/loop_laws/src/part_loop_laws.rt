ghost use Rattle.loop_laws.specs.PartLoopLaws.{ShortBlocksAreOnePart, LongBlocksAreHalved, PartsMakeTheBlock, PartsAreShort, PartsLoopsArePlain, SumsOfPartsMayBeginAtZero};

/// A block that a part may hold is its one part.
pub fn short_blocks_are_one_part()
    ensures { ShortBlocksAreOnePart }
{}

/// A longer block is cut in halves, which are cut on.
pub fn long_blocks_are_halved()
    ensures { LongBlocksAreHalved }
{}

/// The parts of a block, one behind the other, are the block.
pub fn parts_make_the_block()
    ensures { PartsMakeTheBlock }
{}

/// No part is longer than a part may be.
pub fn parts_are_short()
    ensures { PartsAreShort }
{}

/// A loop over the parts of a block that is written out as a call of its helper means the plain loop.
pub fn parts_loops_are_plain()
    ensures { PartsLoopsArePlain }
{}

/// The sum of a loop over parts may as well begin with 0.
pub fn sums_of_parts_may_begin_at_zero()
    ensures { SumsOfPartsMayBeginAtZero }
{}
