ghost use Rattle.loop_laws.specs.Laws.{LoopsFindTheirBlocks, LoopsOfRunsArePlain, WrittenOutLoopsArePlain, WrittenOutLoopsStayLow};

/// In the program of an accepted expansion each loop of the text means the plain loop.
pub fn written_out_loops_are_plain()
    ensures { WrittenOutLoopsArePlain }
{}

/// The call of a loop over numbers takes no more words than one round alone and the records of as many threads as the count of rounds can be
/// halved.
pub fn written_out_loops_stay_low()
    ensures { WrittenOutLoopsStayLow }
{}

/// Where the call of a loop over the parts of a block comes next in the run of an accepted program, this block is held once.
pub fn loops_find_their_blocks()
    ensures { LoopsFindTheirBlocks }
{}

/// So in such a run each loop of the text means the plain loop.
pub fn loops_of_runs_are_plain()
    ensures { LoopsOfRunsArePlain }
{}
