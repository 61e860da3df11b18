ghost use Rattle.ownership_laws.specs.Laws.{StatementsFindTheirBlocks, RunsHoldWhatTheRulesSay, NothingIsHeldAtTheEnd, LiveWordsEndAtZero, EachStatementKeepsTheRules, EachStatementFindsItsBlocks, EachEndFindsItsBlocks};
ghost use Rattle.ownership_laws.specs.PointLaws.{EachNameHasOneBlock, NoBlockIsTooLong, StatementsPutWhereNoneIs, PartsAreApart, ParametersAreApart, FramesPutWhereNoneIs, CallsEndWithWhatGoesBack, MainEndsWithNothing, SplitBodiesKeepTheCut, SplitsEndInWholePieces, JoinsMeetNone, CallsTakeTheirAnswers, QuietStepsKeepTheWords, AllocationsRunWithoutFault, FaultedThreadsSkip};

/// A statement that keeps the ownership rules finds each block that it needs.
pub fn statements_find_their_blocks()
    ensures { StatementsFindTheirBlocks }
{}

/// Statements that keep the ownership rules leave a thread with the blocks that the rules say.
pub fn runs_hold_what_the_rules_say()
    ensures { RunsHoldWhatTheRulesSay }
{}

/// The root of an accepted program ends with no block and no open call.
pub fn nothing_is_held_at_the_end()
    ensures { NothingIsHeldAtTheEnd }
{}

/// All words that an accepted program takes are given back at its end.
pub fn live_words_end_at_zero()
    ensures { LiveWordsEndAtZero }
{}

/// At each point of the run of an accepted program the statement that comes next keeps the ownership rules from what
/// its thread holds.
pub fn each_statement_keeps_the_rules()
    ensures { EachStatementKeepsTheRules }
{}

/// At each point of the run of an accepted program the statement that comes next finds each block that it needs.
pub fn each_statement_finds_its_blocks()
    ensures { EachStatementFindsItsBlocks }
{}

/// At each point of the run of an accepted program the end of a call, of `main` or of a `split` finds each block that
/// it needs.
pub fn each_end_finds_its_blocks()
    ensures { EachEndFindsItsBlocks }
{}

/// At each point of a thread there is of each name at most one block.
pub fn each_name_has_one_block()
    ensures { EachNameHasOneBlock }
{}

/// At each point of a thread no block has more numbers than a block may have.
pub fn no_block_is_too_long()
    ensures { NoBlockIsTooLong }
{}

/// A statement puts a block under a name where none is.
pub fn statements_put_where_none_is()
    ensures { StatementsPutWhereNoneIs }
{}

/// The two parts of a `split` have different names.
pub fn parts_are_apart()
    ensures { PartsAreApart }
{}

/// The parameters of a call that take a block have different names.
pub fn parameters_are_apart()
    ensures { ParametersAreApart }
{}

/// An allocation behind its dummies and the end of a `split` put their block where none is.
pub fn frames_put_where_none_is()
    ensures { FramesPutWhereNoneIs }
{}

/// At the end of a call nothing is held but what goes back or is handed out, and it meets no block there.
pub fn calls_end_with_what_goes_back()
    ensures { CallsEndWithWhatGoesBack }
{}

/// At the end of `main` nothing is held.
pub fn main_ends_with_nothing()
    ensures { MainEndsWithNothing }
{}

/// The body of a `split` leaves the left part as long as it was cut.
pub fn split_bodies_keep_the_cut()
    ensures { SplitBodiesKeepTheCut }
{}

/// At the end of a `split` its left part is whole pieces, as it was cut.
pub fn splits_end_in_whole_pieces()
    ensures { SplitsEndInWholePieces }
{}

/// The blocks that a child brings back meet none under their names.
pub fn joins_meet_none()
    ensures { JoinsMeetNone }
{}

/// The target of a call takes what its function hands back.
pub fn calls_take_their_answers()
    ensures { CallsTakeTheirAnswers }
{}

/// A step that does no action keeps the words that its thread holds.
pub fn quiet_steps_keep_the_words()
    ensures { QuietStepsKeepTheWords }
{}

/// The dummies of an allocation, and the allocation behind them, are done by a thread that no fault ended.
pub fn allocations_run_without_fault()
    ensures { AllocationsRunWithoutFault }
{}

/// A thread that a fault ended skips its frames up to the next open child.
pub fn faulted_threads_skip()
    ensures { FaultedThreadsSkip }
{}
