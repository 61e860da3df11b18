//! What the parallel loops of a text mean: their calls one after another, over numbers and over the parts of a block.
//!
//! The crate has laws alone. It uses expansions (`loop_expand`), texts and their trees (`par_text`, `canonical_text`), the rules of ownership
//! (`par_ownership`, `ownership_laws`) and the depth-first run (`depth_first_run`). Its theorem, [`laws::written_out_loops_are_plain`]: each
//! loop of the text has its call in the program. In the depth-first run this call prints what the calls of the loop's function print one
//! after another, ends by the same fault, and leaves the same store, as long as no limit of the language is met.
//! [`laws::loops_of_runs_are_plain`] says so of all points of a run: the block of a loop over parts is held once there, and is not too long.
//! [`laws::written_out_loops_stay_low`] bounds the words that the call of a loop over numbers takes. These are put together from:
//!
//! - [`run_laws`]: what statements print, whether and how a fault ends them, the store that they leave and the words that they take at most
//!   depend on the store that they begin with, and on nothing else of their thread (`specs/Outcomes.antt`).
//! - [`number_loop_laws`]: the call by which a loop over numbers is written out means the plain loop, with the sum of the answers. It takes at no
//!   time more than the words of one call and the records of as many threads as the count of the numbers can be halved.
//!   `specs/HelperTrees.antt` has the helpers, the functions that stand for loops, as trees, and `specs/PlainLoop.antt` what a loop means.
//! - [`part_loop_laws`]: the same for a loop over the parts of a block (`specs/Parts.antt`, `specs/PartsLoop.antt`), with what the calls have
//!   written into the block.
//! - [`tree_laws`]: the functions of an accepted expansion are those of the text with its loops replaced, and after them, in order, the helper of
//!   each loop. Some statement before the helpers is the call of this helper with what the loop says, and no other there calls it.
//!
//! # Why
//!
//! - **What a loop means is said by calls of its function one after another**, `plain_loop`, as a function of the state before it, and not by
//!   another program. The call that is in its place is stated beside it, and the law says of both that they print the same, fault the same, and
//!   leave the same store.
//! - **Two runs are compared by what they print, how they fault and what they leave**, and not by their actions: the written-out loop forks,
//!   the plain one does not. So the law requires that the outcome of a call depends only on what it passes. This is in modules of its own
//!   (`run_laws`, `specs/Outcomes.antt`), which know nothing of loops.
//! - **A limit of the language is left out of both.** A loop that is written out has calls in one another and forks above one another, so it
//!   may meet `Depth` where the plain loop does not. It has a thread of its own for half of the rounds, so it may do more rounds before
//!   `Turns`.
//! - **The sum begins with the first answer**, and is 0 if there is none. A tree may have a number beyond 64 bits, which only an addition
//!   brings back into them; for numbers of 64 bits the sum may as well begin at 0 (`sums_may_begin_at_zero`).
//! - **What the parts so far have become goes along with the calls** of a loop over parts, and is put together one after another at the end. So
//!   the loop can be cut in two anywhere. A block that was lent comes back after the other blocks, so both ways leave the same store, order and
//!   all.
//! - **The call of a loop is known by its callee**, and not by a path in the tree. No name of the text is that of a helper, so each statement
//!   that calls a helper is the call of its loop. Its expressions are those whose words the runs are, wherever they are.
//! - The bound on prefix sums is for each number d with n < 2^(d+1), so it is for the least such d, the logarithm rounded down, and no
//!   logarithm is defined.
#![tactic(auto)]

pub mod laws;
pub mod number_loop_laws;
pub mod part_loop_laws;
pub mod run_laws;
pub mod tree_laws;
