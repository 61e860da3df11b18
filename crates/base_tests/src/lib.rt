//! Tests of small crates: lists, cuts of bytes, labels and rosters, dummies, operators, tokens, made sources, the maps and outputs of threads, the
//! arena (blocks out of a pool), and the edge of the program: its arguments, its streams, its texts and its trails.
//!
//! This crate has only tests. It uses the crates that it tests, each of which is so proved only once. It has no theorem.
#![tactic(auto)]

#[cfg(test)]
mod block_arena_calls;
#[cfg(test)]
mod bounded_list_calls;
#[cfg(test)]
mod byte_cuts_calls;
#[cfg(test)]
mod byte_streams_calls;
#[cfg(test)]
mod command_line_calls;
#[cfg(test)]
mod dag_order_calls;
#[cfg(test)]
mod dummy_tree_calls;
#[cfg(test)]
mod made_source_calls;
#[cfg(test)]
mod number_operators_calls;
#[cfg(test)]
mod par_lex_calls;
#[cfg(test)]
mod run_report_calls;
#[cfg(test)]
mod thread_map_calls;
#[cfg(test)]
mod thread_output_calls;
#[cfg(test)]
mod trail_text_calls;
