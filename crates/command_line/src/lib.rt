//! Which arguments of a command line are a command.
//!
//! The first argument is the command. Behind it stand its options in any order, each at most once, as two arguments
//! `--name value` or as one argument `--name=value`. The command `make` also has one plain argument, its number of groups, at any
//! place among them. A value, and a plain argument, is 1 to 20 decimal digits, whose number is in its range. There are no
//! abbreviations and no options of one `-`.
//!
//! A further option is a variant of `Setting`, its name, its rule, its field, and the commands that have it.
//!
//! The layer stands on `byte_cuts` and `language_limits`, and takes no memory. Its one theorem is the contract of
//! [`read_arguments`]: the answer is the one command that the arguments are by `specs/Arguments.antt`, and None where they are none.
//!
//! # Why
//!
//! - **An item is an option, its value, and whether both are in one argument; or a plain argument, which `make` requires once.** The arguments
//!   are the name of the command and then those of the items, so the definition asks nothing of arguments that look like options. No name of an
//!   option has a `=`, so arguments are spelled by one list of items.
//! - **`run` is no command**: it is missing from the type, and not refused by a rule.
//! - A further option is a variant of `Setting` with its name, its rule and its field, here and in the definition, and a place in the lists of
//!   the commands that have it. The laws go over the variants by clauses and need one more each.
//! - An option that a command does not have has its default in the answer, so that equal commands are equal values.
//! - **`Command` has a field for the number of groups**, which is 0 for every command except `make`. So the kind of a command carries no data,
//!   and what is said of a kind is said by cases on six names.
#![tactic(auto)]

mod command;
mod command_kind;
mod item;
mod numbers;
mod reading;
mod rule;
mod setting;
mod value;

pub use command::Command;
pub use command_kind::CommandKind;
pub use reading::read_arguments;
pub use setting::Setting;
