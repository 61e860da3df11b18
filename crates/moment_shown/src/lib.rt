//! What the parts of a scheduler show of the machine's moment, and what each event does to them.
//!
//! The machine speaks of labels in deques, of waiting labels, and of books of places. A scheduler holds threads with ids, counts and open
//! children, results under ids, and periods, each in a part of its own. This layer says which moment such parts show, and that each event of
//! the machine, done on the parts, leads to parts that show the moment behind it. It holds definitions and laws alone, so that a scheduler in
//! one hand and one whose parts stand in slots say the same of them.
//!
//! It stands on the machine (`deque_machine`) and on periods as books (`open_periods`). Its one theorem, by the functions of [`laws`]: what
//! the worker's top thread does next, done on the parts, is an event of the machine that may come.
#![tactic(auto)]

pub mod laws;
