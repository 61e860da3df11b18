//! All members of a crew, each in a thread of its own.
ghost use Rattle.std.specs.Prelude.{ℕ, ◌<◌, length, slice_index_or, All};

use std::thread;
use std::thread::Threads;

/// A member of a crew whose work can be done to its end, with a table, a program and a gate that it shares with others, and a runtime by which it
/// can wait.
pub trait WorksToEnd<R, T, K, G> {
    /// That the member may work with this table and this program.
    ghost may_work: { T → K → Self → Type 0 };

    /// That its work has ended, and what the member was before and is now.
    ghost has_worked: { T → K → Self → Self → Type 0 };

    /// Works until the work has ended. Before each try the member passes the gate.
    fn work_to_end(&mut self, rt: &R, table: &T, code: &K, gate: &G)
        requires { may_work table.now code.now self.old }
        ensures { has_worked table.now code.now self.old self.new };
}

/// Works all members until the work of each has ended, with as many threads as there are members, or as the system makes.
pub fn work_all<R: Threads + Sync, T: Sync, K: Sync, M: WorksToEnd<R, T, K, G> + Send, G: Sync>(
    rt: &R,
    table: &T,
    code: &K,
    crew: &mut [M],
    gate: &G,
)
    requires { All (M.may_work table.now code.now) crew.old }
    ensures { (i : ℕ) (d : M) → i < length crew.old → M.has_worked table.now code.now (slice_index_or crew.old i d) (slice_index_or crew.new i d) }
{
    if crew.is_empty() {
        return;
    }
    let threads = crew.len();
    thread::for_each_mut(
        rt,
        crew,
        threads,
        &|_, member| {
            member.work_to_end(rt, table, code, gate);
        },
    );
}
