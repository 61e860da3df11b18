ghost use Rattle.std.specs.Prelude.{ℕ, List};
ghost use Rattle.frame_code.specs.Numbers.{func_names, number_in, IsNumber};
ghost use Rattle.frame_code.specs.Slotted.{Has};

use par_tree::Func;
use std::alloc::{AllocError, Global};
use std::collections::BTreeMap;

/// The functions of a program, and their numbers by their names.
#[derive(Drop)]
pub(crate) struct FunctionNumbers<'a> {
    pub(crate) funcs: &'a [Func],
    numbers: BTreeMap<&'a [u8], u32>,
    ghost are_numbers: { (x : List ℕ) → Has (func_names funcs.now) x → IsNumber (func_names funcs.now) x (number_in numbers x) },
}

impl<'a> FunctionNumbers<'a> {
    ghost use Rattle.std.specs.Prelude.{◌≡◌, ◌≤◌, IfOk, length};
    ghost use Rattle.node_table.specs.Names.{IsSlot};
    ghost use Rattle.frame_code.specs.Slotted.{most_nodes};

    /// Takes down the number of each function.
    pub(crate) fn of(alloc: Global, funcs: &'a [Func]) -> Result<Self, AllocError>
        requires { length funcs.now ≤ most_nodes }
        ensures { IfOk result (λ n. n.funcs.now ≡ funcs.now) }
    {
        let mut numbers = BTreeMap::new(alloc);
        for i in 0..funcs.len() {
            numbers.insert(funcs[i].name.bytes.as_slice(), i as u32)?;
        }
        Ok(FunctionNumbers { funcs, numbers })
    }

    /// The number of the function of a name.
    pub(crate) fn number(&self, name: &[u8]) -> u32
        requires { Has (func_names self.now.funcs.now) name.now }
        ensures { IsSlot (func_names self.now.funcs.now) result name.now }
    {
        match self.numbers.get(name) {
            Some(number) => *number,
            None => unreachable!(),
        }
    }
}
