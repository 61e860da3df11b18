ghost use Rattle.std.specs.Prelude.{◌≡◌, ℕ, List, true, IfOk};
ghost use Rattle.par_tree.specs.View.{body_tree};
ghost use Rattle.par_tree.specs.Names.{names_in_body, assigns_in_body};
ghost use Rattle.par_tree.specs.Names.{is_among};
ghost use Rattle.par_names.specs.Sets.{names_behind, has, is_asked};

use crate::assigned::add_assigned;
use crate::mentioned::add_names;
use crate::mentions::{assigns_in, names_in};
use crate::name_set::{NameSet, is_asked};
use par_tree::Stmt;
use std::alloc::{AllocError, Global};

/// A list of statements that was walked once for its names, so that each of many tests is cheap. It is let go by a call, so that the steps of
/// that are proved once, and not at each exit of what owns one.
pub struct NamedBody<'a> {
    pub(crate) body: &'a [Stmt],
    asked: Option<NameSet<'a>>,
    named: NameSet<'a>,
    assigned: NameSet<'a>,
    ghost are_named: { (x : List ℕ) → is_asked asked x ≡ true → has named x ≡ names_in_body x (body_tree body.now) },
    ghost are_assigned: { (x : List ℕ) → is_asked asked x ≡ true → has assigned x ≡ assigns_in_body x (body_tree body.now) },
}

impl Drop for NamedBody<'_> {
    fn drop(self) {
        let NamedBody {
            body: _,
            asked: _asked,
            named: _named,
            assigned: _assigned,
        } = self;
    }
}

/// The names that are asked for, or none where they are more than those that are to be tested for it.
fn asked_of<'a>(
    alloc: Global,
    asked: &[&'a [u8]],
    tested: usize,
) -> Result<Option<NameSet<'a>>, AllocError>
    ensures { IfOk result (λ o. (x : List ℕ) → is_among x (names_behind asked.now) ≡ true → is_asked o x ≡ true) }
{
    if tested < asked.len() {
        return Ok(None);
    }
    let names = NameSet::of(alloc, &None, asked)?;
    Ok(Some(names))
}

impl<'a> NamedBody<'a> {
    ghost use Rattle.par_names.specs.Named.{body_of};

    /// Walks a list of statements. Tests for the names that are asked for are cheap, and each other
    /// test walks the statements again.
    ///
    /// # Errors
    ///
    /// Where there is not enough memory for the names.
    pub fn of(alloc: Global, body: &'a [Stmt], asked: &[&'a [u8]]) -> Result<Self, AllocError>
        ensures { IfOk result (λ b. body_of b ≡ body_tree body.now) }
    {
        let mut names = Vec::new(alloc);
        add_names(body, &mut names)?;
        let asked = asked_of(alloc, asked, names.len())?;
        let named = NameSet::of(alloc, &asked, &names)?;
        names.clear();
        add_assigned(body, &mut names)?;
        let assigned = NameSet::of(alloc, &asked, &names)?;
        Ok(NamedBody {
            body,
            asked,
            named,
            assigned,
        })
    }

    /// Whether the statements name `name`.
    pub fn names(&self, name: &[u8]) -> bool
        ensures { result ≡ names_in_body name.now (body_of self.now) }
    {
        if !is_asked(&self.asked, name) {
            return names_in(name, self.body);
        }
        self.named.has(name)
    }

    /// Whether the statements assign to the integer `name`.
    pub fn assigns(&self, name: &[u8]) -> bool
        ensures { result ≡ assigns_in_body name.now (body_of self.now) }
    {
        if !is_asked(&self.asked, name) {
            return assigns_in(name, self.body);
        }
        self.assigned.has(name)
    }
}
