ghost use Rattle.par_names.specs.Laws.{TestsFindTheListed};

/// The tests for a name hold of just the names that are listed.
pub fn tests_find_the_listed()
    ensures { TestsFindTheListed }
{}
