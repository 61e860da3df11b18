ghost use Rattle.made_laws.specs.Laws.{MadeLinesAddUp, MadeProgramsKeepTheRules, MadeProgramsPrintTwice, MadeSourcesAreTexts};

/// A made source is a text, whose tree is the made program.
pub fn made_sources_are_texts()
    ensures { MadeSourcesAreTexts }
{}

/// A made program keeps the rules of ownership.
pub fn made_programs_keep_the_rules()
    ensures { MadeProgramsKeepTheRules }
{}

/// The depth-first run of a made program prints the number of each group twice, in order, and meets no fault.
pub fn made_programs_print_twice()
    ensures { MadeProgramsPrintTwice }
{}

/// These are 2n numbers for n groups, and their sum is n(n - 1).
pub fn made_lines_add_up()
    ensures { MadeLinesAddUp }
{}
