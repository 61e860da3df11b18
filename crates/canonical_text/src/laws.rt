ghost use Rattle.canonical_text.specs.Laws.{LinesDoNotMatter, CanonicalIsText, CanonicalStays};
ghost use Rattle.canonical_text.specs.ParenthesisLaws.{ParenthesesAreNeeded};

/// Programs that are the same but for lines have the same canonical text.
pub fn lines_do_not_matter()
    ensures { LinesDoNotMatter }
{}

/// The canonical text of a program that is the tree of a text is a text of the same program but for
/// lines, wherever it is not too long for a text.
pub fn canonical_is_text()
    ensures { CanonicalIsText }
{}

/// Whatever is read from a canonical text has that canonical text again, and is the same program but
/// for lines.
pub fn canonical_stays()
    ensures { CanonicalStays }
{}

/// A canonical text without one of its `(` and one of its `)` is no text of the same program: the bytes are no text, or
/// another tree. So parentheses stand only where the grammar needs them.
pub fn parentheses_are_needed()
    ensures { ParenthesesAreNeeded }
{
    lines_do_not_matter();
}
