ghost use Rattle.trail_text.specs.Laws.{OneTrail, OnePlace, NeverBoth, EachRead};

/// Each text is the text of one trail, or is refused at one place, and never both.
pub fn texts_have_one_reading()
    ensures one_trail { OneTrail }
    ensures one_place { OnePlace }
    ensures never_both { NeverBoth }
    ensures each_read { EachRead }
{}
