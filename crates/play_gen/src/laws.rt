//! Laws of generated plays, each the contract of a call that does nothing.
ghost use Rattle.play_gen.specs.Laws.{ReadingLaw, EndLaw};

/// The text of each generated play is one of a play.
pub fn each_text_has_a_reading()
    ensures { ReadingLaw }
{}

/// Each generated play can end: none of its waits and awaits waits for ever.
pub fn each_play_can_end()
    ensures { EndLaw }
{}
