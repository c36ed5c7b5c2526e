//! What the definitions imply.
ghost use Rattle.live_text.specs.Laws.{GivenIsSpelled, HasOneLiveReading, MakesPlay, MakesSections, OnlyAddsCommands, ReadsByLines};

/// Does nothing. Its contract is a law: to read a live text line by line is to read its text.
pub fn live_reading_by_lines()
    ensures { ReadsByLines }
{}

/// Does nothing. Its contract is two laws. A text spells at most one header and list of commands. What stands behind a text
/// that spells commands only adds commands.
pub fn one_live_reading()
    ensures one { HasOneLiveReading }
    ensures begins { OnlyAddsCommands }
{}

/// Does nothing. Its contract is a law: lines that are read one after the other spell what was given at them.
pub fn what_is_given_is_spelled()
    ensures { GivenIsSpelled }
{}

/// Does nothing. Its contract is a law: the sections of the play of a live text fit, however many steps they have.
pub fn live_text_makes_sections()
    ensures { MakesSections }
{}

/// Does nothing. Its contract is a law: the play of a live text is a play, where it has few enough steps.
pub fn live_text_makes_play()
    ensures { MakesPlay }
{}
