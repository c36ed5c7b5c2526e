//! What the definitions imply.
ghost use Rattle.live_feed.specs.Laws.{FedIsSpelled, GivenGrows, PlayGrows};

/// Does nothing. Its contract is a law: what was given is one header and then commands, and a front of the text spells them.
pub fn what_is_fed_is_spelled()
    ensures { FedIsSpelled }
{}

/// Does nothing. Its contract is two laws: what one more command adds to the commands that were given, and to the play of
/// them.
pub fn one_command_more()
    ensures given { GivenGrows }
    ensures play { PlayGrows }
{}
