//! Laws of the hosts' waits, in a model, each the contract of a call that does nothing.
ghost use Rattle.mode_hosts.specs.Laws.{OpeningLaw, PollLaw, AnswerLaw, ProgressLaw, BellLaw, HostsLaw};

/// A system that has not begun, with its desks and links together and each seat keeping its part, is a system of the
/// play.
pub fn the_opening_is_of_its_play()
    ensures { OpeningLaw }
{}

/// A poll of a stage, alone, keeps what a system of a play keeps.
pub fn polls_keep_the_system()
    ensures { PollLaw }
{}

/// A poll of a stage, alone, that returns `NotYet` finds it waiting, for the cause that it names, and one that returns
/// `Over` finds it over.
pub fn an_idle_poll_tells_why()
    ensures { AnswerLaw }
{}

/// If the stop mark is not set and a poll of each stage, alone, would do nothing, all stages have ended, or the play is
/// stuck.
pub fn the_stages_make_progress()
    ensures { ProgressLaw }
{}

/// Of hosts that wait at the bell by its rule: if a host sleeps, it will wake, or still none of its stages would do
/// anything and one of them waits. If all sleep or have left, the latter holds of each that sleeps.
pub fn no_ring_is_lost()
    ensures { BellLaw }
{}

/// In a play that is not stuck, hosts of which each sleeps or has left have all left.
pub fn sleeping_hosts_have_left()
    ensures { HostsLaw }
{}
