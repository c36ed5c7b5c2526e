//! Laws of the pipe invariant, each the contract of a call that does nothing.
ghost use Rattle.stage_parts.specs.Laws.{StreamLaw, PaintedLaw, FactsLaw};
ghost use Rattle.stage_parts.specs.Steps.{CullLaw, DrawLaw, SeatFramesLaw};
ghost use Rattle.stage_parts.specs.AppSteps.{AppLaw};
ghost use Rattle.stage_parts.specs.DbaseSteps.{DbaseLaw, LinesLaw, OpeningLaw};
ghost use Rattle.stage_parts.specs.Gathering.{GatheringLaw, CountingLaw};
ghost use Rattle.stage_parts.specs.Moves.{MovesLaw};
ghost use Rattle.stage_parts.specs.Numbers.{NumbersLaw};
ghost use Rattle.stage_parts.specs.Grows.{AppGrowsLaw, DbaseGrowsLaw, PipeGrowsLaw};

/// Where a pipe of at most four channels fits what its stages are given, and culling keeps the picture, the stream is
/// whole pictures of the history and a front of the next one; the retired frames are among those that were wholly written; and once the
/// application has closed, the stream is all pictures.
pub fn stream_is_a_front_of_the_pictures()
    ensures { StreamLaw }
{}

/// Images of the lens's size that show the pictures of draw lists have as their bytes what is painted of the lists.
pub fn shown_images_are_painted()
    ensures { PaintedLaw }
{}

/// CULL's part goes on: as it takes a load and holds what it makes of it, as it takes the End and holds it, and as it
/// sends what it holds.
pub fn cull_goes_on()
    ensures { CullLaw }
{}

/// DRAW's part goes on: as it takes a load and holds what it makes of it, as it takes the End, and as it sends what it
/// holds.
pub fn draw_goes_on()
    ensures { DrawLaw }
{}

/// What an entry adds to the Frames and the turns of a seat, and that others' entries add none.
pub fn frames_of_a_seat_go_on()
    ensures { SeatFramesLaw }
{}

/// What APP keeps goes on: while others' entries come, as it sends, passes a wait, makes a turn, and writes a picture
/// that came back, wholly or up to a fault.
pub fn app_goes_on()
    ensures { AppLaw }
{}

/// A pipe fits exactly where its history is legal, each caller's entries have the number of its desk, the links are in
/// order, and each stage keeps its part; then its history fits the play, and wholly where nothing is still asked.
pub fn fitting_is_gathering()
    ensures { GatheringLaw }
{}

/// Of a pipe that fits: a link with room for one packet more than frames may be in flight is never full where a stage
/// holds a packet for it; the End goes from stage to stage behind the closing Sync; and where no packet is held or under
/// way, all frames have come back.
pub fn packets_are_counted()
    ensures { CountingLaw }
{}

/// What DBASE keeps goes on: while others' entries come, as it passes a line, and as it makes a merge.
pub fn dbase_goes_on()
    ensures { DbaseLaw }
{}

/// What the next line of a section asks, and what it does to the open buffer.
pub fn lines_go_on()
    ensures { LinesLaw }
{}

/// Before the first step the parts of a pipe are gathered.
pub fn the_opening_fits()
    ensures { OpeningLaw }
{}

/// A pipe that fits makes entries, passes lines, sends and receives packets at most nine times for each line, and five
/// times besides.
pub fn moves_are_few()
    ensures { MovesLaw }
{}

/// Any two proofs that a pipe fits, or that a stage keeps its part, are equal, so that a type may keep one.
pub fn parts_are_facts()
    ensures { FactsLaw }
{}

/// What the numbers of a log's entries tell: no entries of a number give no turns of its caller; where all Frames are one
/// seat's, they are in each front of the log, and in a legal log they are where the application's entries have the seat's
/// number; and where only the numbers below some have entries, each entry has one of them.
pub fn numbers_tell()
    ensures { NumbersLaw }
{}

/// What APP keeps of its section stays while lines are given to it, until it closes, whatever number of merges the play
/// then has.
pub fn app_keeps_while_lines_are_given()
    ensures { AppGrowsLaw }
{}

/// What DBASE keeps of its section stays while lines are given to it.
pub fn dbase_keeps_while_lines_are_given()
    ensures { DbaseGrowsLaw }
{}

/// A pipe that fits a play fits it with more lines, until the application closes.
pub fn a_pipe_fits_while_lines_are_given()
    ensures { PipeGrowsLaw }
{}
