//! Laws of the orders of a play, each the contract of a call that does nothing.
ghost use Rattle.play_check.specs.Laws.{NoFurtherLaw, WaitingLaw, HistoryLaw};

/// If two numbers hold all frames and merges that wait for no more than they say, no order of the calls of a play has
/// more frames or merges.
pub fn orders_go_no_further()
    ensures { NoFurtherLaw }
{}

/// If each caller is over or waits for more than the lines that the other has passed give it, and one of them is not
/// over, the play is stuck.
pub fn callers_that_wait_are_stuck()
    ensures { WaitingLaw }
{}

/// The callers of a history that fits a play, entry by entry, are an order of the play, which has the frames and merges
/// of the history.
pub fn histories_are_orders()
    ensures { HistoryLaw }
{}
