//! Laws of the database process, as the contract of a call that does nothing.
ghost use Rattle.frame_stages.specs.DbaseWorks.{HoldsOnLaw, HoldsFactLaw};

/// What the database process holds to stays while the log grows by entries of which none is its own, and any two proofs of
/// it are equal.
pub fn the_database_process_holds_on()
    ensures on { HoldsOnLaw }
    ensures fact { HoldsFactLaw }
{}
