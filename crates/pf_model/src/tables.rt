//! Tables by ids: there is memory for all entries, and as many are written as the greatest that was used asks.
ghost use Rattle.std.specs.Prelude.{◌≡◌, ◌+◌, ◌-◌, ◌<◌, ◌++◌, length, replicate};
ghost use Rattle.std.specs.Vec.{vec_capacity};

/// Writes unset entries up to this place, where there are none yet; there is memory for them. What counts as unset is the
/// default of their type: 0, false or none.
pub fn write_to<T: Default>(entries: &mut Vec<T>, place: usize)
    requires { place < vec_capacity entries.old }
    ensures items { (unset : T) → ((x : T) → T.is_default x → x ≡ unset)
        → entries.new.items ≡ entries.old.items ++ replicate (place + 1 - length entries.old.items) unset }
    ensures capacity { vec_capacity entries.new ≡ vec_capacity entries.old }
{
    for next in entries.len()..place + 1 {
        entries.push_reserved(T::default());
    }
}
