//! Memory for tables by ids or states, and for lists.
ghost use Rattle.std.specs.Prelude.{◌≡◌, ◌+◌, ◌*◌, ◌≤◌, max, IfOk, OnOk};
ghost use Rattle.std.specs.Vec.{vec_len, vec_capacity};

use pf_io::NoMemory;

/// Takes memory for this many entries, and writes none.
pub(crate) fn grow<T>(entries: &mut Vec<T>, n: usize) -> Result<(), NoMemory>
    requires { vec_len entries.old ≤ n }
    ensures items { entries.new.items ≡ entries.old.items }
    ensures more { vec_capacity entries.old ≤ vec_capacity entries.new }
    ensures few { vec_capacity entries.new ≤ max (vec_capacity entries.old) n }
    ensures room { OnOk result (n ≤ vec_capacity entries.new) }
{
    entries.reserve_exact(n - entries.len())?;
    Ok(())
}

/// Makes room for `n` more entries in a list that has room for so many in all, and returns for how many it has room then, at
/// most `most`. Where memory is missing, it takes as much as for twice the entries if that is more, so that it is taken seldom.
pub(crate) fn grown<T>(
    entries: &mut Vec<T>,
    room: usize,
    n: usize,
    most: usize,
) -> Result<usize, NoMemory>
    requires within { vec_len entries.old ≤ room }
    requires reserved { room ≤ vec_capacity entries.old }
    requires small { room ≤ most }
    ensures items { entries.new.items ≡ entries.old.items }
    ensures len { vec_len entries.new ≡ vec_len entries.old }
    ensures room { IfOk result (λ r. r ≡ max room (vec_len entries.old + n)) }
    ensures reserved { IfOk result (λ r. r ≤ vec_capacity entries.new) }
    ensures small { IfOk result (λ r. r ≤ most) }
    ensures more { vec_capacity entries.old ≤ vec_capacity entries.new }
    ensures few { vec_capacity entries.new ≤ max (vec_capacity entries.old) (vec_len entries.old + max n (vec_len entries.old)) }
{
    let len = entries.len();
    if n <= room - len {
        return Ok(room);
    }
    if n > most - len {
        return Err(NoMemory);
    }
    if n > entries.capacity() - len {
        entries.reserve_exact(n.max(len))?;
    }
    Ok(len + n)
}
