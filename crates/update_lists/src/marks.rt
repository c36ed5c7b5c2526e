//! The table of marks, and the list of those that are set.
ghost use Rattle.std.specs.Prelude.{◌≡◌, ℕ, ◌<◌, [], length, false, nat_eq, IfOk, slice_index_or};
ghost use Rattle.std.specs.List.{All, IsDistinct};
ghost use Rattle.std.specs.Vec.{vec_capacity};
ghost use Rattle.pf_model.specs.Copies.{put_in, put_all};
ghost use Rattle.update_lists.specs.Marks.{AreMarks, among};

use pf_io::NoMemory;
use pf_model::write_to;
use std::alloc::Global;

/// How many ids there are.
const IDS: usize = 65_536;

/// A table without marks, and room for those of all ids. No entry is written.
pub(crate) fn no_marks(alloc: Global) -> Result<Vec<bool>, NoMemory>
    ensures { IfOk result (λ table. (table.items ≡ []) × (vec_capacity table ≡ 65536)) }
{
    Ok(Vec::with_capacity(alloc, IDS)?)
}

/// Room for all ids.
pub(crate) fn no_ids(alloc: Global) -> Result<Vec<u16>, NoMemory>
    ensures { IfOk result (λ ids. (ids.items ≡ []) × (vec_capacity ids ≡ 65536)) }
{
    Ok(Vec::with_capacity(alloc, IDS)?)
}

/// Marks an id, and puts it into the list where it had no mark.
pub(crate) fn mark(table: &mut Vec<bool>, ids: &mut Vec<u16>, id: u16)
    requires { AreMarks table.old.items (vec_capacity table.old) ids.old.items (vec_capacity ids.old) }
    ensures marks { AreMarks table.new.items (vec_capacity table.new) ids.new.items (vec_capacity ids.new) }
    ensures ids { put_all ids.new.items [] ≡ put_in id (put_all ids.old.items []) }
{
    let place = id as usize;
    write_to(table, place);
    if table[place] {
        return;
    }
    table[place] = true;
    ids.push_reserved(id);
}

/// Sorts the list of marked ids. It takes no memory.
pub(crate) fn sort(ids: &mut Vec<u16>)
    requires { IsDistinct nat_eq ids.old.items }
    ensures sorted { ids.new.items ≡ put_all ids.old.items [] }
    ensures capacity { vec_capacity ids.new ≡ vec_capacity ids.old }
{
    sort_ids(ids.as_mut_slice());
}

/// Sorts ids that differ.
fn sort_ids(ids: &mut [u16])
    requires { IsDistinct nat_eq ids.old }
    ensures { ids.new ≡ put_all ids.old [] }
{
    ids.sort_unstable();
}

/// Takes the marks of these ids away.
fn unmark(table: &mut Vec<bool>, ids: &[u16])
    requires { All (λ id. id < length table.old.items) ids.now }
    ensures len { length table.new.items ≡ length table.old.items }
    ensures capacity { vec_capacity table.new ≡ vec_capacity table.old }
    ensures marks { (id : ℕ) → (among id ids.now ≡ false → slice_index_or table.old.items id false ≡ false)
        → slice_index_or table.new.items id false ≡ false }
{
    for id in ids {
        table[*id as usize] = false;
    }
}

/// Takes the marks of these ids away, and empties the list. It takes time in proportion to their number.
pub(crate) fn clear(table: &mut Vec<bool>, ids: &mut Vec<u16>)
    requires { AreMarks table.old.items (vec_capacity table.old) ids.old.items (vec_capacity ids.old) }
    ensures marks { AreMarks table.new.items (vec_capacity table.new) ids.new.items (vec_capacity ids.new) }
    ensures empty { ids.new.items ≡ [] }
{
    unmark(table, ids.as_slice());
    ids.clear();
}
