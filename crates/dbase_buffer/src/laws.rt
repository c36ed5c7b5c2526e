//! Laws of buffers, each the contract of a call that does nothing.
ghost use Rattle.dbase_buffer.specs.Laws.{LineLaw, MergeLaw, CountLaw};

/// A buffer goes on line by line from an empty one.
pub fn buffers_go_line_by_line()
    ensures { LineLaw }
{}

/// What a section asks for where it merges a buffer is the merge of the buffer's own lines.
pub fn merges_are_of_their_lines()
    ensures { MergeLaw }
{}

/// Each line of a buffer uses at most one serial, and is recorded or dropped at most once.
pub fn buffers_count_their_lines()
    ensures { CountLaw }
{}
