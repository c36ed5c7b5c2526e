//! The stack of the main thread.

/// The bytes of the stack that are taken at the start.
const STACK: usize = 524_288;

/// Takes the stack that the program needs, by a local of that size which is written and read. The stack of the main thread
/// grows as it is used, and where the address space is full by then the program would end by a signal; what was once taken
/// stays. Returns the byte that is read: 1 where it was written there, and else 0.
#[inline(never)]
pub fn take_stack(written: u8, read: u8) -> u8 {
    let mut stack = [0; STACK];
    stack[usize::from(written)] = 1;
    stack[usize::from(read)]
}
