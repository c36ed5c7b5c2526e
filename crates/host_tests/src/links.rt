//! A ring between two threads, and links that may move to another.
use frame_link::{ListLink, RingSend, RingTake, SendEnd, TakeEnd, ring};
use std::alloc::Global;
use std::sync::Wait;
use std::test::Fail;
use std::thread;

const CROSSING: u32 = 10_000;

fn send_all(rt: &impl Wait, mut send: RingSend<u32>) -> RingSend<u32> {
    let mut next = 0;
    for _ in rt.forever() {
        if next >= CROSSING {
            break;
        }
        match send.push(next) {
            Ok(()) => next += 1,
            Err(_) => thread::yield_now(),
        }
    }
    send
}

// Takes the numbers as long as each is the next, and gives the number of those.
fn take_all(rt: &impl Wait, mut take: RingTake<u32>) -> (RingTake<u32>, u32) {
    let mut next = 0;
    for _ in rt.forever() {
        if next >= CROSSING {
            break;
        }
        match take.pop() {
            Some(number) if number == next => next += 1,
            Some(_) => break,
            None => thread::yield_now(),
        }
    }
    (take, next)
}

#[test]
fn two_threads_share_a_ring(rt: HostRuntime) -> Result<(), Fail> {
    let (send, take) = ring(rt.alloc(), 3)?;
    let (_send, (mut take, count)) = thread::join(
        &rt,
        move || send_all(&rt, send),
        move || take_all(&rt, take),
    );
    assert_eq!(rt; count, CROSSING);
    assert_eq!(rt; take.pop(), None);
    Ok(())
}

// Every link may move to another thread where its items may.
fn moves<L: Send>(link: L) -> L {
    link
}

fn all_move<T: Send + Drop>(alloc: Global) -> Result<(), Fail> {
    let _link = moves(ListLink::<T>::new(alloc, 1)?);
    let (send, take) = ring::<T>(alloc, 1)?;
    let _ends = (moves(send), moves(take));
    Ok(())
}

#[test]
fn links_may_cross(rt: HostRuntime) -> Result<(), Fail> {
    all_move::<u32>(rt.alloc())
}
