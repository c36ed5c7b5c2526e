use crate::ToldLog;
use std::test::Fail;

#[test]
fn entries_are_told_in_order_and_leave_memory(rt: HostRuntime) -> Result<(), Fail> {
    let mut log = ToldLog::new(rt.alloc());
    let mut told = Vec::new(rt.alloc());
    for n in 0..1_000u32 {
        log.reserve(1)?;
        log.push_reserved(n);
        if n % 10 == 9 {
            for _ in 0..10u32 {
                told.push(log.take())?;
            }
        }
    }
    assert_eq!(rt; log.kept(), 0);
    assert_eq!(rt; told.len(), 1_000);
    assert_eq!(rt; told.first(), Some(&Some(0)));
    assert_eq!(rt; told.last(), Some(&Some(999)));
    assert_eq!(rt; log.take(), None);
    log.reserve(2)?;
    log.push_reserved(7);
    log.push_reserved(8);
    let (first, second) = log.untold();
    assert_eq!(rt; first.len() + second.len(), 2);
    assert_eq!(rt; first.first(), Some(&7));
    Ok(())
}
