use crate::for_each;
use std::test::Fail;

#[test]
fn each_item_is_called_once_in_its_place(rt: HostRuntime) -> Result<(), Fail> {
    for others in 0..4u8 {
        let items = Vec::from_slice(rt.alloc(), &[5u32, 7, 11, 13, 17])?;
        let called = for_each(
            &rt,
            rt.alloc(),
            items,
            others,
            &|i: usize, item: &mut u32| { *item = item.wrapping_add(i as u32) },
        );
        assert_eq!(rt; called.as_slice(), &[5u32, 8, 13, 16, 21][..]);
    }
    Ok(())
}
