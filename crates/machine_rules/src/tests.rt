use crate::Stack;
use std::test::Fail;

#[test]
fn a_stack_gives_its_last_item_first(rt: HostRuntime) -> Result<(), Fail> {
    let mut stack = Stack::new(rt.alloc());
    for (len, item) in [(0, 'a'), (1, 'b'), (2, 'c')] {
        assert_eq!(rt; stack.len(), len);
        assert_eq!(rt; stack.is_empty(), len == 0);
        stack.push(item)?;
    }
    for want in [Some('c'), Some('b'), Some('a'), None] {
        assert_eq!(rt; stack.pop(), want);
    }
    assert!(rt; stack.is_empty());
    Ok(())
}
