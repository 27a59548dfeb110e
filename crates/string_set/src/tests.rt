use crate::StringSet;
use std::test::Fail;

#[test]
fn what_was_put_is_there(rt: HostRuntime) -> Result<(), Fail> {
    let mut set = StringSet::new(rt.alloc());
    set.insert(b"a")?;
    set.insert(b"")?;
    set.insert(b"a")?;
    assert!(rt; set.contains(b"a"));
    assert!(rt; set.contains(b""));
    assert!(rt; !set.contains(b"b"));
    Ok(())
}
