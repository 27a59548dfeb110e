use crate::Memo;
use reducer::Answer;
use scan_model::{Bytes, PathText};
use std::alloc::Global;
use std::test::Fail;

#[tactic(auto, unfolding(scan_model::specs::Paths::normal))]
fn path_w(alloc: Global) -> Result<PathText, Fail> {
    Ok(PathText::of_normal(Bytes::copy(alloc, b"w")?))
}

#[test]
fn what_was_added_is_known(rt: HostRuntime) -> Result<(), Fail> {
    let alloc = rt.alloc();
    let path = path_w(alloc)?;
    let mut memo = Memo::new(alloc);
    assert!(rt; memo.get(&path).is_none());
    memo.add(&path, &Answer::Failed);
    assert!(rt; matches!(memo.get(&path), Some(Answer::Failed)));
    Ok(())
}
