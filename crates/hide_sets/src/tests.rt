use crate::{HideSet, HideSets};
use std::test::Fail;

#[test]
fn sets_of_three_names(rt: HostRuntime) -> Result<(), Fail> {
    let alloc = rt.alloc();
    let mut sets = HideSets::new(alloc);
    let a = sets.also(alloc, HideSet::empty(), b"A")?;
    let ab = sets.also(alloc, a, b"B")?;
    let ca = sets.also(alloc, HideSet::empty(), b"C")?;
    let ca = sets.also(alloc, ca, b"A")?;
    let both = sets.common(ab, ca)?;
    let all = sets.either(ab, ca)?;
    assert!(rt; sets.hides(both, b"A") && !sets.hides(both, b"B") && !sets.hides(both, b"C"));
    assert!(rt; sets.hides(all, b"A") && sets.hides(all, b"B") && sets.hides(all, b"C"));
    assert!(rt; !sets.hides(all, b"AB") && !sets.hides(all, b""));
    assert!(rt; sets.either(a, ab)?.is_same(ab) && sets.common(a, ab)?.is_same(a));
    Ok(())
}
