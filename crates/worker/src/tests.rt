use crate::Share;
use scan_model::UnitEnd;
use std::test::Fail;

#[test]
fn ends_stand_in_order_of_drawing(rt: HostRuntime) -> Result<(), Fail> {
    let mut share = Share::new(rt.alloc(), 2)?;
    share.add(3, UnitEnd::NoMemory);
    share.add(8, UnitEnd::NoMemory);
    let ends = share.into_ends();
    assert!(rt; ends.len() == 2);
    assert!(rt; ends[0].0 == 3);
    assert!(rt; ends[1].0 == 8);
    Ok(())
}
