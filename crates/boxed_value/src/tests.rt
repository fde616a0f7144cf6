use crate::Boxed;
use std::test::Fail;

#[test]
fn a_value_is_changed_in_its_place(rt: HostRuntime) -> Result<(), Fail> {
    let mut pair = Boxed::new(rt.alloc(), (7_u32, true))?;
    assert_eq!(rt; (pair.0, pair.1), (7, true));
    pair.0 += 1;
    *pair = (pair.0, false);
    assert_eq!(rt; pair.into_inner(), (8, false));
    Ok(())
}
