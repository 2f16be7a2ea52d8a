// Names that were compared by hand.

use crate::suggestion;
use std::test::Fail;

#[test]
fn near_names(rt: HostRuntime) -> Result<(), Fail> {
    let alloc = rt.alloc();
    let names = ["Init", "Stop"];
    let near = suggestion(alloc, b"INIR", names.as_slice())?;
    assert_eq!(rt; near.as_str(), "write `Init`");
    let far = suggestion(alloc, b"Start", names.as_slice())?;
    assert_eq!(rt; far.as_str(), "write one of `Init`, `Stop`");
    Ok(())
}
