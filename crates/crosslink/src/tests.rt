use crate::BondLog;
use std::test::Fail;

#[test]
fn a_log_holds_what_was_put_into_it_since_it_was_cleared(rt: HostRuntime) -> Result<(), Fail> {
    let mut log = BondLog::new(rt.alloc(), 3)?;
    assert!(rt; log.pairs().is_empty());
    log.push((0, 2));
    log.push((0, 1));
    assert!(rt; log.pairs() == [(0, 2), (0, 1)].as_slice());
    log.clear();
    assert!(rt; log.pairs().is_empty());
    log.push((1, 2));
    assert!(rt; log.pairs() == [(1, 2)].as_slice());
    Ok(())
}
