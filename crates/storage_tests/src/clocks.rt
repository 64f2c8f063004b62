//! Tests of the clocks.
use session_disk::{Clock, FixedClock, StdClock};
use std::test::Fail;

#[test]
fn clocks_answer_their_moment(rt: HostRuntime) -> Result<(), Fail> {
    let mut fixed = FixedClock::new(7);
    assert_eq!(rt; now_of(&mut fixed), 7);
    assert_eq!(rt; fixed.now(), 7);
    // 2020-01-01 was 13,222,310,400 seconds after 1601-01-01.
    assert!(rt; StdClock::new(rt).now() > 13_222_310_400_000_000);
    Ok(())
}

fn now_of<C: Clock>(mut clock: C) -> u64 {
    clock.now()
}
