//! A test of the board: a number that is posted is seen, a smaller one changes nothing, and what was posted is answered
//! where the board is closed.
use command_queue::{AckBoard, Posted, Word};
use std::test::Fail;

#[test]
fn a_posted_number_is_seen_and_never_falls(rt: HostRuntime) -> Result<(), Fail> {
    let (board, mut writer, mut issuer) = AckBoard::new(rt.alloc())?;
    let before = board.seen(&mut issuer, Word::Session);
    board.post(&mut writer, Word::Session, 3);
    let raised = board.seen(&mut issuer, Word::Session);
    board.post(&mut writer, Word::Session, 2);
    board.post(&mut writer, Word::Ended, 1);
    let after = board.seen(&mut issuer, Word::Session);
    assert_eq!(rt; (before, raised, after), (0, 3, 3));
    let expected = Posted {
        session: 3,
        tabs: 0,
        ended: 1,
    };
    assert_eq!(rt; board.close(writer, issuer), expected);
    Ok(())
}
