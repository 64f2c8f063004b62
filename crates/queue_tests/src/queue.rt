//! Tests of the queue: items that two threads pass through less room than there are items, so that each waits for the
//! other, and what is left where the queue is closed.
ghost use Rattle.command_queue.specs.Passes.{IsIssuerOf, IsWriterOf};

use command_queue::{CommandQueue, IssuerPass, WriterPass};
use std::sync::Wait;
use std::test::Fail;
use std::thread;

const COUNT: u64 = 1000;

#[test]
fn a_thousand_numbers_come_in_order_through_room_for_two(rt: HostRuntime) -> Result<(), Fail> {
    let (queue, issuer, writer) = CommandQueue::new(rt.alloc(), 2)?;
    let shared = &queue;
    let (issuer, (writer, in_order)) = thread::join(
        &rt,
        move ||
            requires { IsIssuerOf shared.now issuer }
            ensures { IsIssuerOf shared.entry.now result }
        { put_numbers(&rt, shared, issuer) },
        move ||
            requires { IsWriterOf shared.now writer }
            ensures { IsWriterOf shared.entry.now result.0 }
        { take_numbers(&rt, shared, writer) },
    );
    assert!(rt; in_order);
    let mut left = queue.close(issuer, writer);
    assert!(rt; left.next(&rt).is_none());
    Ok(())
}

#[test]
fn the_first_comes_and_the_second_is_left(rt: HostRuntime) -> Result<(), Fail> {
    let (queue, issuer, writer) = CommandQueue::new(rt.alloc(), 2)?;
    let issuer = queue.put(&rt, issuer, 'a');
    let issuer = queue.put(&rt, issuer, 'b');
    let (writer, first) = queue.take(&rt, writer);
    let mut left = queue.close(issuer, writer);
    assert_eq!(rt;
        (first, left.next(&rt), left.next(&rt)),
        ('a', Some('b'), None)
    );
    Ok(())
}

#[test]
fn what_is_left_comes_in_order(rt: HostRuntime) -> Result<(), Fail> {
    let (queue, issuer, writer) = CommandQueue::new(rt.alloc(), 3)?;
    let issuer = queue.put(&rt, issuer, 7u8);
    let issuer = queue.put(&rt, issuer, 8);
    let issuer = queue.put(&rt, issuer, 9);
    let mut left = queue.close(issuer, writer);
    let (first, second, third) = (left.next(&rt), left.next(&rt), left.next(&rt));
    assert_eq!(rt; (first, second, third), (Some(7), Some(8), Some(9)));
    assert!(rt; left.next(&rt).is_none());
    Ok(())
}

// Puts the numbers from 0 on, which may wait at each.
fn put_numbers<R: Wait>(
    rt: &R,
    queue: &CommandQueue<u64>,
    mut issuer: IssuerPass<u64>,
) -> IssuerPass<u64>
    requires { IsIssuerOf queue.now issuer }
    ensures { IsIssuerOf queue.now result }
{
    for n in 0..COUNT {
        issuer = queue.put(rt, issuer, n);
    }
    issuer
}

// Takes so many numbers, and says whether they came from 0 on.
fn take_numbers<R: Wait>(
    rt: &R,
    queue: &CommandQueue<u64>,
    mut writer: WriterPass<u64>,
) -> (WriterPass<u64>, bool)
    requires { IsWriterOf queue.now writer }
    ensures { IsWriterOf queue.now result.0 }
{
    let mut in_order = true;
    for n in 0..COUNT {
        let (next, item) = queue.take(rt, writer);
        writer = next;
        in_order = in_order && item == n;
    }
    (writer, in_order)
}
