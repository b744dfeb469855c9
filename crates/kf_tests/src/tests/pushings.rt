// A program that owns what columns are pushed through.
use kf_make::made;
use kf_push::Pusher;
use kf_run::Pushing;
use std::process::Abort;

// How many columns stand behind all statements of the made text of two observations. Each shows a bit, wrongly with probability 1/4.
fn columns_behind(rt: &(impl Abort + AllocGlobal)) -> usize {
    let cleared = made(rt.alloc(), 2, 1).expect(rt, "memory");
    let pushing = Pushing::new(cleared);
    let first = pushing.start(rt.alloc()).expect(rt, "memory");
    let statements = pushing.program().body.as_slice().len();
    let after = pushing
        .push(rt.alloc(), 0, statements, &first)
        .expect(rt, "memory");
    after.columns().as_slice().len()
}

// Seen 1 and then 0, or 0 and then 1, the bit has one posterior.
#[test]
fn two_observations_leave_three_columns(rt: HostRuntime) {
    assert_eq!(rt; columns_behind(&rt), 3);
}
