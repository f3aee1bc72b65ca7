//! Worked lists of a multi-queue root, and its line.
use lq_mq::{joint, mq_text};
use std::process::Abort;

fn list(rt: &(impl Abort + AllocGlobal), packets: &[u32]) -> Vec<u32> {
    Vec::from_slice(rt.alloc(), packets).expect(rt, "memory")
}

fn joined(rt: &(impl Abort + AllocGlobal), lists: &[Vec<u32>]) -> Vec<u32> {
    joint(rt.alloc(), lists).expect(rt, "memory")
}

/// Of two children the first sent packet 1, and the second packets 0 and 2.
#[test]
fn by_serial_and_then_by_child(rt: HostRuntime) {
    let lists = [list(&rt, &[1]), list(&rt, &[0, 2])];
    assert_eq!(rt; joined(&rt, &lists).as_slice(), [1, 0, 2].as_slice());
    assert_eq!(rt; joined(&rt, &[]).len(), 0);
}

#[test]
fn line_of_a_root(rt: HostRuntime) {
    let line = mq_text(rt.alloc(), 0, 2, 3).expect(&rt, "memory");
    assert_eq!(rt; line.as_slice(), b"mq 0 queues 2 sent 3\n".as_slice());
}
