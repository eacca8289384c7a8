//! A connection has 10,000 replies at most, and asks for no more.

use super::demos::{Failing, demo, is_told, over_pieces};
use super::runs::{demand, whole};
use peer_conn::End;
use stream_model::{ASK_K, FOUND_K, FOUND_K_LAST, repeated};

#[test]
fn the_10000th_reply_closes(rt: HostRuntime) {
    let text = repeated(rt.alloc(), ASK_K, 10_001).expect(&rt, "memory");
    let mut replies = repeated(rt.alloc(), FOUND_K, 9_999).expect(&rt, "memory");
    replies
        .extend_from_slice(FOUND_K_LAST)
        .expect(&rt, "memory");
    assert_eq!(rt; replies.len(), 790_019);
    demand(&rt, whole(&rt, &text), &replies, End::Clean);
    let run = over_pieces(&rt, demo(2, 0), whole(&rt, &text), Failing::Nothing);
    assert!(rt; is_told(&run.served, &replies, End::Clean));
    assert_eq!(rt; [run.asked, run.report.asked], [10_000; 2]);
}
