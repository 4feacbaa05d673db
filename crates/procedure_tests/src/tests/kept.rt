//! Messages in a list that the caller keeps: inputs that are alike ask for no memory.
use super::controllers::{Radio, input_of, opened};
use exchange::Outbound;
use refusing_heap::RefusingHeap;
use sample_sites::THREE_CHANNELS;
use std::process::Abort;
use std::test::Fail;

/// CLEAR COMMAND of a call that the book doesn't have: CLEAR COMPLETE is sent.
const CLEARING: &str = "a 9 00042004010a";

/// How often it comes.
const ROUNDS: u32 = 64;

/// In how many rounds memory is asked for at most: in the first, and where the history, which gets an entry in each, doubles its
/// room.
const MOST: u32 = 8;

/// How many requests for memory the input makes.
fn requests_of<'a>(
    rt: &impl Abort,
    heap: &'a RefusingHeap,
    radio: &mut Radio<&'a RefusingHeap>,
    sent: &mut Vec<Outbound<&'a RefusingHeap>, &'a RefusingHeap>,
) -> u64 {
    let input = input_of(rt, heap, CLEARING);
    let before = heap.requests();
    let is_handled = radio.handle_into(input, sent).is_ok();
    assert!(rt; is_handled && sent.len() == 1);
    heap.requests().saturating_sub(before)
}

#[test]
fn inputs_that_are_alike_ask_for_no_memory(rt: HostRuntime) -> Result<(), Fail> {
    let heap = RefusingHeap::ample(rt.alloc());
    let mut radio = opened(&heap, rt.alloc(), THREE_CHANNELS)?;
    let mut sent = Vec::new(&heap);
    let mut asking = 0u32;
    for _ in 0..ROUNDS {
        if requests_of(&rt, &heap, &mut radio, &mut sent) > 0 {
            asking = asking.saturating_add(1);
        }
    }
    assert!(&rt; asking <= MOST, "{asking}");
    Ok(())
}
