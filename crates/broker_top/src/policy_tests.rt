//! Runs of queues with limits and policies: at a limit, one below it and one above, by entries and by bytes.
use crate::phase_tests::{TURNS, check, targets};
use outside_io::{FreeGate, LineGate};
use std::test::Fail;
use target_core::CONSUMERS;

// Definitions of one queue are put together of these: a head, limits, and a policy with the end of the line.

const Q: &str = "{\"queues\":[{\"name\":\"q\",\"consumers\":[{\"name\":\"c\",\"actor\":\"a\"}]";

const PRIORITIES: &str = ",\"type\":\"priority\"";

const MESSAGES_1: &str = ",\"maximumQueueDepthMessages\":1";

const MESSAGES_2: &str = ",\"maximumQueueDepthMessages\":2";

const MESSAGES_6: &str = ",\"maximumQueueDepthMessages\":6";

const NO_LIMIT: &str = ",\"maximumQueueDepthMessages\":-1,\"maximumQueueDepthBytes\":-1";

const BYTES_16: &str = ",\"maximumQueueDepthBytes\":16";

const BYTES_48: &str = ",\"maximumQueueDepthBytes\":48";

const BYTES_64: &str = ",\"maximumQueueDepthBytes\":64";

const BYTES_80: &str = ",\"maximumQueueDepthBytes\":80";

const BYTES_81: &str = ",\"maximumQueueDepthBytes\":81";

const NONE: &str = ",\"overflowPolicy\":\"NONE\"}]}\n";

const RING: &str = ",\"overflowPolicy\":\"RING\"}]}\n";

const REJECT: &str = ",\"overflowPolicy\":\"REJECT\"}]}\n";

const FLOW: &str = ",\"overflowPolicy\":\"PRODUCER_FLOW_CONTROL\"}]}\n";

// A message without body has 16 bytes.

const PUT_1: &str = "{\"do\":\"put\",\"actor\":\"a\",\"queue\":\"q\",\"id\":1}\n";

const PUT_2: &str = "{\"do\":\"put\",\"actor\":\"a\",\"queue\":\"q\",\"id\":2}\n";

const PUT_3: &str = "{\"do\":\"put\",\"actor\":\"a\",\"queue\":\"q\",\"id\":3}\n";

const PUT_4: &str = "{\"do\":\"put\",\"actor\":\"a\",\"queue\":\"q\",\"id\":4}\n";

const PUT_5: &str = "{\"do\":\"put\",\"actor\":\"a\",\"queue\":\"q\",\"id\":5}\n";

const PUT_6: &str = "{\"do\":\"put\",\"actor\":\"a\",\"queue\":\"q\",\"id\":6}\n";

const PUT_7: &str = "{\"do\":\"put\",\"actor\":\"a\",\"queue\":\"q\",\"id\":7}\n";

const PUT_8: &str = "{\"do\":\"put\",\"actor\":\"a\",\"queue\":\"q\",\"id\":8}\n";

const PUT_9: &str = "{\"do\":\"put\",\"actor\":\"a\",\"queue\":\"q\",\"id\":9}\n";

// With a body of one byte.

const LONG_2: &str = "{\"do\":\"put\",\"actor\":\"a\",\"queue\":\"q\",\"id\":2,\"body\":\"x\"}\n";

const LONG_3: &str = "{\"do\":\"put\",\"actor\":\"a\",\"queue\":\"q\",\"id\":3,\"body\":\"x\"}\n";

const LONG_5: &str = "{\"do\":\"put\",\"actor\":\"a\",\"queue\":\"q\",\"id\":5,\"body\":\"x\"}\n";

// With one of 32 bytes.
const LARGE_5: &str =
    "{\"do\":\"put\",\"actor\":\"a\",\"queue\":\"q\",\"id\":5,\"body\":\"0123456789abcdef0123456789abcdef\"}\n";

const TAKE: &str = "{\"do\":\"take\",\"actor\":\"a\",\"consumer\":\"c\"}\n";

const ACK: &str = "{\"do\":\"ack\",\"actor\":\"a\",\"queue\":\"q\"}\n";

const UNLOCK: &str = "{\"do\":\"unlock\",\"actor\":\"a\",\"queue\":\"q\"}\n";

const RELEASE: &str = "{\"do\":\"release\",\"actor\":\"a\",\"queue\":\"q\"}\n";

const REST: &str = "{\"do\":\"rest\"}\n";

// Scripts of one actor, and what is written of them.
const SCRIPTS: &[(&[&str], &str)] = &[
    // Limits are not looked at.
    (
        &[Q, MESSAGES_2, BYTES_16, NONE, PUT_1, PUT_2, PUT_3],
        "a 2 ok 1\na 3 ok 2\na 4 ok 3\nqueue q 3 48\nentry 1\nentry 2\nentry 3\n",
    ),
    // A limit that isn't there is never reached.
    (
        &[Q, NO_LIMIT, REJECT, PUT_1, PUT_2],
        "a 2 ok 1\na 3 ok 2\nqueue q 2 32\nentry 1\nentry 2\n",
    ),
    (
        &[Q, RING, PUT_1, PUT_2],
        "a 2 ok 1\na 3 ok 2\nqueue q 2 32\nentry 1\nentry 2\n",
    ),
    (
        &[Q, NO_LIMIT, FLOW, PUT_1, PUT_2],
        "a 2 ok 1\na 3 ok 2\nqueue q 2 32\nentry 1\nentry 2\n",
    ),
    // A queue that has as many entries as it may takes no more, until one has left it.
    (
        &[Q, MESSAGES_2, REJECT, PUT_1, PUT_2, PUT_3],
        "a 2 ok 1\na 3 ok 2\na 4 rejected 2 32\nqueue q 2 32\nentry 1\nentry 2\n",
    ),
    (
        &[
            Q, MESSAGES_2, REJECT, PUT_1, PUT_2, TAKE, PUT_3, ACK, PUT_4, PUT_5,
        ],
        "a 2 ok 1\na 3 ok 2\na 4 got 1 1\na 5 rejected 2 32\na 6 acked 1\na 7 ok 4\na 8 rejected 2 32\n\
         queue q 2 32\nentry 2\nentry 4\n",
    ),
    // It takes a message with which it has as many bytes as it may, and none of one byte more.
    (
        &[Q, BYTES_48, REJECT, PUT_1, PUT_2, LONG_3, PUT_4, PUT_5],
        "a 2 ok 1\na 3 ok 2\na 4 rejected 2 32\na 5 ok 4\na 6 rejected 3 48\n\
         queue q 3 48\nentry 1\nentry 2\nentry 4\n",
    ),
    // Either limit refuses.
    (
        &[Q, MESSAGES_6, BYTES_16, REJECT, PUT_1, PUT_2],
        "a 2 ok 1\na 3 rejected 1 16\nqueue q 1 16\nentry 1\n",
    ),
    (
        &[Q, MESSAGES_1, BYTES_64, REJECT, PUT_1, PUT_2],
        "a 2 ok 1\na 3 rejected 1 16\nqueue q 1 16\nentry 1\n",
    ),
    // A ring drops its oldest entry.
    (
        &[Q, MESSAGES_2, RING, PUT_1, PUT_2, PUT_3],
        "a 2 ok 1\na 3 ok 2\na 4 ok 3 dropped q#1\nqueue q 2 32\nentry 2\nentry 3\n",
    ),
    // And as many as it takes, up to the message itself.
    (
        &[Q, BYTES_64, RING, PUT_1, PUT_2, PUT_3, PUT_4, LARGE_5],
        "a 2 ok 1\na 3 ok 2\na 4 ok 3\na 5 ok 4\na 6 ok 5 dropped q#1 dropped q#2 dropped q#3\n\
         queue q 2 64\nentry 4\nentry 5\n",
    ),
    (
        &[Q, BYTES_16, RING, PUT_1, LONG_2, PUT_3],
        "a 2 ok 1\na 3 ok 2 dropped q#1 dropped q#2\na 4 ok 3\nqueue q 1 16\nentry 3\n",
    ),
    // It drops none that somebody has, locked or left.
    (
        &[
            Q, MESSAGES_2, RING, PUT_1, TAKE, PUT_2, PUT_3, UNLOCK, PUT_4, RELEASE, PUT_5,
        ],
        "a 2 ok 1\na 3 got 1 1\na 4 ok 2\na 5 ok 3 dropped q#2\na 6 unlocked 1\na 7 ok 4 dropped q#3\n\
         a 8 released 1\na 9 ok 5 dropped q#1\nqueue q 2 32\nentry 4\nentry 5\n",
    ),
    (
        &[Q, MESSAGES_1, RING, PUT_1, TAKE, PUT_2, ACK, PUT_3],
        "a 2 ok 1\na 3 got 1 1\na 4 ok 2 dropped q#2\na 5 acked 1\na 6 ok 3\nqueue q 1 16\nentry 3\n",
    ),
    // Of a priority queue it drops from the lowest list.
    (
        &[
            Q,
            PRIORITIES,
            MESSAGES_2,
            RING,
            "{\"do\":\"put\",\"actor\":\"a\",\"queue\":\"q\",\"id\":1,\"priority\":9}\n",
            "{\"do\":\"put\",\"actor\":\"a\",\"queue\":\"q\",\"id\":2,\"priority\":0}\n",
            "{\"do\":\"put\",\"actor\":\"a\",\"queue\":\"q\",\"id\":3,\"priority\":0}\n",
            "{\"do\":\"put\",\"actor\":\"a\",\"queue\":\"q\",\"id\":4,\"priority\":4}\n",
            "{\"do\":\"put\",\"actor\":\"a\",\"queue\":\"q\",\"id\":5,\"priority\":0}\n",
        ],
        "a 2 ok 1\na 3 ok 2\na 4 ok 3 dropped q#2\na 5 ok 4 dropped q#3\na 6 ok 5 dropped q#5\n\
         queue q 2 32\nentry 1\nentry 4\n",
    ),
    // What a rest carried is dropped first, and a dropped entry is carried no further.
    (
        &[Q, MESSAGES_2, RING, PUT_1, PUT_2, REST, PUT_3, REST, TAKE],
        "a 2 ok 1\na 3 ok 2\nqueue q 2 32\nentry 1\nentry 2\n\
         a 5 ok 3 dropped q#1\nqueue q 2 32\nentry 2\nentry 3\n\
         a 7 got 2 1\nqueue q 2 32\nentry 2 held a\nentry 3\n",
    ),
    // Flow control stops an actor at a limit, and lets it go on at four fifths of it.
    (
        &[
            Q, MESSAGES_2, FLOW, PUT_1, PUT_2, PUT_3, PUT_4, TAKE, ACK, PUT_5,
        ],
        "a 2 ok 1\na 3 ok 2\na 4 blocked 2 32\na 5 blocked 2 32\na 6 got 1 1\na 7 acked 1\na 8 ok 5\n\
         queue q 2 32\nentry 2\nentry 5\n",
    ),
    // Four fifths of 6 are 4: with 5 entries the actor is still stopped, though there is room.
    (
        &[
            Q, MESSAGES_6, FLOW, PUT_1, PUT_2, PUT_3, PUT_4, PUT_5, PUT_6, PUT_7, TAKE, ACK, PUT_8,
            TAKE, ACK, PUT_9,
        ],
        "a 2 ok 1\na 3 ok 2\na 4 ok 3\na 5 ok 4\na 6 ok 5\na 7 ok 6\na 8 blocked 6 96\na 9 got 1 1\n\
         a 10 acked 1\na 11 blocked 5 80\na 12 got 2 1\na 13 acked 2\na 14 ok 9\n\
         queue q 5 80\nentry 3\nentry 4\nentry 5\nentry 6\nentry 9\n",
    ),
    // Four fifths of 80 are 64.
    (
        &[
            Q, BYTES_80, FLOW, PUT_1, PUT_2, PUT_3, PUT_4, PUT_5, PUT_6, TAKE, ACK, PUT_7,
        ],
        "a 2 ok 1\na 3 ok 2\na 4 ok 3\na 5 ok 4\na 6 ok 5\na 7 blocked 5 80\na 8 got 1 1\na 9 acked 1\n\
         a 10 ok 7\nqueue q 5 80\nentry 2\nentry 3\nentry 4\nentry 5\nentry 7\n",
    ),
    // And of 81 too: with 65 bytes the actor is still stopped.
    (
        &[
            Q, BYTES_81, FLOW, PUT_1, PUT_2, PUT_3, PUT_4, LONG_5, PUT_6, TAKE, ACK, PUT_7, TAKE,
            ACK, PUT_8, PUT_9,
        ],
        "a 2 ok 1\na 3 ok 2\na 4 ok 3\na 5 ok 4\na 6 ok 5\na 7 blocked 5 81\na 8 got 1 1\na 9 acked 1\n\
         a 10 blocked 4 65\na 11 got 2 1\na 12 acked 2\na 13 ok 8\na 14 ok 9\n\
         queue q 5 81\nentry 3\nentry 4\nentry 5\nentry 8\nentry 9\n",
    ),
    // Orders are refused at the limit, and of prices the oldest is dropped.
    (
        &[
            "{\"queues\":[{\"name\":\"orders\",\"maximumQueueDepthMessages\":2,\"overflowPolicy\":\"REJECT\",\"consumers\":[{\"name\":\"billing\",\"actor\":\"bob\"}]},",
            "{\"name\":\"prices\",\"maximumQueueDepthMessages\":2,\"overflowPolicy\":\"RING\",\"consumers\":[{\"name\":\"screen\",\"actor\":\"bob\"}]}]}\n",
            "{\"do\":\"put\",\"actor\":\"shop\",\"queue\":\"orders\",\"id\":1001,\"headers\":{\"region\":\"EU\",\"amount\":250}}\n",
            "{\"do\":\"put\",\"actor\":\"shop\",\"queue\":\"orders\",\"id\":1002,\"headers\":{\"region\":\"EU\",\"amount\":99}}\n",
            "{\"do\":\"put\",\"actor\":\"shop\",\"queue\":\"prices\",\"id\":1,\"headers\":{\"stock\":\"ACME\",\"price\":1050}}\n",
            "{\"do\":\"put\",\"actor\":\"shop\",\"queue\":\"prices\",\"id\":2,\"headers\":{\"stock\":\"ACME\",\"price\":1049}}\n",
            "{\"do\":\"put\",\"actor\":\"shop\",\"queue\":\"orders\",\"id\":1003,\"headers\":{\"region\":\"US\",\"amount\":12}}\n",
            "{\"do\":\"put\",\"actor\":\"shop\",\"queue\":\"prices\",\"id\":3,\"headers\":{\"stock\":\"ACME\",\"price\":1052}}\n",
            REST,
            "{\"do\":\"take\",\"actor\":\"bob\",\"consumer\":\"billing\"}\n",
            "{\"do\":\"ack\",\"actor\":\"bob\",\"queue\":\"orders\"}\n",
            "{\"do\":\"take\",\"actor\":\"bob\",\"consumer\":\"screen\"}\n",
            "{\"do\":\"take\",\"actor\":\"bob\",\"consumer\":\"screen\"}\n",
        ],
        "shop 2 ok 1001\nshop 3 ok 1002\nshop 4 ok 1\nshop 5 ok 2\nshop 6 rejected 2 92\n\
         shop 7 ok 3 dropped prices#1\n\
         queue orders 2 92\nentry 1001\nentry 1002\nqueue prices 2 92\nentry 2\nentry 3\n\
         bob 9 got 1001 1\nbob 10 acked 1001\nbob 11 got 2 1\nbob 12 got 3 1\n\
         queue orders 1 46\nentry 1002\nqueue prices 2 92\nentry 2 held bob\nentry 3 held bob\n",
    ),
    // Nobody is stopped when a phase begins.
    (
        &[
            Q, MESSAGES_6, FLOW, PUT_1, PUT_2, PUT_3, PUT_4, PUT_5, PUT_6, PUT_7, TAKE, ACK, PUT_8,
            REST, PUT_9,
        ],
        "a 2 ok 1\na 3 ok 2\na 4 ok 3\na 5 ok 4\na 6 ok 5\na 7 ok 6\na 8 blocked 6 96\na 9 got 1 1\n\
         a 10 acked 1\na 11 blocked 5 80\n\
         queue q 5 80\nentry 2\nentry 3\nentry 4\nentry 5\nentry 6\n\
         a 13 ok 9\nqueue q 6 96\nentry 2\nentry 3\nentry 4\nentry 5\nentry 6\nentry 9\n",
    ),
];

#[test]
fn limits_and_policies(rt: HostRuntime) -> Result<(), Fail> {
    for &(parts, text) in SCRIPTS {
        let targets = targets(rt.alloc(), None)?;
        check(&rt, &FreeGate, parts, targets, text, CONSUMERS)?;
    }
    Ok(())
}

// Scripts of two actors, whose lines come in order.
const TWO_ACTORS: &[(&[&str], &str)] = &[
    // Each actor is stopped by itself: one has passed the limit, and the other finds room.
    (
        &[
            "{\"queues\":[{\"name\":\"p\",\"maximumQueueDepthMessages\":6,\"overflowPolicy\":\"PRODUCER_FLOW_CONTROL\",\"consumers\":[{\"name\":\"c\",\"actor\":\"b\"}]},",
            "{\"name\":\"r\",\"maximumQueueDepthMessages\":6,\"overflowPolicy\":\"PRODUCER_FLOW_CONTROL\"}]}\n",
            "{\"do\":\"put\",\"actor\":\"a\",\"queue\":\"p\",\"id\":1}\n",
            "{\"do\":\"put\",\"actor\":\"a\",\"queue\":\"p\",\"id\":2}\n",
            "{\"do\":\"put\",\"actor\":\"a\",\"queue\":\"p\",\"id\":3}\n",
            "{\"do\":\"put\",\"actor\":\"a\",\"queue\":\"p\",\"id\":4}\n",
            "{\"do\":\"put\",\"actor\":\"a\",\"queue\":\"p\",\"id\":5}\n",
            "{\"do\":\"put\",\"actor\":\"a\",\"queue\":\"p\",\"id\":6}\n",
            "{\"do\":\"put\",\"actor\":\"a\",\"queue\":\"p\",\"id\":7}\n",
            "{\"do\":\"put\",\"actor\":\"a\",\"queue\":\"r\",\"id\":7}\n",
            "{\"do\":\"take\",\"actor\":\"b\",\"consumer\":\"c\"}\n",
            "{\"do\":\"ack\",\"actor\":\"b\",\"queue\":\"p\"}\n",
            "{\"do\":\"put\",\"actor\":\"a\",\"queue\":\"p\",\"id\":8}\n",
            "{\"do\":\"put\",\"actor\":\"b\",\"queue\":\"p\",\"id\":9}\n",
            "{\"do\":\"put\",\"actor\":\"b\",\"queue\":\"p\",\"id\":10}\n",
        ],
        "a 2 ok 1\na 3 ok 2\na 4 ok 3\na 5 ok 4\na 6 ok 5\na 7 ok 6\na 8 blocked 6 96\na 9 ok 7\n\
         a 12 blocked 5 80\nb 10 got 1 1\nb 11 acked 1\nb 13 ok 9\nb 14 blocked 6 96\n\
         queue p 6 96\nentry 2\nentry 3\nentry 4\nentry 5\nentry 6\nentry 9\nqueue r 1 16\nentry 7\n",
    ),
    // Each drop is told by the actor whose put made it, with the name of its queue.
    (
        &[
            "{\"queues\":[{\"name\":\"p\",\"maximumQueueDepthMessages\":1,\"overflowPolicy\":\"RING\"},",
            "{\"name\":\"r\",\"maximumQueueDepthBytes\":32,\"overflowPolicy\":\"RING\"}]}\n",
            "{\"do\":\"put\",\"actor\":\"a\",\"queue\":\"p\",\"id\":1}\n",
            "{\"do\":\"put\",\"actor\":\"b\",\"queue\":\"r\",\"id\":1}\n",
            "{\"do\":\"put\",\"actor\":\"b\",\"queue\":\"p\",\"id\":2}\n",
            "{\"do\":\"put\",\"actor\":\"b\",\"queue\":\"r\",\"id\":3}\n",
            "{\"do\":\"put\",\"actor\":\"a\",\"queue\":\"r\",\"id\":4,\"body\":\"x\"}\n",
            "{\"do\":\"put\",\"actor\":\"a\",\"queue\":\"p\",\"id\":4}\n",
            "{\"do\":\"put\",\"actor\":\"b\",\"queue\":\"r\",\"id\":5}\n",
        ],
        "a 2 ok 1\na 6 ok 4 dropped r#1 dropped r#3\na 7 ok 4 dropped p#2\n\
         b 3 ok 1\nb 4 ok 2 dropped p#1\nb 5 ok 3\nb 8 ok 5 dropped r#4\n\
         queue p 1 16\nentry 4\nqueue r 1 16\nentry 5\n",
    ),
];

#[test]
fn policies_and_two_actors(rt: HostRuntime) -> Result<(), Fail> {
    for &(parts, text) in TWO_ACTORS {
        let gate = LineGate::make(2, TURNS);
        let targets = targets(rt.alloc(), None)?;
        check(&rt, &gate, parts, targets, text, CONSUMERS)?;
        assert!(rt; !gate.late());
    }
    Ok(())
}
