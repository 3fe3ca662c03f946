//! Runs of sorted and last-value queues, and of queues of all kinds together.
use crate::phase_tests::{TURNS, check, targets};
use outside_io::{FreeGate, LineGate};
use std::test::Fail;
use target_core::CONSUMERS;

const SORTED: &str =
    "{\"queues\":[{\"name\":\"q\",\"type\":\"sorted\",\"sortKey\":\"k\",\"consumers\":[{\"name\":\"c\",\"actor\":\"a\"}]}]}\n";

const LAST_VALUE: &str =
    "{\"queues\":[{\"name\":\"q\",\"type\":\"lvq\",\"lvqKey\":\"k\",\"consumers\":[{\"name\":\"c\",\"actor\":\"a\"}]}]}\n";

const RING_OF_ONE: &str =
    "{\"queues\":[{\"name\":\"q\",\"type\":\"lvq\",\"lvqKey\":\"k\",\"maximumQueueDepthMessages\":1,\"overflowPolicy\":\"RING\"}]}\n";

// A message without header and body has 16 bytes, and with a key of one byte 24.

const PUT_1_B: &str =
    "{\"do\":\"put\",\"actor\":\"a\",\"queue\":\"q\",\"id\":1,\"headers\":{\"k\":\"b\"}}\n";

const PUT_2: &str = "{\"do\":\"put\",\"actor\":\"a\",\"queue\":\"q\",\"id\":2}\n";

const PUT_3_A: &str =
    "{\"do\":\"put\",\"actor\":\"a\",\"queue\":\"q\",\"id\":3,\"headers\":{\"k\":\"a\"}}\n";

const PUT_4_B: &str =
    "{\"do\":\"put\",\"actor\":\"a\",\"queue\":\"q\",\"id\":4,\"headers\":{\"k\":\"b\"}}\n";

const PUT_4_A: &str =
    "{\"do\":\"put\",\"actor\":\"a\",\"queue\":\"q\",\"id\":4,\"headers\":{\"k\":\"a\"}}\n";

const PUT_2_B: &str =
    "{\"do\":\"put\",\"actor\":\"a\",\"queue\":\"q\",\"id\":2,\"headers\":{\"k\":\"b\"}}\n";

const PUT_3: &str = "{\"do\":\"put\",\"actor\":\"a\",\"queue\":\"q\",\"id\":3}\n";

const PUT_4: &str = "{\"do\":\"put\",\"actor\":\"a\",\"queue\":\"q\",\"id\":4}\n";

const TAKE: &str = "{\"do\":\"take\",\"actor\":\"a\",\"consumer\":\"c\"}\n";

const ACK: &str = "{\"do\":\"ack\",\"actor\":\"a\",\"queue\":\"q\"}\n";

const RELEASE_1: &str = "{\"do\":\"release\",\"actor\":\"a\",\"queue\":\"q\",\"id\":1}\n";

const RELEASE_3: &str = "{\"do\":\"release\",\"actor\":\"a\",\"queue\":\"q\",\"id\":3}\n";

const REST: &str = "{\"do\":\"rest\"}\n";

// Scripts of one actor, and what is printed of them.
const SCRIPTS: &[(&[&str], &str)] = &[
    // By key, then by arrival, and those without a key last.
    (
        &[
            SORTED, PUT_1_B, PUT_2, PUT_3_A, PUT_4_B, TAKE, TAKE, TAKE, TAKE,
        ],
        "a 2 ok 1\na 3 ok 2\na 4 ok 3\na 5 ok 4\na 6 got 3 1\na 7 got 1 1\na 8 got 4 1\na 9 got 2 1\n\
         queue q 4 88\nentry 3 held a\nentry 1 held a\nentry 4 held a\nentry 2 held a\n",
    ),
    // A released entry has its place again.
    (
        &[
            SORTED, PUT_1_B, PUT_2, PUT_3_A, PUT_4_B, TAKE, TAKE, RELEASE_3, TAKE, TAKE,
        ],
        "a 2 ok 1\na 3 ok 2\na 4 ok 3\na 5 ok 4\na 6 got 3 1\na 7 got 1 1\na 8 released 3\na 9 got 3 2\na 10 got 4 1\n\
         queue q 4 88\nentry 3 held a\nentry 1 held a\nentry 4 held a\nentry 2\n",
    ),
    // Entries that were carried come before later ones of their key.
    (
        &[
            SORTED, PUT_1_B, PUT_2, PUT_3_A, REST, PUT_4_A, TAKE, TAKE, TAKE, TAKE,
        ],
        "a 2 ok 1\na 3 ok 2\na 4 ok 3\nqueue q 3 64\nentry 3\nentry 1\nentry 2\n\
         a 6 ok 4\na 7 got 3 1\na 8 got 4 1\na 9 got 1 1\na 10 got 2 1\n\
         queue q 4 88\nentry 3 held a\nentry 4 held a\nentry 1 held a\nentry 2 held a\n",
    ),
    // A later entry takes the place of the available one of its key; those without a key stay.
    (
        &[LAST_VALUE, PUT_1_B, PUT_2_B, PUT_3, PUT_4, TAKE],
        "a 2 ok 1\na 3 ok 2 dropped q#1\na 4 ok 3\na 5 ok 4\na 6 got 2 1\n\
         queue q 3 56\nentry 2 held a\nentry 3\nentry 4\n",
    ),
    // An entry that was taken stays until it is released; then it is dropped if a later one has come, be that gone.
    (
        &[
            LAST_VALUE, PUT_1_B, TAKE, PUT_2_B, PUT_4_B, TAKE, ACK, RELEASE_1,
        ],
        "a 2 ok 1\na 3 got 1 1\na 4 ok 2\na 5 ok 4 dropped q#2\na 6 got 4 1\na 7 acked 4\na 8 outdated 1\n\
         queue q 0 0\n",
    ),
    // An entry of whose key a later one has come is told of, but not carried over a rest.
    (
        &[
            LAST_VALUE, PUT_1_B, TAKE, PUT_2_B, PUT_3_A, REST, TAKE, TAKE, TAKE,
        ],
        "a 2 ok 1\na 3 got 1 1\na 4 ok 2\na 5 ok 3\nqueue q 3 72\nentry 1 held a\nentry 2\nentry 3\n\
         a 7 got 2 1\na 8 got 3 1\na 9 empty\nqueue q 2 48\nentry 2 held a\nentry 3 held a\n",
    ),
    // Nor is it carried where the later one is gone.
    (
        &[LAST_VALUE, PUT_1_B, TAKE, PUT_2_B, TAKE, ACK, REST, TAKE],
        "a 2 ok 1\na 3 got 1 1\na 4 ok 2\na 5 got 2 1\na 6 acked 2\nqueue q 1 24\nentry 1 held a\n\
         a 8 empty\nqueue q 0 0\n",
    ),
    // The newest of a key is carried, with the number of its deliveries.
    (
        &[LAST_VALUE, PUT_1_B, TAKE, REST, PUT_2_B, TAKE],
        "a 2 ok 1\na 3 got 1 1\nqueue q 1 24\nentry 1 held a\n\
         a 5 ok 2 dropped q#1\na 6 got 2 1\nqueue q 1 24\nentry 2 held a\n",
    ),
    // A put to a ring drops what it displaced, and what is above the limit then.
    (
        &[RING_OF_ONE, PUT_1_B, PUT_3_A, PUT_4_A],
        "a 2 ok 1\na 3 ok 3 dropped q#1\na 4 ok 4 dropped q#3\n\
         queue q 1 24\nentry 4\n",
    ),
];

#[test]
fn sorted_and_last_value_queues(rt: HostRuntime) -> Result<(), Fail> {
    for &(parts, text) in SCRIPTS {
        let targets = targets(rt.alloc(), None)?;
        check(&rt, &FreeGate, parts, targets, text, CONSUMERS)?;
    }
    Ok(())
}

// Queues of all four kinds, and two actors whose lines come in order.
const TWO_ACTORS: &[&str] = &[
    "{\"queues\":[{\"name\":\"s\",\"consumers\":[{\"name\":\"cs\",\"actor\":\"b\"}]},",
    "{\"name\":\"p\",\"type\":\"priority\",\"priorities\":3,\"consumers\":[{\"name\":\"cp\",\"actor\":\"b\"}]},",
    "{\"name\":\"o\",\"type\":\"sorted\",\"sortKey\":\"k\",\"consumers\":[{\"name\":\"co\",\"actor\":\"b\"}]},",
    "{\"name\":\"l\",\"type\":\"lvq\",\"lvqKey\":\"k\",\"consumers\":[{\"name\":\"cl\",\"actor\":\"b\"}]}]}\n",
    "{\"do\":\"put\",\"actor\":\"a\",\"queue\":\"s\",\"id\":1}\n",
    "{\"do\":\"put\",\"actor\":\"a\",\"queue\":\"p\",\"id\":2,\"priority\":0}\n",
    "{\"do\":\"put\",\"actor\":\"a\",\"queue\":\"p\",\"id\":3,\"priority\":9}\n",
    "{\"do\":\"put\",\"actor\":\"a\",\"queue\":\"o\",\"id\":4,\"headers\":{\"k\":\"z\"}}\n",
    "{\"do\":\"put\",\"actor\":\"a\",\"queue\":\"o\",\"id\":5,\"headers\":{\"k\":\"y\"}}\n",
    "{\"do\":\"put\",\"actor\":\"a\",\"queue\":\"l\",\"id\":6,\"headers\":{\"k\":\"z\"}}\n",
    "{\"do\":\"take\",\"actor\":\"b\",\"consumer\":\"cl\"}\n",
    "{\"do\":\"put\",\"actor\":\"a\",\"queue\":\"l\",\"id\":7,\"headers\":{\"k\":\"z\"}}\n",
    "{\"do\":\"put\",\"actor\":\"a\",\"queue\":\"l\",\"id\":8,\"headers\":{\"k\":\"z\"}}\n",
    "{\"do\":\"take\",\"actor\":\"b\",\"consumer\":\"cs\"}\n",
    "{\"do\":\"take\",\"actor\":\"b\",\"consumer\":\"cp\"}\n",
    "{\"do\":\"take\",\"actor\":\"b\",\"consumer\":\"co\"}\n",
    "{\"do\":\"release\",\"actor\":\"b\",\"queue\":\"l\",\"id\":6}\n",
];

const TWO_ACTORS_TEXT: &str =
    "a 2 ok 1\na 3 ok 2\na 4 ok 3\na 5 ok 4\na 6 ok 5\na 7 ok 6\na 9 ok 7\na 10 ok 8 dropped l#7\n\
     b 8 got 6 1\nb 11 got 1 1\nb 12 got 3 1\nb 13 got 5 1\nb 14 outdated 6\n\
     queue s 1 16\nentry 1 held b\nqueue p 2 32\nentry 3 held b\nentry 2\n\
     queue o 2 48\nentry 5 held b\nentry 4\nqueue l 1 24\nentry 8\n";

#[test]
fn all_kinds_and_two_actors(rt: HostRuntime) -> Result<(), Fail> {
    let gate = LineGate::make(2, TURNS);
    let targets = targets(rt.alloc(), None)?;
    check(&rt, &gate, TWO_ACTORS, targets, TWO_ACTORS_TEXT, CONSUMERS)?;
    assert!(rt; !gate.late());
    Ok(())
}

// The same lines by one actor, and a rest.
const ONE_ACTOR: &[&str] = &[
    "{\"queues\":[{\"name\":\"s\",\"consumers\":[{\"name\":\"cs\",\"actor\":\"a\"}]},",
    "{\"name\":\"p\",\"type\":\"priority\",\"priorities\":3,\"consumers\":[{\"name\":\"cp\",\"actor\":\"a\"}]},",
    "{\"name\":\"o\",\"type\":\"sorted\",\"sortKey\":\"k\",\"consumers\":[{\"name\":\"co\",\"actor\":\"a\"}]},",
    "{\"name\":\"l\",\"type\":\"lvq\",\"lvqKey\":\"k\",\"consumers\":[{\"name\":\"cl\",\"actor\":\"a\"}]}]}\n",
    "{\"do\":\"put\",\"actor\":\"a\",\"queue\":\"s\",\"id\":1}\n",
    "{\"do\":\"put\",\"actor\":\"a\",\"queue\":\"p\",\"id\":2,\"priority\":0}\n",
    "{\"do\":\"put\",\"actor\":\"a\",\"queue\":\"p\",\"id\":3,\"priority\":9}\n",
    "{\"do\":\"put\",\"actor\":\"a\",\"queue\":\"o\",\"id\":4,\"headers\":{\"k\":\"z\"}}\n",
    "{\"do\":\"put\",\"actor\":\"a\",\"queue\":\"o\",\"id\":5,\"headers\":{\"k\":\"y\"}}\n",
    "{\"do\":\"put\",\"actor\":\"a\",\"queue\":\"l\",\"id\":6,\"headers\":{\"k\":\"z\"}}\n",
    "{\"do\":\"take\",\"actor\":\"a\",\"consumer\":\"cl\"}\n",
    "{\"do\":\"put\",\"actor\":\"a\",\"queue\":\"l\",\"id\":7,\"headers\":{\"k\":\"z\"}}\n",
    "{\"do\":\"put\",\"actor\":\"a\",\"queue\":\"l\",\"id\":8,\"headers\":{\"k\":\"z\"}}\n",
    "{\"do\":\"take\",\"actor\":\"a\",\"consumer\":\"cs\"}\n",
    "{\"do\":\"take\",\"actor\":\"a\",\"consumer\":\"cp\"}\n",
    "{\"do\":\"take\",\"actor\":\"a\",\"consumer\":\"co\"}\n",
    "{\"do\":\"release\",\"actor\":\"a\",\"queue\":\"l\",\"id\":6}\n",
    "{\"do\":\"rest\"}\n",
    "{\"do\":\"take\",\"actor\":\"a\",\"consumer\":\"co\"}\n",
    "{\"do\":\"take\",\"actor\":\"a\",\"consumer\":\"cl\"}\n",
    "{\"do\":\"take\",\"actor\":\"a\",\"consumer\":\"cl\"}\n",
];

const ONE_ACTOR_TEXT: &str =
    "a 2 ok 1\na 3 ok 2\na 4 ok 3\na 5 ok 4\na 6 ok 5\na 7 ok 6\na 8 got 6 1\na 9 ok 7\na 10 ok 8 dropped l#7\n\
     a 11 got 1 1\na 12 got 3 1\na 13 got 5 1\na 14 outdated 6\n\
     queue s 1 16\nentry 1 held a\nqueue p 2 32\nentry 3 held a\nentry 2\n\
     queue o 2 48\nentry 5 held a\nentry 4\nqueue l 1 24\nentry 8\n\
     a 16 got 5 2\na 17 got 8 1\na 18 empty\nqueue s 1 16\nentry 1\nqueue p 2 32\nentry 3\nentry 2\n\
     queue o 2 48\nentry 5 held a\nentry 4\nqueue l 1 24\nentry 8 held a\n";

#[test]
fn all_kinds_over_a_rest(rt: HostRuntime) -> Result<(), Fail> {
    let targets = targets(rt.alloc(), None)?;
    check(
        &rt,
        &FreeGate,
        ONE_ACTOR,
        targets,
        ONE_ACTOR_TEXT,
        CONSUMERS,
    )
}
