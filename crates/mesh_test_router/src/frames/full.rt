//! Sets that are full: one of each kind by frames that a router hears, over indexed tables.
use crate::frames::looks::{EMPTY, Held, Look};
use crate::frames::octets::{CHOOSES_TWO, HEARS_TWO, LONE, ONE_SAYS, PACKET, Part};
use crate::frames::steps::Event::{Hears, Looks};
use crate::frames::steps::Step::{At, Count};
use crate::frames::steps::{Answer, HEARD};
use crate::frames::{ONE, THREE};
use crate::runs::{Case, Run};
use mesh_atoms::Base;
use mesh_core::Read;
use mesh_flood::{Forward, Process};

/// The router 10.0.0.2, and two more, which hold what they received or processed for 820 ticks.
const ROUTERS: &[u8] = b"end_ms = 1
[times]
received_hold_ms = 100
processed_hold_ms = 100
[[router]]
name = \"b\"
[[router.interface]]
name = \"w0\"
addresses = [\"10.0.0.2\"]
[[router]]
name = \"c\"
[[router.interface]]
name = \"w0\"
addresses = [\"10.0.0.3\"]
[[router]]
name = \"d\"
[[router.interface]]
name = \"w0\"
addresses = [\"10.0.0.4\"]
";

/// 1,024 addresses, the further ones 11 a block.
const ADDRESSES: &[Part] = &[
    Part::Once(b"\x00\x00\x83\x08\x7d"),
    Part::Once(ONE_SAYS),
    Part::Turns(
        93,
        b"\x0b\x80\x03\x0b",
        b"\x00\x01\x02\x03\x04\x05\x06\x07\x08\x09\x0a\x00\x04\x02\x10\x01\x01",
    ),
];

/// The HELLO of 10.0.0.3.
const ANOTHER: &[Part] = &[
    Part::Once(LONE),
    Part::Once(
        b"\x0a\x00\x00\x03\x00\x0c\x01\x10\x01\x64\x00\x10\x01\x58\x07\x10\x01\x77\x01\x00\x0a\x00\x00\x03\x00\x04\x02\x10\x01\x00",
    ),
];

const FULL_OF_ADDRESSES: Answer = Answer::Taken(&[(
    1,
    Read::Full(Base::Neighbours),
    Forward::NotFlooded,
)]);

/// 16,384 addresses that are SYMMETRIC, 16 a block; and one more.
const SYMMETRIC: Part = Part::Turns(
    1024,
    b"\x10\x80\x03\x0b",
    b"\x00\x01\x02\x03\x04\x05\x06\x07\x08\x09\x0a\x0b\x0c\x0d\x0e\x0f\x00\x04\x03\x10\x01\x01",
);

const ONE_MORE: Part = Part::Once(b"\x01\x00\x0c\x00\x00\x00\x00\x04\x03\x10\x01\x01");

const TOO_MANY_TWO_HOPS: &[Part] = &[
    Part::Once(b"\x00\x00\x83\x70\x3f"),
    Part::Once(ONE_SAYS),
    Part::Once(HEARS_TWO),
    SYMMETRIC,
    ONE_MORE,
];

const MOST_TWO_HOPS: &[Part] = &[
    Part::Once(b"\x00\x00\x83\x70\x33"),
    Part::Once(ONE_SAYS),
    Part::Once(HEARS_TWO),
    SYMMETRIC,
];

const LAST_TWO_HOP: &[Part] = &[
    Part::Once(b"\x00\x00\x83\x00\x3f"),
    Part::Once(ONE_SAYS),
    Part::Once(HEARS_TWO),
    ONE_MORE,
];

const FULL_OF_TWO_HOPS: Answer = Answer::Taken(&[(
    1,
    Read::Full(Base::TwoHops),
    Forward::NotFlooded,
)]);

/// The originator 10.9.9.9 of a TC, its hop limit and its hop count.
const FAR: &[u8] = b"\x0a\x09\x09\x09\xff\x00";

/// The validity of a TC, its interval, and its number, with which it is complete.
const TC_SAYS: &[u8] = b"\x00\x0d\x01\x10\x01\x6f\x00\x10\x01\x62\x08\x10\x02\x00\x07";

/// The last octets of 16 addresses, and their TLVs.
const AS_ROUTERS: &[u8] =
    b"\x00\x01\x02\x03\x04\x05\x06\x07\x08\x09\x0a\x0b\x0c\x0d\x0e\x0f\x00\x09\x09\x10\x01\x01\x07\x10\x02\x10\x00";

const AS_ADDRESSES: &[u8] =
    b"\x00\x01\x02\x03\x04\x05\x06\x07\x08\x09\x0a\x0b\x0c\x0d\x0e\x0f\x00\x09\x09\x10\x01\x02\x07\x10\x02\x10\x00";

const AS_NETWORKS: &[u8] =
    b"\x00\x01\x02\x03\x04\x05\x06\x07\x08\x09\x0a\x0b\x0c\x0d\x0e\x0f\x00\x09\x0a\x10\x01\x01\x07\x10\x02\x10\x00";

/// TCs of 16,384 rows, and others of one more.
const MOST_ROUTERS: &[Part] = &[
    Part::Once(b"\x00\x01\xf3\x84\x1b"),
    Part::Once(FAR),
    Part::Once(b"\x00\x06"),
    Part::Once(TC_SAYS),
    Part::Turns(1024, b"\x10\x80\x03\x0b", AS_ROUTERS),
];

const MOST_ADDRESSES: &[Part] = &[
    Part::Once(b"\x00\x01\xf3\x84\x1b"),
    Part::Once(FAR),
    Part::Once(b"\x00\x06"),
    Part::Once(TC_SAYS),
    Part::Turns(1024, b"\x10\x80\x03\x0b", AS_ADDRESSES),
];

const MOST_NETWORKS: &[Part] = &[
    Part::Once(b"\x00\x01\xf3\x84\x1b"),
    Part::Once(FAR),
    Part::Once(b"\x00\x06"),
    Part::Once(TC_SAYS),
    Part::Turns(1024, b"\x10\x80\x03\x0b", AS_NETWORKS),
];

const TOO_MANY_ROUTERS: &[Part] = &[
    Part::Once(b"\x00\x01\xf3\x84\x2c"),
    Part::Once(FAR),
    Part::Once(b"\x00\x05"),
    Part::Once(TC_SAYS),
    Part::Turns(1024, b"\x10\x80\x03\x0b", AS_ROUTERS),
    Part::Once(b"\x01\x00\x0c\x00\x00\x00"),
    Part::Once(b"\x00\x09\x09\x10\x01\x01\x07\x10\x02\x10\x00"),
];

const TOO_MANY_ADDRESSES: &[Part] = &[
    Part::Once(b"\x00\x01\xf3\x84\x2c"),
    Part::Once(FAR),
    Part::Once(b"\x00\x05"),
    Part::Once(TC_SAYS),
    Part::Turns(1024, b"\x10\x80\x03\x0b", AS_ADDRESSES),
    Part::Once(b"\x01\x00\x0c\x00\x00\x00"),
    Part::Once(b"\x00\x09\x09\x10\x01\x02\x07\x10\x02\x10\x00"),
];

const TOO_MANY_NETWORKS: &[Part] = &[
    Part::Once(b"\x00\x01\xf3\x84\x2c"),
    Part::Once(FAR),
    Part::Once(b"\x00\x05"),
    Part::Once(TC_SAYS),
    Part::Turns(1024, b"\x10\x80\x03\x0b", AS_NETWORKS),
    Part::Once(b"\x01\x00\x0c\x00\x00\x00"),
    Part::Once(b"\x00\x09\x0a\x10\x01\x01\x07\x10\x02\x10\x00"),
];

const TAKEN: Answer = Answer::Taken(&[(1, Read::Topology, Forward::NoSender)]);

const FULL_OF_ROUTERS: Answer = Answer::Taken(&[(1, Read::Full(Base::Routers), Forward::NoSender)]);

const FULL_OF_ADDRESS_ROWS: Answer = Answer::Taken(&[(
    1,
    Read::Full(Base::Addresses),
    Forward::NoSender,
)]);

const FULL_OF_NETWORKS: Answer = Answer::Taken(&[(
    1,
    Read::Full(Base::Networks),
    Forward::NoSender,
)]);

/// A TC without rows of 10.9.9.9; and before it those of 16,384 other originators.
const TC: &[u8] = b"\x01\xf3\x00\x1b\x0a\x09\x09\x09\xff\x00\x00\x05";

const ONE_TC: &[Part] = &[Part::Once(PACKET), Part::Once(TC), Part::Once(TC_SAYS)];

const MANY_TCS: &[Part] = &[
    Part::Once(PACKET),
    Part::Turns(
        16384,
        b"\x01\xf3\x00\x1b\x0a\x14",
        b"\xff\x00\x00\x05\x00\x0d\x01\x10\x01\x6f\x00\x10\x01\x62\x08\x10\x02\x00\x07",
    ),
    Part::Once(TC),
    Part::Once(TC_SAYS),
];

const FULL_OF_PROCESSED: Answer = Answer::Taken(&[
    (16384, Read::Topology, Forward::NoSender),
    (1, Read::Passed(Process::Full), Forward::NoSender),
]);

const FULL_OF_ADVERTISERS: Answer = Answer::Taken(&[(
    1,
    Read::Full(Base::Advertisers),
    Forward::NoSender,
)]);

/// A message of 10.9.9.9 of another type; and 16,384 of 10.9.9.8, behind a HELLO that chooses the router as a flooding relay.
const OTHER: &[u8] = b"\xc8\xf3\x00\x0e\x0a\x09\x09\x09\xff\x00\x00\x05\x00\x00";

const ONE_OTHER: &[Part] = &[Part::Once(PACKET), Part::Once(OTHER)];

const MANY_OTHERS: &[Part] = &[
    Part::Once(b"\x00\x00\x83\x00\x37"),
    Part::Once(ONE_SAYS),
    Part::Once(CHOOSES_TWO),
    Part::Turns(
        16384,
        b"\xc8\xf3\x00\x0e\x0a\x09\x09\x08\xff\x00",
        b"\x00\x00",
    ),
    Part::Once(OTHER),
];

const FULL_OF_RECEIVED: Answer = Answer::Taken(&[
    (1, Read::Hello, Forward::NotFlooded),
    (16384, Read::Other, Forward::Do),
    (1, Read::Other, Forward::Full(Base::Received)),
]);

const FULL_OF_FORWARDED: Answer = Answer::Taken(&[(
    1,
    Read::Other,
    Forward::Full(Base::Forwarded),
)]);

const SEEN: Answer = Answer::Taken(&[(1, Read::Other, Forward::Seen { until: 1820 })]);

pub(crate) static CASES: [Case; 5] = [
    (
        "addresses of neighbours fill their set",
        Run::Frames(
            ROUTERS,
            &[
                At(0, Hears(100, ONE, ADDRESSES, HEARD)),
                At(
                    0,
                    Looks(Look::Holds(Held {
                        last: 100,
                        near: [1, 0, 1, 0],
                        ..EMPTY
                    })),
                ),
                At(0, Hears(200, THREE, ANOTHER, FULL_OF_ADDRESSES)),
                At(
                    0,
                    Looks(Look::Holds(Held {
                        last: 200,
                        near: [1, 0, 1, 0],
                        ..EMPTY
                    })),
                ),
                At(0, Hears(300, ONE, ADDRESSES, HEARD)),
            ],
        ),
    ),
    (
        "2-hop tuples fill their set",
        Run::Frames(
            ROUTERS,
            &[
                At(0, Hears(100, ONE, TOO_MANY_TWO_HOPS, FULL_OF_TWO_HOPS)),
                At(0, Looks(Look::Holds(Held { last: 100, ..EMPTY }))),
                At(0, Hears(200, ONE, MOST_TWO_HOPS, HEARD)),
                At(
                    0,
                    Looks(Look::Holds(Held {
                        last: 200,
                        near: [1, 16384, 1, 0],
                        ..EMPTY
                    })),
                ),
                At(0, Hears(300, ONE, LAST_TWO_HOP, FULL_OF_TWO_HOPS)),
                At(
                    0,
                    Looks(Look::Holds(Held {
                        last: 300,
                        near: [1, 16384, 1, 0],
                        ..EMPTY
                    })),
                ),
            ],
        ),
    ),
    (
        "rows of TCs fill their sets",
        Run::Frames(
            ROUTERS,
            &[
                At(0, Hears(100, ONE, TOO_MANY_ROUTERS, FULL_OF_ROUTERS)),
                At(0, Looks(Look::Holds(Held { last: 100, ..EMPTY }))),
                At(0, Hears(200, ONE, MOST_ROUTERS, TAKEN)),
                At(
                    0,
                    Looks(Look::Holds(Held {
                        last: 200,
                        far: [1, 16384, 0, 0],
                        ..EMPTY
                    })),
                ),
                At(1, Hears(100, ONE, TOO_MANY_ADDRESSES, FULL_OF_ADDRESS_ROWS)),
                At(1, Looks(Look::Holds(Held { last: 100, ..EMPTY }))),
                At(1, Hears(200, ONE, MOST_ADDRESSES, TAKEN)),
                At(
                    1,
                    Looks(Look::Holds(Held {
                        last: 200,
                        far: [1, 0, 16384, 0],
                        ..EMPTY
                    })),
                ),
                At(2, Hears(100, ONE, TOO_MANY_NETWORKS, FULL_OF_NETWORKS)),
                At(2, Looks(Look::Holds(Held { last: 100, ..EMPTY }))),
                At(2, Hears(200, ONE, MOST_NETWORKS, TAKEN)),
                At(
                    2,
                    Looks(Look::Holds(Held {
                        last: 200,
                        far: [1, 0, 0, 16384],
                        ..EMPTY
                    })),
                ),
            ],
        ),
    ),
    (
        "originators fill two sets",
        Run::Frames(
            ROUTERS,
            &[
                At(0, Hears(100, ONE, MANY_TCS, FULL_OF_PROCESSED)),
                At(0, Looks(Look::Full(true))),
                At(0, Hears(1000, ONE, ONE_TC, FULL_OF_ADVERTISERS)),
                At(0, Looks(Look::Full(false))),
                At(
                    0,
                    Looks(Look::Holds(Held {
                        last: 1000,
                        far: [16384, 0, 0, 0],
                        ..EMPTY
                    })),
                ),
            ],
        ),
    ),
    (
        "messages fill two sets",
        Run::Frames(
            ROUTERS,
            &[
                At(0, Hears(100, ONE, MANY_OTHERS, FULL_OF_RECEIVED)),
                Count(16384),
                At(0, Hears(1000, ONE, ONE_OTHER, FULL_OF_FORWARDED)),
                At(0, Hears(1000, ONE, ONE_OTHER, SEEN)),
                Count(0),
            ],
        ),
    ),
];
