//! A router that hears TCs, and messages of other types.
use crate::frames::looks::{Held, Look};
use crate::frames::octets::{CHOOSES_TWO, ONE_SAYS, PACKET, Part};
use crate::frames::steps::Answer;
use crate::frames::steps::Event::{Hears, Looks};
use crate::frames::steps::Step::{At, Count, Sent};
use crate::frames::{FAR, ONE};
use crate::runs::{Case, Run};
use mesh_atoms::Addr4;
use mesh_core::Read;
use mesh_flood::{Forward, Heading, Process};

/// The router 10.0.0.2, with a second interface.
const TWO_INTERFACES: &[u8] = b"end_ms = 1
[[router]]
name = \"b\"
[[router.interface]]
name = \"w0\"
addresses = [\"10.0.0.2\"]
[[router.interface]]
name = \"w1\"
addresses = [\"10.0.1.2\"]
";

/// A packet of one TC of 10.9.9.9, of one row, up to its hop limit.
const TC: &[u8] = b"\x00\x01\xf3\x00\x2c\x0a\x09\x09\x09";

/// The validity of a TC, its interval, and the head of its number, which is told complete.
const TIMES: &[u8] = b"\x00\x0d\x01\x10\x01\x6f\x00\x10\x01\x62\x08\x10\x02";

/// A row of a router that is reached at cost 1, but for the last octet of its address.
const ROW: &[u8] = b"\x01\x00\x0a\x08\x00";

const AS_ROUTER: &[u8] = b"\x00\x09\x09\x10\x01\x03\x07\x10\x02\x10\x00";

/// Nothing of a neighbour, and one row of one originator.
const ONE_ROW: Look = Look::Holds(Held {
    last: 0,
    due: 0,
    near: [0, 0, 0, 0],
    far: [1, 1, 1, 0],
    ansn: 0,
});

const FIRST: &[Part] = &[
    Part::Once(TC),
    Part::Once(b"\xff\x00"),
    Part::Once(b"\x00\x05"),
    Part::Once(TIMES),
    Part::Once(b"\xff\xff"),
    Part::Once(ROW),
    Part::Once(b"\x01"),
    Part::Once(AS_ROUTER),
];

const AGAIN: &[Part] = &[
    Part::Once(TC),
    Part::Once(b"\xff\x00"),
    Part::Once(b"\x00\x05"),
    Part::Once(TIMES),
    Part::Once(b"\xff\xff"),
    Part::Once(ROW),
    Part::Once(b"\x02"),
    Part::Once(AS_ROUTER),
];

const OLDER: &[Part] = &[
    Part::Once(TC),
    Part::Once(b"\xff\x00"),
    Part::Once(b"\x00\x06"),
    Part::Once(TIMES),
    Part::Once(b"\xff\xfe"),
    Part::Once(ROW),
    Part::Once(b"\x03"),
    Part::Once(AS_ROUTER),
];

const ROUND: &[Part] = &[
    Part::Once(TC),
    Part::Once(b"\xff\x00"),
    Part::Once(b"\x00\x07"),
    Part::Once(TIMES),
    Part::Once(b"\x00\x00"),
    Part::Once(ROW),
    Part::Once(b"\x04"),
    Part::Once(AS_ROUTER),
];

/// At a distance of 32768 neither number is newer.
const HALF_ROUND: &[Part] = &[
    Part::Once(TC),
    Part::Once(b"\xff\x00"),
    Part::Once(b"\x00\x08"),
    Part::Once(TIMES),
    Part::Once(b"\x80\x00"),
    Part::Once(ROW),
    Part::Once(b"\x05"),
    Part::Once(AS_ROUTER),
];

/// The same with a validity of 2 s up to 2 hops away, and of 15 s further out: from its originator, and with a newer number from 3 hops away.
const LONGER: &[u8] = b"\x00\x01\xf3\x00\x2e\x0a\x09\x09\x09";

const BY_DISTANCE: &[u8] = b"\x00\x0f\x01\x10\x03\x58\x02\x6f\x00\x10\x01\x62\x08\x10\x02";

const NEAR_BY: &[Part] = &[
    Part::Once(LONGER),
    Part::Once(b"\xff\x00"),
    Part::Once(b"\x00\x05"),
    Part::Once(BY_DISTANCE),
    Part::Once(b"\x00\x07"),
    Part::Once(ROW),
    Part::Once(b"\x01"),
    Part::Once(AS_ROUTER),
];

const FROM_AFAR: &[Part] = &[
    Part::Once(LONGER),
    Part::Once(b"\xfd\x02"),
    Part::Once(b"\x00\x06"),
    Part::Once(BY_DISTANCE),
    Part::Once(b"\x00\x08"),
    Part::Once(ROW),
    Part::Once(b"\x01"),
    Part::Once(AS_ROUTER),
];

const TAKEN: Answer = Answer::Taken(&[(1, Read::Topology, Forward::NoSender)]);

const DONE: Answer = Answer::Taken(&[(
    1,
    Read::Passed(Process::Done { until: 245760 }),
    Forward::NoSender,
)]);

const OLD: Answer = Answer::Taken(&[(
    1,
    Read::Old {
        kept: 65535,
        given: 65534,
    },
    Forward::NoSender,
)]);

/// The TC of 10.9.9.9 behind its hop limit and hop count, and a message of another type.
const TC_BODY: &[u8] =
    b"\x00\x05\x00\x0d\x01\x10\x01\x6f\x00\x10\x01\x62\x08\x10\x02\x00\x07\x01\x00\x0a\x08\x00\x01\x00\x09\x09\x10\x01\x03\x07\x10\x02\x10\x00";

const OTHER: &[u8] = b"\xc8\xf3\x00\x0e\x0a\x09\x09\x09";

const OTHER_BODY: &[u8] = b"\x00\x06\x00\x00";

/// A HELLO that chooses the router as a flooding relay, a TC, and a message of another type, in one frame.
const THREE_MESSAGES: &[Part] = &[
    Part::Once(b"\x00\x00\x83\x00\x37"),
    Part::Once(ONE_SAYS),
    Part::Once(CHOOSES_TWO),
    Part::Once(b"\x01\xf3\x00\x2c\x0a\x09\x09\x09"),
    Part::Once(b"\xff\x00"),
    Part::Once(TC_BODY),
    Part::Once(OTHER),
    Part::Once(b"\x07\x03"),
    Part::Once(OTHER_BODY),
];

/// The TC and the other message one hop further, each in a frame of its own.
const TC_FURTHER: &[Part] = &[Part::Once(TC), Part::Once(b"\xfe\x01"), Part::Once(TC_BODY)];

const OTHER_FURTHER: &[Part] = &[
    Part::Once(PACKET),
    Part::Once(OTHER),
    Part::Once(b"\x06\x04"),
    Part::Once(OTHER_BODY),
];

/// The TC, the message of another type, and what has the type of the one and the number of the other.
const TC_HEADING: Heading = Heading {
    kind: 1,
    originator: Addr4(FAR),
    sequence: 5,
    limit: None,
    count: None,
};

const OTHER_HEADING: Heading = Heading {
    kind: 200,
    sequence: 6,
    ..TC_HEADING
};

const MIXED_HEADING: Heading = Heading {
    kind: 200,
    ..TC_HEADING
};

/// A further message of another type, with no hop left, and from 255 hops away.
const LAST: &[Part] = &[
    Part::Once(PACKET),
    Part::Once(OTHER),
    Part::Once(b"\x01\x03"),
    Part::Once(b"\x00\x09\x00\x00"),
];

const DISTANT: &[Part] = &[
    Part::Once(PACKET),
    Part::Once(OTHER),
    Part::Once(b"\x07\xff"),
    Part::Once(b"\x00\x09\x00\x00"),
];

const SENT: &[(usize, &[Part])] = &[
    (0, TC_FURTHER),
    (1, TC_FURTHER),
    (0, OTHER_FURTHER),
    (1, OTHER_FURTHER),
];

const ONWARD: Answer = Answer::Taken(&[
    (1, Read::Hello, Forward::NotFlooded),
    (1, Read::Topology, Forward::Do),
    (1, Read::Other, Forward::Do),
]);

const BEFORE: Forward = Forward::Seen { until: 245860 };

const SEEN: Answer = Answer::Taken(&[
    (1, Read::Hello, Forward::NotFlooded),
    (1, Read::Passed(Process::Done { until: 245860 }), BEFORE),
    (1, Read::Other, BEFORE),
]);

const ENDS: Answer = Answer::Taken(&[(1, Read::Other, Forward::NoHops)]);

pub(crate) static CASES: [Case; 3] = [
    (
        "a TC is valid by its distance",
        Run::Frames(
            TWO_INTERFACES,
            &[
                At(0, Hears(0, ONE, NEAR_BY, TAKEN)),
                At(0, Looks(Look::Kept(Some((7, 16384))))),
                At(0, Hears(0, ONE, FROM_AFAR, TAKEN)),
                At(0, Looks(Look::Kept(Some((8, 122880))))),
                Count(0),
            ],
        ),
    ),
    (
        "TCs of one originator",
        Run::Frames(
            TWO_INTERFACES,
            &[
                At(0, Hears(0, ONE, FIRST, TAKEN)),
                At(0, Hears(0, ONE, AGAIN, DONE)),
                At(0, Hears(0, ONE, OLDER, OLD)),
                At(0, Looks(Look::Kept(Some((65535, 122880))))),
                At(0, Looks(ONE_ROW)),
                At(0, Hears(0, ONE, ROUND, TAKEN)),
                At(0, Looks(Look::Kept(Some((0, 122880))))),
                At(0, Looks(ONE_ROW)),
                At(0, Hears(0, ONE, HALF_ROUND, TAKEN)),
                At(0, Looks(Look::Kept(Some((32768, 122880))))),
                At(0, Looks(ONE_ROW)),
                Count(0),
            ],
        ),
    ),
    (
        "three messages in a frame",
        Run::Frames(
            TWO_INTERFACES,
            &[
                At(0, Looks(Look::Noted(TC_HEADING, false))),
                At(0, Hears(100, ONE, THREE_MESSAGES, ONWARD)),
                Sent(SENT),
                At(0, Looks(Look::Noted(TC_HEADING, true))),
                At(0, Looks(Look::Noted(OTHER_HEADING, true))),
                At(0, Looks(Look::Noted(MIXED_HEADING, false))),
                At(0, Hears(100, ONE, THREE_MESSAGES, SEEN)),
                At(0, Hears(100, ONE, LAST, ENDS)),
                At(0, Hears(100, ONE, DISTANT, ENDS)),
                Count(0),
            ],
        ),
    ),
];
