//! A router that hears one HELLO, and what it refuses.
use crate::frames::ONE;
use crate::frames::looks::{EMPTY, Held, Look};
use crate::frames::octets::{LONE, ONE_SAYS, Part};
use crate::frames::steps::Event::{Hears, Looks, Ticks};
use crate::frames::steps::Step::{At, Count};
use crate::frames::steps::{Answer, HEARD};
use crate::runs::{Case, Run};
use mesh_core::Read;
use mesh_flood::Forward;

/// The routers 10.0.0.2 and 10.0.0.1.
const TWO_ROUTERS: &[u8] = b"end_ms = 1
[[router]]
name = \"b\"
[[router.interface]]
name = \"w0\"
addresses = [\"10.0.0.2\"]
[[router]]
name = \"a\"
[[router.interface]]
name = \"w0\"
addresses = [\"10.0.0.1\"]
";

const HELLO_OF_ONE: &[Part] = &[Part::Once(LONE), Part::Once(ONE_SAYS)];

/// An octet of which the version isn't 0.
const VERSION: &[Part] = &[Part::Once(b"\x10")];

/// The HELLO of 10.0.0.1 with a size that passes the end of the frame by one.
const CUT: &[Part] = &[Part::Once(b"\x00\x00\x83\x00\x23"), Part::Once(ONE_SAYS)];

/// A HELLO and a TC of addresses of 16 octets.
const OF_ANOTHER_LENGTH: &[Part] = &[Part::Once(
    b"\x00\x00\x0f\x00\x06\x00\x00\x01\x0f\x00\x06\x00\x00",
)];

/// The HELLO of a router that has one of the receiver's addresses.
const BROKEN: Answer = Answer::Taken(&[(1, Read::Broken(30), Forward::NotFlooded)]);

const BOTH_BROKEN: Answer = Answer::Taken(&[
    (1, Read::Broken(20), Forward::NotFlooded),
    (1, Read::Broken(32), Forward::NotFlooded),
]);

/// A HELLO without originator that has two addresses of its sender.
const NAMELESS: &[Part] = &[
    Part::Once(b"\x00\x00\x03\x00\x1a\x00\x04\x01\x10\x01\x64"),
    Part::Once(b"\x02\x00\x0a\x00\x00\x01\x0a\x00\x00\x05\x00\x04\x02\x10\x01\x00"),
];

const OF_NOBODY: Answer = Answer::Taken(&[(1, Read::Broken(31), Forward::NotFlooded)]);

pub(crate) static CASES: [Case; 1] = [(
    "frames and messages are refused",
    Run::Frames(
        TWO_ROUTERS,
        &[
            At(1, Hears(50, ONE, VERSION, Answer::Refused(0, 2))),
            At(1, Looks(Look::Holds(EMPTY))),
            // a message that breaks a rule changes nothing, but its frame is an event
            At(1, Hears(100, ONE, HELLO_OF_ONE, BROKEN)),
            At(1, Looks(Look::Holds(Held { last: 100, ..EMPTY }))),
            At(1, Hears(100, ONE, OF_ANOTHER_LENGTH, BOTH_BROKEN)),
            At(0, Hears(100, ONE, HELLO_OF_ONE, HEARD)),
            At(0, Hears(100, ONE, NAMELESS, OF_NOBODY)),
            // with a size that passes the end of the frame
            At(0, Hears(200, ONE, CUT, Answer::Refused(3, 3))),
            At(
                0,
                Looks(Look::Holds(Held {
                    last: 100,
                    near: [1, 0, 1, 0],
                    ..EMPTY
                })),
            ),
            Count(0),
        ],
    ),
)];

/// Over tables that hold nothing.
pub(crate) static WITHOUT_ROOM: [Case; 1] = [(
    "an allocation failure spends a router",
    Run::Frames(
        TWO_ROUTERS,
        &[
            At(0, Looks(Look::Spent(false))),
            At(0, Ticks(0, Some(16384))),
            At(0, Looks(Look::Spent(false))),
            Count(1),
            At(0, Hears(100, ONE, HELLO_OF_ONE, Answer::Wanting)),
            At(0, Looks(Look::Spent(true))),
            At(0, Ticks(20000, None)),
            At(0, Hears(20100, ONE, HELLO_OF_ONE, Answer::Wanting)),
            At(0, Hears(20100, ONE, VERSION, Answer::Wanting)),
            At(0, Looks(Look::Spent(true))),
            Count(0),
        ],
    ),
)];
