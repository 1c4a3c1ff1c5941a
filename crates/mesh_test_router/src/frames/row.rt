//! Three routers in a row, a, b and c, whose frames are handed to each other, until each has routes to all that is there.
use crate::frames::looks::{Held, Look, RouteHas};
use crate::frames::octets::Part;
use crate::frames::steps::Event::{Hears, Looks, Ticks};
use crate::frames::steps::Step::{At, Count};
use crate::frames::steps::{Answer, HEARD};
use crate::frames::{ONE, THREE, TWO};
use crate::runs::{Case, Run};
use mesh_atoms::Addr4;
use mesh_core::Read;
use mesh_flood::{Forward, Process};

/// From a to b it costs 2 and back 3, from b to c 4 and back 5; and 7 from a into the network behind it.
const ROW: &[u8] = b"end_ms = 1
[[router]]
name = \"a\"
tc_at_ms = 5000
[[router.interface]]
name = \"w0\"
addresses = [\"10.0.0.1\"]
[[router.attached]]
net = \"192.168.0.0/24\"
metric = 7
[[router]]
name = \"b\"
hello_at_ms = 500
tc_at_ms = 5500
[[router.interface]]
name = \"w0\"
addresses = [\"10.0.0.2\"]
[[router]]
name = \"c\"
hello_at_ms = 1000
[[router.interface]]
name = \"w0\"
addresses = [\"10.0.0.3\"]
[[arc]]
from = \"a.w0\"
to = \"b.w0\"
metric = 2
[[arc]]
from = \"b.w0\"
to = \"a.w0\"
metric = 3
[[arc]]
from = \"b.w0\"
to = \"c.w0\"
metric = 4
[[arc]]
from = \"c.w0\"
to = \"b.w0\"
metric = 5
";

const A: usize = 0;

const B: usize = 1;

const C: usize = 2;

/// What was sent first, and what was sent then.
const FIRST_SENT: &[Part] = &[Part::Sent(0)];

const SECOND_SENT: &[Part] = &[Part::Sent(1)];

/// A TC that is taken and forwarded, one that is taken alone, and the router's own.
const ONWARD: Answer = Answer::Taken(&[(1, Read::Topology, Forward::Do)]);

const TAKEN: Answer = Answer::Taken(&[(1, Read::Topology, Forward::NotSelector)]);

const BACK: Answer = Answer::Taken(&[(1, Read::Passed(Process::Own), Forward::Own)]);

/// Where each leads, at first and in the end.
const TO_B: RouteHas = (TWO, 32, 2, TWO, ONE);

const AT_A: &[RouteHas] = &[TO_B, (THREE, 32, 6, TWO, TWO)];

const AT_A_FIRST: &[RouteHas] = &[TO_B];

const TO_C: RouteHas = (THREE, 32, 4, THREE, TWO);

const AT_B: &[RouteHas] = &[
    (ONE, 32, 3, ONE, TWO),
    TO_C,
    (0xc0a8_0000, 24, 10, ONE, ONE),
];

const AT_B_FIRST: &[RouteHas] = &[TO_C];

const AT_B_NEXT: &[RouteHas] = &[(ONE, 32, 3, ONE, TWO), TO_C];

const AT_C: &[RouteHas] = &[
    (ONE, 32, 8, TWO, TWO),
    (TWO, 32, 5, TWO, THREE),
    (0xc0a8_0000, 24, 15, TWO, ONE),
];

const AT_C_FIRST: &[RouteHas] = &[(ONE, 32, 8, TWO, TWO), (TWO, 32, 5, TWO, THREE)];

const RELAY: &[Addr4] = &[Addr4(TWO)];

/// What a holds at the end.
const HELD: Held = Held {
    last: 45065,
    due: 49152,
    near: [1, 1, 1, 0],
    far: [1, 2, 2, 0],
    ansn: 0,
};

/// What b holds once c is lost: its address is, and the link stays for the hold time.
const LOST: Held = Held {
    last: 73737,
    due: 86016,
    near: [2, 0, 2, 1],
    far: [1, 0, 0, 1],
    ansn: 3,
};

pub(crate) static CASES: [Case; 1] = [(
    "three routers in a row",
    Run::Frames(
        ROW,
        &[
            // b hears a, and a that it does
            At(A, Ticks(0, Some(16384))),
            At(B, Hears(9, ONE, FIRST_SENT, HEARD)),
            At(B, Looks(Look::Routes(&[]))),
            Count(1),
            At(B, Ticks(4096, Some(20480))),
            At(A, Hears(4105, TWO, FIRST_SENT, HEARD)),
            At(C, Hears(4105, TWO, FIRST_SENT, HEARD)),
            At(A, Looks(Look::Routes(AT_A_FIRST))),
            Count(1),
            At(C, Ticks(8192, Some(24576))),
            At(B, Hears(8201, THREE, FIRST_SENT, HEARD)),
            At(B, Looks(Look::Routes(AT_B_FIRST))),
            Count(1),
            // b knows both, and they each other by what it says
            At(A, Ticks(16384, Some(32768))),
            At(B, Hears(16393, ONE, FIRST_SENT, HEARD)),
            At(B, Looks(Look::Routes(AT_B_NEXT))),
            At(B, Looks(Look::Relays(&[]))),
            Count(1),
            At(B, Ticks(20480, Some(36864))),
            At(A, Hears(20489, TWO, FIRST_SENT, HEARD)),
            At(C, Hears(20489, TWO, FIRST_SENT, HEARD)),
            At(A, Looks(Look::Routes(AT_A))),
            At(A, Looks(Look::Relays(RELAY))),
            At(C, Looks(Look::Routes(AT_C_FIRST))),
            Count(1),
            // they choose it as their relay, and it advertises them
            At(C, Ticks(24576, Some(40960))),
            At(B, Hears(24585, THREE, FIRST_SENT, HEARD)),
            Count(1),
            At(A, Ticks(32768, Some(40960))),
            At(B, Hears(32777, ONE, FIRST_SENT, HEARD)),
            Count(1),
            // a advertises its network, by way of b
            At(A, Ticks(40960, Some(49152))),
            At(B, Hears(40969, ONE, FIRST_SENT, ONWARD)),
            At(A, Hears(40978, TWO, SECOND_SENT, BACK)),
            At(C, Hears(40978, TWO, SECOND_SENT, TAKEN)),
            At(B, Looks(Look::Routes(AT_B))),
            At(C, Looks(Look::Routes(AT_C))),
            Count(2),
            // b comes late with its HELLO, and sends its TC behind it
            At(B, Ticks(45056, Some(53248))),
            At(A, Hears(45065, TWO, FIRST_SENT, HEARD)),
            At(A, Hears(45065, TWO, SECOND_SENT, TAKEN)),
            Count(2),
            At(A, Looks(Look::Holds(HELD))),
            At(A, Looks(Look::Routes(AT_A))),
            // what c said last is valid up to now; two HELLOs are late, and one is sent for both
            At(B, Ticks(73737, Some(86016))),
            At(B, Looks(Look::Holds(LOST))),
            Count(1),
        ],
    ),
)];
