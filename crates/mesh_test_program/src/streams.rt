//! Streams that fail where no shell can make them, and tables that hold nothing.
use crate::top::{Case, Over, QUIET};

// A router alone, for ten seconds.
const ALONE: &str = "end_ms = 10000
[[router]]
name = \"s\"
[[router.interface]]
name = \"w0\"
addresses = [\"10.0.0.1\"]
";

// Two routers, the second of which hears the first.
const HEARD: &str = "end_ms = 1000
[[router]]
name = \"x\"
[[router.interface]]
name = \"w0\"
addresses = [\"10.0.0.1\"]
[[router]]
name = \"y\"
[[router.interface]]
name = \"w0\"
addresses = [\"10.0.0.2\"]
[[arc]]
from = \"x.w0\"
to = \"y.w0\"
metric = 1
";

// Three routers that hear each other, for a minute: the direct way from the first to the last costs as much as the other.
const TIE: &str = "end_ms = 60000
[[router]]
name = \"s\"
[[router.interface]]
name = \"w0\"
addresses = [\"10.0.0.1\"]
[[router]]
name = \"a\"
[[router.interface]]
name = \"w0\"
addresses = [\"10.0.0.2\"]
[[router]]
name = \"t\"
[[router.interface]]
name = \"w0\"
addresses = [\"10.0.0.3\"]
[[arc]]
from = \"s.w0\"
to = \"a.w0\"
metric = 1
[[arc]]
from = \"a.w0\"
to = \"s.w0\"
metric = 1
[[arc]]
from = \"a.w0\"
to = \"t.w0\"
metric = 1
[[arc]]
from = \"t.w0\"
to = \"a.w0\"
metric = 1
[[arc]]
from = \"s.w0\"
to = \"t.w0\"
metric = 2
[[arc]]
from = \"t.w0\"
to = \"s.w0\"
metric = 2
";

// A scenario of a router alone for a second, and its whole trace.
const WHOLE: &str = "end_ms = 1000
[[router]]
name = \"s\"
[[router.interface]]
name = \"w0\"
addresses = [\"10.0.0.1\"]
---
tick 0 s
relays s flooding w0 none
relays s routing none
sent 0 s w0 00008300220a000001000c01100164001001580710017701000a000001000402100100
tick 8192 s
relays s flooding w0 none
relays s routing none
";

// The same scenario, and its trace without the last event.
const BROKEN_OFF: &str = "end_ms = 1000
[[router]]
name = \"s\"
[[router.interface]]
name = \"w0\"
addresses = [\"10.0.0.1\"]
---
tick 0 s
relays s flooding w0 none
relays s routing none
sent 0 s w0 00008300220a000001000c01100164001001580710017701000a000001000402100100
";

pub(crate) static CASES: [Case; 10] = [
    Case {
        name: "the second call of the source fails",
        words: &["dump"],
        input: "00\n",
        takes: &[2],
        status: 2,
        err: "mesh: read fault\n",
        ..QUIET
    },
    // a front of the listing is out
    Case {
        name: "the second call of out fails",
        words: &["dump"],
        input: "\n10\n",
        puts: &[2],
        status: 3,
        out: "line 1 refused at 0 reason 1 Short\n",
        ..QUIET
    },
    // The third event of a trace isn't written, and those before it are out. What is sent is the HELLO of a router that hears nobody,
    // as it is known from outside.
    Case {
        name: "the third event of a trace isn't written",
        words: &["emulate", "--trace"],
        input: ALONE,
        puts: &[3],
        status: 3,
        out: "tick 0 s
relays s flooding w0 none
relays s routing none
sent 0 s w0 00008300220a000001000c01100164001001580710017701000a000001000402100100
tick 16384 s
relays s flooding w0 none
relays s routing none
sent 16384 s w0 00008300220a000001000c01100164001001580710017701000a000001000402100100
",
        ..QUIET
    },
    // Tables that hold nothing have no room for what a HELLO tells; a router alone hears none.
    Case {
        name: "tables that hold nothing have no room",
        over: Over::Nothing,
        words: &["emulate"],
        input: HEARD,
        status: 8,
        err: "mesh: memory\n",
        ..QUIET
    },
    Case {
        name: "tables that hold nothing have no room for three routers",
        over: Over::Nothing,
        words: &["emulate"],
        input: TIE,
        status: 8,
        err: "mesh: memory\n",
        ..QUIET
    },
    Case {
        name: "a router alone needs no room",
        over: Over::Nothing,
        words: &["emulate"],
        input: ALONE,
        out: "emulate routers 1 arcs 0 end 81920 sent 6 delivered 0 lost 0
router s 10.0.0.1
 held twohop 0 lost 0 topology 0 addresses 0 networks 0
 flooding w0 none
 routing none
settled yes
",
        ..QUIET
    },
    Case {
        name: "the second call of the source fails, and no trace is checked",
        words: &["replay"],
        input: WHOLE,
        takes: &[2],
        status: 2,
        err: "mesh: read fault\n",
        ..QUIET
    },
    Case {
        name: "the answer to a trace isn't written",
        words: &["replay"],
        input: WHOLE,
        puts: &[1],
        status: 3,
        ..QUIET
    },
    // Tables that hold nothing are enough for the trace of a router alone.
    Case {
        name: "the trace of a router alone needs no room",
        over: Over::Nothing,
        words: &["replay"],
        input: WHOLE,
        out: "replay yes lines 7\n",
        ..QUIET
    },
    Case {
        name: "the last event of a trace is missing",
        words: &["replay"],
        input: BROKEN_OFF,
        status: 9,
        out: "replay no line 5\n",
        ..QUIET
    },
];
