//! Runs over an air and a clock in memory.
use crate::top::{Case, Over, QUIET, Script};

// A router up to moment 16384, with one interface.
const SETTINGS: &str = "end_ms = 2000
[router]
name = \"r\"
[[router.interface]]
name = \"w0\"
addresses = [\"127.0.0.1\"]
local = \"127.0.0.1:46981\"
";

// The same with two.
const TWO_INTERFACES: &str = "end_ms = 2000
[router]
name = \"r\"
[[router.interface]]
name = \"w0\"
addresses = [\"127.0.0.1\"]
local = \"127.0.0.1:46981\"
[[router.interface]]
name = \"w1\"
addresses = [\"127.0.0.2\"]
local = \"127.0.0.2:46981\"
";

// At most ten turns.
const RUN: Case = Case {
    words: &["run", "--turns", "10"],
    input: SETTINGS,
    ..QUIET
};

// HELLOs are due at 0 and at 16384, and no TC is sent by a router that advertises nothing. A refused frame is heard, and changes
// nothing. Tables that hold nothing have no room for what a HELLO tells. Worked by hand from the rules of a turn.
pub(crate) static CASES: [Case; 8] = [
    Case {
        name: "nothing is heard",
        out: "run end 16384 turns 3 heard 0 sent 2 air faults 0
router r 127.0.0.1
 held twohop 0 lost 0 topology 0 addresses 0 networks 0
 flooding w0 none
 routing none
",
        ..RUN
    },
    Case {
        name: "turns are used up",
        words: &["run", "--turns", "2"],
        status: 7,
        err: "mesh: turns 2 moment 8192 below 16384\n",
        ..RUN
    },
    Case {
        name: "the first attach fails",
        attaches: &[1],
        status: 6,
        err: "mesh: attach 0\n",
        ..RUN
    },
    Case {
        name: "the second attach fails",
        input: TWO_INTERFACES,
        attaches: &[2],
        status: 6,
        err: "mesh: attach 1\n",
        ..RUN
    },
    Case {
        name: "a HELLO is heard, and a hearing fails",
        script: Script::Hello,
        hears: &[2],
        out: "run end 16384 turns 3 heard 1 sent 2 air faults 1
router r 127.0.0.1
 link w0 10.0.0.1 heard in 1 out none selector no
 neighbour 10.0.0.1 heard in none out none flooding 7 routing 7 selector no
 held twohop 0 lost 0 topology 0 addresses 0 networks 0
 flooding w0 none
 routing none
",
        ..RUN
    },
    Case {
        name: "a HELLO and a refused frame are heard",
        script: Script::HelloAndRefused,
        moments: &[0, 4096, 8192, 16384],
        hears: &[3],
        sends: &[2],
        out: "run end 16384 turns 4 heard 2 sent 1 air faults 2
router r 127.0.0.1
 link w0 10.0.0.1 heard in 1 out none selector no
 neighbour 10.0.0.1 heard in none out none flooding 7 routing 7 selector no
 held twohop 0 lost 0 topology 0 addresses 0 networks 0
 flooding w0 none
 routing none
",
        ..RUN
    },
    Case {
        name: "nothing is sent",
        sends: &[1, 2],
        out: "run end 16384 turns 3 heard 0 sent 0 air faults 2
router r 127.0.0.1
 held twohop 0 lost 0 topology 0 addresses 0 networks 0
 flooding w0 none
 routing none
",
        ..RUN
    },
    Case {
        name: "tables that hold nothing have no room for a HELLO",
        over: Over::Nothing,
        script: Script::Hello,
        hears: &[2],
        status: 8,
        err: "mesh: memory\n",
        ..RUN
    },
];
