//! Steps of routers: what happens to them, and what must come of each.
use crate::frames::FAR;
use crate::frames::looks::{Beside, Look, kept_of, shows};
use crate::frames::octets::{Part, frame_of};
use mesh_atoms::{Addr4, Refusal, RouterSettings};
use mesh_config::scenario_of;
use mesh_core::{Core, Fate, Heard, Outbox, Read};
use mesh_expire::{Bases, Table};
use mesh_flood::Forward;
use std::alloc::{AllocError, Global};

/// What a router is to answer to a frame.
#[derive(Clone, Copy)]
pub(crate) enum Answer {
    // so many messages one after the other, and what becomes of each of them
    Taken(&'static [(usize, Read, Forward)]),
    // the place and the reason
    Refused(usize, u8),
    Wanting,
}

/// A HELLO is taken.
pub(crate) const HEARD: Answer = Answer::Taken(&[(1, Read::Hello, Forward::NotFlooded)]);

fn are_all(fates: &[Fate], read: Read, forward: Forward) -> bool {
    for fate in fates {
        if fate.read != read || fate.forward != forward {
            return false;
        }
    }
    true
}

fn are_fates(fates: &[Fate], wanted: &[(usize, Read, Forward)]) -> bool {
    let mut rest = fates;
    for run in wanted {
        let (count, read, forward) = *run;
        let Some((these, left)) = rest.split_at_checked(count) else {
            return false;
        };
        if !are_all(these, read, forward) {
            return false;
        }
        rest = left;
    }
    rest.is_empty()
}

fn is_heard(heard: &Heard, answer: &Answer) -> bool {
    match heard {
        Heard::Taken(fates) => match *answer {
            Answer::Taken(wanted) => are_fates(fates.as_slice(), wanted),
            _ => false,
        },
        Heard::Refused(refusal) => match *answer {
            Answer::Refused(place, reason) => *refusal == Refusal { place, reason },
            _ => false,
        },
    }
}

fn is_answer(came: &Result<Heard, AllocError>, answer: &Answer) -> bool {
    match came {
        Ok(heard) => is_heard(heard, answer),
        Err(_) => matches!(answer, Answer::Wanting),
    }
}

#[derive(Clone, Copy)]
pub(crate) enum Event {
    // moment and sender; the frame, on the first interface; the answer
    Hears(u32, u32, &'static [Part], Answer),
    // the moment; what is next due then, or none where it wants memory
    Ticks(u32, Option<u64>),
    Looks(Look),
}

#[derive(Clone, Copy)]
pub(crate) enum Step {
    // the router's number, and what happens to it
    At(usize, Event),
    // the frames that were sent, with their interfaces; they are forgotten then
    Sent(&'static [(usize, &'static [Part])]),
    // how many were sent; they are forgotten then
    Count(usize),
}

/// A router that is tried by events.
pub(crate) trait Router: Sized + Drop {
    /// A router with those settings, before its first event.
    fn start(alloc: Global, settings: RouterSettings) -> Result<Self, AllocError>;

    /// Lets it hear a frame on its first interface; nothing where there is none, or the moment is before the last event.
    fn hears(
        &mut self,
        out: &mut Outbox,
        now: u32,
        sender: Addr4,
        frame: &[u8],
    ) -> Option<Result<Heard, AllocError>>;

    /// Lets its clock tick; nothing where the moment is before the last event.
    fn ticks(&mut self, out: &mut Outbox, now: u32) -> Option<Result<(), AllocError>>;

    fn beside(&self) -> Beside;

    fn looks(&self, look: &Look) -> bool;
}

impl<B: Bases> Router for Core<B> {
    fn start(alloc: Global, settings: RouterSettings) -> Result<Core<B>, AllocError> {
        Core::new(alloc, settings)
    }

    fn hears(
        &mut self,
        out: &mut Outbox,
        now: u32,
        sender: Addr4,
        frame: &[u8],
    ) -> Option<Result<Heard, AllocError>> {
        let now = u64::from(now);
        if now < self.last() || self.settings().interfaces.len() == 0 {
            return None;
        }
        Some(self.hear(now, 0, sender, frame, out))
    }

    fn ticks(&mut self, out: &mut Outbox, now: u32) -> Option<Result<(), AllocError>> {
        let now = u64::from(now);
        if now < self.last() {
            return None;
        }
        Some(self.tick(now, out))
    }

    fn beside(&self) -> Beside {
        let (_, ansn) = self.advertised();
        let advertisers = self.topology().advertisers();
        Beside {
            spent: self.is_spent(),
            last: self.last(),
            due: self.due(),
            advertisers: advertisers.len(),
            kept: kept_of(advertisers, FAR),
            ansn,
        }
    }

    fn looks(&self, look: &Look) -> bool {
        shows(self, &self.beside(), look)
    }
}

/// Lets a router hear a frame, and says whether it answers so, and whether it is spent exactly where it wants memory.
fn hears<R: Router>(
    router: &mut R,
    out: &mut Outbox,
    now: u32,
    sender: u32,
    frame: &[u8],
    answer: &Answer,
) -> bool {
    match router.hears(out, now, Addr4(sender), frame) {
        Some(came) => is_answer(&came, answer) && router.beside().spent == came.is_err(),
        None => false,
    }
}

/// Lets the clock of a router tick, and says whether what is next due then is that; none where it wants memory.
fn ticks<R: Router>(router: &mut R, out: &mut Outbox, now: u32, due: Option<u64>) -> bool {
    match router.ticks(out, now) {
        Some(Ok(())) => is_ticked(&router.beside(), now, due),
        Some(Err(_)) => due.is_none() && router.beside().spent,
        None => false,
    }
}

fn is_ticked(beside: &Beside, now: u32, due: Option<u64>) -> bool {
    due == Some(beside.due) && beside.last == u64::from(now) && !beside.spent
}

/// Lets that happen to a router, and says whether what comes of it is right.
fn meets<R: Router>(
    alloc: Global,
    router: &mut R,
    out: &mut Outbox,
    event: &Event,
) -> Result<bool, AllocError> {
    match *event {
        Event::Hears(now, sender, parts, answer) => {
            let frame = frame_of(alloc, out, parts)?;
            Ok(hears(router, out, now, sender, frame.as_slice(), &answer))
        }
        Event::Ticks(now, due) => Ok(ticks(router, out, now, due)),
        Event::Looks(look) => Ok(router.looks(&look)),
    }
}

fn is_sent(
    alloc: Global,
    out: &Outbox,
    place: usize,
    iface: usize,
    parts: &[Part],
) -> Result<bool, AllocError> {
    let wanted = frame_of(alloc, out, parts)?;
    match out.frame(place) {
        Some((on, octets)) => Ok(on == iface && octets == wanted.as_slice()),
        None => Ok(false),
    }
}

fn are_sent(alloc: Global, out: &Outbox, wanted: &[(usize, &[Part])]) -> Result<bool, AllocError> {
    for place in 0..wanted.len() {
        let (iface, parts) = wanted[place];
        if !is_sent(alloc, out, place, iface, parts)? {
            return Ok(false);
        }
    }
    Ok(out.len() == wanted.len())
}

/// Whether what was sent is as a step says that looks at it.
fn shows_sent(alloc: Global, out: &mut Outbox, step: &Step) -> Result<bool, AllocError> {
    match *step {
        Step::At(..) => Ok(false),
        Step::Sent(wanted) => {
            let right = are_sent(alloc, out, wanted)?;
            out.clear();
            Ok(right)
        }
        Step::Count(want) => {
            let right = out.len() == want;
            out.clear();
            Ok(right)
        }
    }
}

/// Takes a step, and says whether what comes of it is right.
fn is_taken<R: Router>(
    alloc: Global,
    routers: &mut [R],
    out: &mut Outbox,
    step: &Step,
) -> Result<bool, AllocError> {
    match *step {
        Step::At(router, event) => {
            if router >= routers.len() {
                return Ok(false);
            }
            meets(alloc, &mut routers[router], out, &event)
        }
        _ => shows_sent(alloc, out, step),
    }
}

fn start_each<R: Router>(
    alloc: Global,
    settings: &[RouterSettings],
    routers: &mut Vec<R>,
) -> Result<(), AllocError> {
    for one in settings {
        let settings = one.copy()?;
        routers.push(R::start(alloc, settings)?)?;
    }
    Ok(())
}

/// Starts the routers that settings tell; none where they are refused.
fn start_all<R: Router>(
    alloc: Global,
    settings: &[u8],
    routers: &mut Vec<R>,
) -> Result<(), AllocError> {
    match scenario_of(alloc, settings) {
        Ok(scenario) => start_each(alloc, scenario.routers.as_slice(), routers),
        Err(_) => Ok(()),
    }
}

fn are_taken<R: Router>(
    alloc: Global,
    routers: &mut [R],
    out: &mut Outbox,
    steps: &[Step],
) -> Result<bool, AllocError> {
    for step in steps {
        if !is_taken(alloc, routers, out, step)? {
            return Ok(false);
        }
    }
    Ok(true)
}

/// Whether each step of the routers that settings tell comes to what it must.
pub(crate) fn goes_right<R: Router>(
    alloc: Global,
    settings: &[u8],
    steps: &[Step],
) -> Result<bool, AllocError> {
    let mut routers = Vec::<R>::new(alloc);
    start_all(alloc, settings, &mut routers)?;
    let mut out = Outbox::new(alloc);
    are_taken(alloc, routers.as_mut_slice(), &mut out, steps)
}
