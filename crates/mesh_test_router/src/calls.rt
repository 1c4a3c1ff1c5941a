//! Calls that a router doesn't make: a HELLO and a TC are taken without being told whether something has changed, all is expired at
//! once, and a link is asked for its status.
ghost use Rattle.std.specs.Prelude.{◌≡◌, ◌<◌, ◌^◌, length, IfOk};
ghost use Rattle.mesh_atoms.specs.Words.{IsAscending};
ghost use Rattle.mesh_test_router.specs.Ready.{IsReady};
ghost use Rattle.mesh_topo.specs.Tuples.{HasHosts};

use mesh_atoms::{
    Addr4, Admit, Hello, Link, LinkKey, LinkState, Metric, RouterSettings, Seq, Shown, Tc,
};
use mesh_config::scenario_of;
use mesh_expire::{Bases, Table};
use mesh_links::LinkSet;
use mesh_nbrs::Near4;
use mesh_nhdp::{HelloTaken, Nhdp};
use mesh_packet::{Message, decode};
use mesh_topo::{TcTaken, Topology};
use mesh_wire::{hello_of, tc_of};
use std::alloc::{AllocError, Global};

/// The sender of the HELLO.
const ONE: Addr4 = Addr4(0x0a00_0001);

/// How long the TC is valid, and longer than the HELLO, in ticks.
const VALIDITY: u64 = 122880;

/// The router 10.0.0.2.
const SETTINGS: &[u8] = b"end_ms = 1
[[router]]
name = \"b\"
[[router.interface]]
name = \"w0\"
addresses = [\"10.0.0.2\"]
";

/// The HELLO of 10.0.0.1, which hears nobody.
pub(crate) const HELLO: &[u8] =
    b"\x00\x00\x83\x00\x22\x0a\x00\x00\x01\x00\x0c\x01\x10\x01\x64\x00\x10\x01\x58\x07\x10\x01\x77\x01\x00\x0a\x00\x00\x01\x00\x04\x02\x10\x01\x00";

/// A TC of 10.9.9.9 of one row, of the router 10.8.0.1.
pub(crate) const TC: &[u8] =
    b"\x00\x01\xf3\x00\x2c\x0a\x09\x09\x09\xff\x00\x00\x05\x00\x0d\x01\x10\x01\x6f\x00\x10\x01\x62\x08\x10\x02\x00\x07\x01\x00\x0a\x08\x00\x01\x00\x09\x09\x10\x01\x03\x07\x10\x02\x10\x00";

// ---- a HELLO

fn start<B: Bases>(alloc: Global, settings: &RouterSettings) -> Result<Nhdp<B>, AllocError>
    requires { 0 < length settings.now.interfaces }
    ensures { IfOk result (λ nhdp. IsReady nhdp) }
{
    let nhdp = Nhdp::new(alloc, settings)?;
    Ok(nhdp)
}

/// What a HELLO comes to behind expiry.
fn take<B: Bases>(nhdp: &mut Nhdp<B>, now: u32, hello: &Hello) -> Result<HelloTaken, AllocError>
    requires lasts { 0 < hello.now.validity }
    requires validity { hello.now.validity < 2 ^ 62 }
    requires ready { IsReady nhdp.old }
{
    let now = u64::from(now);
    nhdp.expire(now)?;
    nhdp.take_hello(now, 0, ONE, hello)
}

/// Whether a HELLO makes a link.
fn makes_a_link<B: Bases>(
    alloc: Global,
    settings: &RouterSettings,
    hello: &Hello,
) -> Result<bool, AllocError> {
    if settings.interfaces.len() == 0 || hello.validity == 0 || hello.validity > VALIDITY {
        return Ok(false);
    }
    let mut nhdp = start::<B>(alloc, settings)?;
    let taken = take(&mut nhdp, 100, hello)?;
    Ok(taken == HelloTaken::Done && nhdp.link_count(0) == 1)
}

/// The same at the first of routers.
fn makes_a_link_at<B: Bases>(
    alloc: Global,
    routers: &[RouterSettings],
    hello: &Hello,
) -> Result<bool, AllocError> {
    match routers.get(0) {
        Some(settings) => makes_a_link::<B>(alloc, settings, hello),
        None => Ok(false),
    }
}

fn hello_is_taken<B: Bases>(alloc: Global, hello: &Hello) -> Result<bool, AllocError> {
    match scenario_of(alloc, SETTINGS) {
        Ok(scenario) => makes_a_link_at::<B>(alloc, scenario.routers.as_slice(), hello),
        Err(_) => Ok(false),
    }
}

fn hello_message_is_taken<B: Bases>(alloc: Global, message: &Message) -> Result<bool, AllocError>
    requires { message.now.kind ≡ 0 }
{
    match hello_of(alloc, message) {
        Ok(hello) => hello_is_taken::<B>(alloc, &hello),
        Err(_) => Ok(false),
    }
}

// ---- a TC

/// Whether a TC makes an advertiser, which is gone once the TC is valid no more.
fn tc_is_taken<B: Bases>(alloc: Global, tc: &Tc) -> Result<bool, AllocError>
    requires { HasHosts tc.now }
{
    if tc.validity > VALIDITY {
        return Ok(false);
    }
    let mut topology = Topology::<B>::new(alloc)?;
    let taken = topology.take_tc(0, tc)?;
    let before = topology.advertisers().len();
    topology.expire(VALIDITY);
    Ok(taken == TcTaken::Done && before == 1 && topology.advertisers().len() == 0)
}

fn tc_message_is_taken<B: Bases>(alloc: Global, message: &Message) -> Result<bool, AllocError>
    requires { message.now.kind ≡ 1 }
{
    match tc_of(alloc, message) {
        Ok(tc) => tc_is_taken::<B>(alloc, &tc),
        Err(_) => Ok(false),
    }
}

// ---- either

fn is_taken<B: Bases>(alloc: Global, message: &Message) -> Result<bool, AllocError> {
    if message.kind == 0 {
        hello_message_is_taken::<B>(alloc, message)
    } else if message.kind == 1 {
        tc_message_is_taken::<B>(alloc, message)
    } else {
        Ok(false)
    }
}

/// The same of the only message of several.
fn only_is_taken<B: Bases>(alloc: Global, messages: &[Message]) -> Result<bool, AllocError> {
    match messages {
        [message] => is_taken::<B>(alloc, message),
        _ => Ok(false),
    }
}

/// The same of the only message of a packet.
pub(crate) fn packet_is_taken<B: Bases>(alloc: Global, frame: &[u8]) -> Result<bool, AllocError> {
    match decode(alloc, frame) {
        Ok(decoded) => only_is_taken::<B>(alloc, decoded.packet.messages.as_slice()),
        Err(_) => Ok(false),
    }
}

// ---- a link

fn sending(alloc: Global) -> Result<Seq<Addr4>, AllocError>
    ensures ascending { IfOk result (λ list. IsAscending list) }
    ensures some { IfOk result (λ list. 0 < length list) }
{
    let mut list = Seq::new(alloc);
    list.push(ONE)?;
    Ok(list)
}

/// Hears a HELLO that tells nothing of the receiver.
fn hear<T: Table<LinkKey, Link>>(alloc: Global, set: &mut LinkSet<T>) -> Result<(), AllocError> {
    let shown = Shown {
        sending: sending(alloc)?,
        status: None,
        link_in: Metric { code: 1 },
        link_out: None,
        selector: false,
        validity: 49152,
    };
    let rule = Admit::all(&Seq::new(alloc))?;
    set.hear(100, 49152, &shown, &rule)
}

/// Whether a link that is heard has that status.
pub(crate) fn link_is_heard<T: Table<LinkKey, Link>>(alloc: Global) -> Result<bool, AllocError> {
    let mut set = LinkSet::<T>::new(alloc)?;
    hear(alloc, &mut set)?;
    let key = LinkKey { addr: ONE };
    Ok(set.status(key, 100) == Some(LinkState::Heard))
}
