//! Names, numbers, addresses, networks and endpoints as octets of text.
ghost use Rattle.std.specs.Prelude.{◌≡◌, ◌≤◌, ◌<◌, ◌^◌, ◌-◌, ◌%◌, IfSome, option_map, ◌==◌, position};
ghost use Rattle.mesh_atoms.specs.Literals.{name_of, is_name, is_digit, digits_of, number_of, cut, dotted_of, address_of, net_of, endpoint_of, place_of};
ghost use Rattle.mesh_atoms.specs.Settings.{IsName, is_name_octet};
ghost use Rattle.std.specs.List.{list_all};

use crate::{Addr4, Endpoint, NetAddr};

fn is_name_octet(octet: u8) -> bool
    ensures { result ≡ is_name_octet octet }
{
    (97 <= octet && octet <= 122) || (48 <= octet && octet <= 57)
}

fn are_name_octets(text: &[u8]) -> bool
    ensures { result ≡ list_all is_name_octet text.now }
{
    for octet in text {
        if !is_name_octet(*octet) {
            return false;
        }
    }
    true
}

/// The text, where it is a name: 1 to 16 lower case letters and digits.
pub fn name_of(text: &[u8]) -> Option<&[u8]>
    ensures exact { option_map (λ name. name.now) result ≡ name_of text.now }
    ensures named { IfSome result (λ name. IsName name.now) }
{
    if 1 <= text.len() && text.len() <= 16 && are_name_octets(text) {
        Some(text)
    } else {
        None
    }
}

/// The number that decimal digits spell, with no needless zero in front, where it is at most `most`, below 2^32.
pub fn number_of(text: &[u8], most: u64) -> Option<u64>
    requires { most < 2 ^ 32 }
    ensures exact { result ≡ number_of most text.now }
    ensures range { IfSome result (λ n. n ≤ most) }
{
    match text {
        [] => None,
        [_] => digits_of(text, most),
        [first, _, ..] => {
            if *first == b'0' {
                None
            } else {
                digits_of(text, most)
            }
        }
    }
}

fn digits_of(text: &[u8], most: u64) -> Option<u64>
    requires { most < 2 ^ 32 }
    ensures exact { result ≡ digits_of most 0 text.now }
    ensures range { IfSome result (λ n. n ≤ most) }
{
    let mut n: u64 = 0;
    for octet in text {
        if *octet < b'0' || *octet > b'9' {
            return None;
        }
        let more = 10 * n + u64::from(*octet - b'0');
        if more > most {
            return None;
        }
        n = more;
    }
    Some(n)
}

// The place of the first such octet.
fn mark_in(text: &[u8], mark: u8) -> Option<usize>
    ensures { result ≡ position (λ octet. octet == mark) text.now }
{
    text.iter().position(|octet| *octet == mark)
}

// What stands before and behind the first such octet.
fn cut(text: &[u8], mark: u8) -> Option<(&[u8], &[u8])>
    ensures { option_map (λ p. (p.0.now, p.1.now)) result ≡ cut mark text.now }
{
    match mark_in(text, mark) {
        Some(at) => Some((&text[..at], &text[at + 1..])),
        None => None,
    }
}

// Four numbers up to 255 with dots between, the first highest.
fn dotted_of(text: &[u8]) -> Option<u32>
    ensures { result ≡ dotted_of text.now }
{
    let (a, rest) = cut(text, b'.')?;
    let (b, rest) = cut(rest, b'.')?;
    let (c, d) = cut(rest, b'.')?;
    let a = number_of(a, 255)?;
    let b = number_of(b, 255)?;
    let c = number_of(c, 255)?;
    let d = number_of(d, 255)?;
    Some((((a * 256 + b) * 256 + c) * 256 + d) as u32)
}

/// The address that four numbers up to 255 with dots between spell, where it isn't 0.0.0.0.
pub fn address_of(text: &[u8]) -> Option<Addr4>
    ensures exact { result ≡ address_of text.now }
    ensures addressed { IfSome result (λ addr. 0 < addr.0) }
{
    let n = dotted_of(text)?;
    if 0 < n { Some(Addr4(n)) } else { None }
}

fn is_clear(n: u32, prefix: u64) -> bool
    requires { prefix ≤ 32 }
    ensures { result ≡ (n % 2 ^ (32 - prefix) == 0) }
{
    u64::from(n) % (1u64 << (32 - prefix)) == 0
}

/// The network that an address, which may be 0.0.0.0, a slash and a prefix up to 32 spell, with zero bits behind the prefix.
pub fn net_of(text: &[u8]) -> Option<NetAddr>
    ensures { option_map (λ net. (net.addr, net.prefix)) result ≡ net_of text.now }
{
    let (addr, prefix) = cut(text, b'/')?;
    let n = dotted_of(addr)?;
    let prefix = number_of(prefix, 32)?;
    if is_clear(n, prefix) {
        Some(NetAddr {
            addr: Addr4(n),
            prefix: prefix as u8,
        })
    } else {
        None
    }
}

/// The endpoint that an address, a colon and a port from 1 to 65535 spell.
pub fn endpoint_of(text: &[u8]) -> Option<Endpoint>
    ensures { option_map (λ e. (e.addr, e.port)) result ≡ endpoint_of text.now }
{
    let (addr, port) = cut(text, b':')?;
    let addr = address_of(addr)?;
    let port = number_of(port, 65535)?;
    if 0 < port {
        Some(Endpoint {
            addr,
            port: port as u16,
        })
    } else {
        None
    }
}

/// The names of a router and of one of its interfaces, with a dot between.
pub fn place_of(text: &[u8]) -> Option<(&[u8], &[u8])>
    ensures { option_map (λ p. (p.0.now, p.1.now)) result ≡ place_of text.now }
{
    let (router, iface) = cut(text, b'.')?;
    let router = name_of(router)?;
    let iface = name_of(iface)?;
    Some((router, iface))
}
