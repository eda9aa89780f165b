//! The names of what lines ask of a driver.
ghost use Rattle.std.specs.Prelude.{◌≡◌};
ghost use Rattle.em_line.specs.Request.{request_named};

use em_text::is_name;

/// What a line asks of a driver, by its name.
#[derive(Clone, Copy)]
pub enum RequestName {
    /// That it starts.
    Start,
    /// That it sends a packet.
    Send,
    /// That it gives the packets that were received.
    Receive,
    /// How many packets and octets it counted.
    Stats,
    /// Its Ethernet address, or that it takes another.
    Address,
}

/// What is asked by a name, if anything is.
#[inline(always)]
pub(crate) fn request_named(name: &[u8]) -> Option<RequestName>
    ensures { result ≡ request_named name.now }
{
    if is_name(name, b"send") {
        return Some(RequestName::Send);
    }
    if is_name(name, b"recv") {
        return Some(RequestName::Receive);
    }
    if is_name(name, b"init") {
        return Some(RequestName::Start);
    }
    if is_name(name, b"stats") {
        return Some(RequestName::Stats);
    }
    if is_name(name, b"mac") {
        return Some(RequestName::Address);
    }
    None
}
