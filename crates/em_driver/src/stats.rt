//! What a driver counts.
ghost use Rattle.std.specs.Prelude.{◌≡◌, ◌+◌, ◌*◌};
ghost use Rattle.em_driver.specs.Calls.{added};

/// Packets and octets, received and sent. They are added to, and stop at their greatest value.
#[derive(Clone, Copy, PartialEq, Eq, Debug, Default)]
pub struct DeviceStats {
    pub rx_pkts: u64,
    pub tx_pkts: u64,
    pub rx_bytes: u64,
    pub tx_bytes: u64,
}

/// A sum that stops at its greatest value.
pub(crate) fn sum(a: u64, b: u64) -> u64
    ensures { result ≡ added a b }
{
    a.saturating_add(b)
}

/// The number of octets in two registers.
pub(crate) fn octets(low: u32, high: u32) -> u64
    ensures { result ≡ low + 0x1_0000_0000 * high }
{
    u64::from(low) + (u64::from(high) << 32)
}
