//! Values as C sees them.
ghost use Rattle.std.specs.Prelude.{◌≡◌};
ghost use Rattle.em_c.specs.Told as the;

/// An address, of a descriptor say; of one behind all of 64 bits the last of these.
pub fn address_told(at: u128) -> u64
    ensures { result ≡ the.address_told at }
{
    match u64::try_from(at) {
        Ok(address) => address,
        Err(_) => u64::MAX,
    }
}

/// 1 where it is so, else 0.
pub fn flag(is: bool) -> u32
    ensures { result ≡ the.flag is }
{
    if is { 1 } else { 0 }
}
