//! Octets go where the caller has room for them.
ghost use Rattle.std.specs.Prelude.{◌≡◌, ◌++◌, Ok, length};
ghost use Rattle.em_c.specs.Refused.{number, told};
ghost use Rattle.em_c.specs.Looks.{laid_into, text_into};

use crate::refused::Refused;

/// Copies octets to the head of the room for them, and tells how many they are: also where there is no room for them,
/// and then nothing is copied.
pub fn lay(octets: &[u8], room: &mut [u8], count: &mut usize) -> Result<(), Refused>
    ensures outcome { number result ≡ number (laid_into room.old (Ok octets.now)) }
    ensures octets { room.new ≡ told room.old (laid_into room.old (Ok octets.now)) }
    ensures count { count.new ≡ length octets.now }
{
    *count = octets.len();
    if octets.len() > room.len() {
        return Err(Refused::Room);
    }
    room[..octets.len()].copy_from_slice(octets);
    Ok(())
}

/// Copies a text to the head of the room for it, and a zero octet behind it; tells how many octets the text has: also
/// where there is no room for both, and then nothing is copied.
pub fn lay_text(text: &[u8], room: &mut [u8], count: &mut usize) -> Result<(), Refused>
    ensures outcome { number result ≡ number (text_into room.old (Ok text.now)) }
    ensures octets { room.new ≡ told room.old (text_into room.old (Ok text.now)) }
    ensures count { count.new ≡ length text.now }
{
    *count = text.len();
    if text.len() >= room.len() {
        return Err(Refused::Room);
    }
    room[..text.len()].copy_from_slice(text);
    room[text.len()] = 0;
    Ok(())
}

/// The same of octets that lie in two parts.
pub fn lay_in_two(
    front: &[u8],
    back: &[u8],
    room: &mut [u8],
    count: &mut usize,
) -> Result<(), Refused>
    ensures outcome { number result ≡ number (laid_into room.old (Ok (front.now ++ back.now))) }
    ensures octets { room.new ≡ told room.old (laid_into room.old (Ok (front.now ++ back.now))) }
    ensures count { count.new ≡ length (front.now ++ back.now) }
{
    let all = front.len() + back.len();
    *count = all;
    if all > room.len() {
        return Err(Refused::Room);
    }
    room[..front.len()].copy_from_slice(front);
    room[front.len()..all].copy_from_slice(back);
    Ok(())
}
