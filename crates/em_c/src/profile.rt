//! The profiles by their numbers.
ghost use Rattle.std.specs.Prelude.{◌≡◌};
ghost use Rattle.em_c.specs.Refused.{Shows};
ghost use Rattle.em_c.specs.Looks.{asked};
ghost use Rattle.em_c.specs.Profile.{number_in, profile_in, profile_of};

use crate::handle::EmMachine;
use crate::refused::{Refused, tell};
use em_regs::Profile;

/// The number of the profile that the machine is of.
#[unsafe(no_mangle)]
pub extern "C" fn em_profile(machine: &mut EmMachine, profile: &mut u32) -> u32
    ensures profile { Shows (asked machine.old.sealed.held profile_in) profile.old result profile.new }
    ensures same { machine.new.sealed.held ≡ machine.old.sealed.held }
{
    tell(profile_in(machine), profile)
}

/// The number of the profile of the machine that is held.
fn profile_in(machine: &mut EmMachine) -> Result<u32, Refused>
    ensures profile { result ≡ asked machine.old.sealed.held profile_in }
    ensures same { machine.new.sealed.held ≡ machine.old.sealed.held }
{
    let held = machine.held()?;
    Ok(number_in(held.looked_at().profile()))
}

/// The number of a profile.
fn number_in(profile: Profile) -> u32
    ensures { result ≡ number_in profile }
{
    match profile {
        Profile::Table => 0,
        Profile::Adapter => 1,
    }
}

/// The profile that has a number.
pub fn profile_of(number: u32) -> Option<Profile>
    ensures { result ≡ profile_of number }
{
    match number {
        0 => Some(Profile::Table),
        1 => Some(Profile::Adapter),
        _ => None,
    }
}
