//! The bits of a register in which an answer may differ for a known cause.
ghost use Rattle.std.specs.Prelude.{◌≡◌};
ghost use Rattle.em_known.specs.Bits.{in_first, is_known, is_unheld, known_bits, of_pins, unless, when};

use crate::causes::Causes;
use em_regs::{Profile, Reg};

/// All bits of a register.
const ALL: u32 = 0xFFFF_FFFF;

/// Whether a read of a register that gave `here`, where another device gave `wanted`, differs for a known cause: it differs in
/// no other bits than those.
pub fn is_known(profile: Profile, causes: Causes, reg: Reg, wanted: u32, here: u32) -> bool
    ensures { result ≡ is_known profile causes reg wanted here }
{
    (wanted ^ here) & !known_bits(profile, causes, reg, wanted, here) == 0
}

/// The bits of a register in which its answer may differ, where another device gave `wanted` and the model `here`.
pub fn known_bits(profile: Profile, causes: Causes, reg: Reg, wanted: u32, here: u32) -> u32
    ensures { result ≡ known_bits profile causes reg wanted here }
{
    match reg {
        Reg::Ctrl => in_first(profile, unless(causes.ctrl, 0x00FC_1BE1)),
        Reg::Ledctl => in_first(profile, unless(causes.ledctl, ALL)),
        Reg::Pba => in_first(profile, unless(causes.pba, 0x007F_007F)),
        Reg::Vet => in_first(profile, unless(causes.vet, 0x0000_FFFF)),
        Reg::Status => in_first(profile, 0x8008_0700),
        Reg::Eerd => when(is_unheld((here >> 8) & 0xFF), 0xFFFF_0000),
        Reg::Eecd => of_pins(wanted, here),
        Reg::CtrlExt
        | Reg::Fcal
        | Reg::Fcah
        | Reg::Fct
        | Reg::Fcttv
        | Reg::Tipg
        | Reg::Rxdctl
        | Reg::Tidv
        | Reg::Rxcsum => when(wanted == 0, ALL),
        Reg::Rdtr | Reg::Radv | Reg::Tadv | Reg::Itr => {
            in_first(profile, when(wanted >> 16 == 0, 0xFFFF_0000))
        }
        Reg::Rdbal | Reg::Tdbal => 0x0000_000F,
        Reg::Rah(_) => 0x7FFC_0000,
        Reg::Ics => 0x0001_FFFF,
        Reg::Ims => 0xFFFE_0000,
        Reg::Icr => 0xFFFE_0000
            | when(causes.sent, 0x0000_0003)
            | when(causes.arrived, 0x0000_0050)
            | when(causes.enabled, 0x0000_0080),
        Reg::Rdh => when(causes.rdt, 0x0000_FFFF),
        Reg::Tdh => when(causes.tdt, 0x0000_FFFF),
        Reg::Gptc
        | Reg::Gotcl
        | Reg::Gotch
        | Reg::Ptc64
        | Reg::Ptc127
        | Reg::Ptc255
        | Reg::Ptc511
        | Reg::Ptc1023
        | Reg::Ptc1522
        | Reg::Mptc
        | Reg::Bptc
        | Reg::Totl
        | Reg::Toth
        | Reg::Tpt => when(causes.tdt, ALL),
        Reg::Mpc
        | Reg::Prc64
        | Reg::Prc127
        | Reg::Prc255
        | Reg::Prc511
        | Reg::Prc1023
        | Reg::Prc1522
        | Reg::Gprc
        | Reg::Bprc
        | Reg::Mprc
        | Reg::Gorcl
        | Reg::Gorch
        | Reg::Rnbc
        | Reg::Ruc
        | Reg::Roc
        | Reg::Torl
        | Reg::Torh
        | Reg::Tpr => when(causes.enabled, ALL),
        _ => 0,
    }
}

/// These bits, in the first profile: the second one has the start values, bits and widths of QEMU's.
fn in_first(profile: Profile, bits: u32) -> u32
    ensures { result ≡ in_first profile bits }
{
    match profile {
        Profile::Table => bits,
        Profile::Adapter => 0,
    }
}

/// Whether a word of the EEPROM is none of those that the model holds with the values of another adapter: 0 to 2 are the
/// address, and 63 is the sum.
fn is_unheld(word: u32) -> bool
    ensures { result ≡ is_unheld word }
{
    3 <= word && word <= 63
}

/// The bits of EECD: GNT, FWE where it is 01b here and 00b wanted, and DO while CS is set.
fn of_pins(wanted: u32, here: u32) -> u32
    ensures { result ≡ of_pins wanted here }
{
    0x80 | when(here / 16 % 4 == 1 && wanted / 16 % 4 == 0, 0x30) | when(here / 2 % 2 == 1, 0x8)
}

/// These bits, where something is so.
fn when(is_so: bool, bits: u32) -> u32
    ensures { result ≡ when is_so bits }
{
    if is_so { bits } else { 0 }
}

/// These bits, where something is not so.
fn unless(is_so: bool, bits: u32) -> u32
    ensures { result ≡ unless is_so bits }
{
    if is_so { 0 } else { bits }
}
