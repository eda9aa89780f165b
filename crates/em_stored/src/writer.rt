//! Numbers, octets and lists in their forms, each put behind what was written so far.
ghost use Rattle.std.specs.Prelude.{◌≡◌, ◌++◌, OnOk};
ghost use Rattle.em_stored.specs.Form.{counted, number, word, words};

use std::alloc::AllocError;

/// A number in four octets.
#[tactic(auto, unfolding(crate::specs::Form::word))]
pub(crate) fn put_word(out: &mut Vec<u8>, value: u32) -> Result<(), AllocError>
    ensures { OnOk result (out.new.items ≡ out.old.items ++ word value) }
{
    out.extend_from_slice(&value.to_le_bytes())
}

/// A number in eight octets.
#[tactic(auto, unfolding(crate::specs::Form::number))]
pub(crate) fn put_number(out: &mut Vec<u8>, value: u64) -> Result<(), AllocError>
    ensures { OnOk result (out.new.items ≡ out.old.items ++ number value) }
{
    out.extend_from_slice(&value.to_le_bytes())
}

/// Numbers in four octets each.
pub(crate) fn put_words(out: &mut Vec<u8>, values: &[u32]) -> Result<(), AllocError>
    ensures { OnOk result (out.new.items ≡ out.old.items ++ words values.now) }
{
    for value in values {
        put_word(out, *value)?;
    }
    Ok(())
}

/// Numbers of 16 bits in four octets each.
pub(crate) fn put_halves(out: &mut Vec<u8>, values: &[u16]) -> Result<(), AllocError>
    ensures { OnOk result (out.new.items ≡ out.old.items ++ words values.now) }
{
    for value in values {
        put_word(out, u32::from(*value))?;
    }
    Ok(())
}

/// Octets behind their number.
pub(crate) fn put_counted(out: &mut Vec<u8>, octets: &[u8]) -> Result<(), AllocError>
    ensures { OnOk result (out.new.items ≡ out.old.items ++ counted octets.now) }
{
    put_number(out, octets.len() as u64)?;
    out.extend_from_slice(octets)
}
