//! Digits without what may stand before them.
ghost use Rattle.std.specs.Prelude.{◌≡◌};
ghost use Rattle.em_line.specs.Digits.{bare};

/// A word without the `0x` before its digits, where people write one. em_bench takes none.
pub fn bare(word: &[u8]) -> &[u8]
    ensures { result.now ≡ bare word.now }
{
    match word {
        [b'0', b'x' | b'X', digits @ ..] => digits,
        _ => word,
    }
}
