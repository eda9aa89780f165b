//! Names of the PHY's words.
ghost use Rattle.std.specs.Prelude.{◌≡◌};
ghost use Rattle.em_names.specs.Phy.{phy_name};

use em_phy::PhyWord;

/// The name of a word of the PHY, behind a blank; nothing of a word that has none. Those of words 0 to 10 are IEEE 802.3's
/// (clause 22), and those of 16 and 17 the part's own.
pub fn phy_name(word: PhyWord) -> &'static str
    ensures { result.now ≡ phy_name word.number }
{
    match word.number() {
        0 => " control",
        1 => " status",
        2 => " identifier 1",
        3 => " identifier 2",
        4 => " advertisement",
        5 => " partner",
        6 => " expansion",
        9 => " 1000BASE-T control",
        10 => " 1000BASE-T status",
        16 => " specific control",
        17 => " specific status",
        _ => "",
    }
}
