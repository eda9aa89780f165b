//! Which word of the PHY.
ghost use Rattle.std.specs.Prelude.{◌≡◌, ◌<◌, ◌↔◌, IsSome, IfSome};

/// A word of the PHY by its number, 0 to 31.
#[derive(Clone, Copy, PartialEq, Eq, Debug)]
pub struct PhyWord {
    number: u8,
    ghost below: { number < 32 },
}

impl PhyWord {
    /// The word of that number; none above 31.
    pub fn new(number: u8) -> Option<PhyWord>
        ensures some { IsSome result ↔ (number < 32) }
        ensures number { IfSome result (λ word. word.number ≡ number) }
    {
        if number < 32 {
            Some(PhyWord { number })
        } else {
            None
        }
    }

    /// Its number.
    pub fn number(self) -> u8
        ensures number { result ≡ self.number }
        ensures below { result < 32 }
    {
        self.number
    }
}
