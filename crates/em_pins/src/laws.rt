//! What the pins give to software, whatever state they were in.
ghost use Rattle.em_pins.specs.Wire.{GivesBits, GivesWord, Selects, SelectsHigh};

/// CS low and high again selects the part, with SK low or high.
pub fn cs_selects()
    ensures low { Selects }
    ensures high { SelectsHigh }
{}

/// Nine clocks of 110 and an address, and then a bit at each clock: the word's, and the next words'.
pub fn words_come_out()
    ensures bits { GivesBits }
    ensures word { GivesWord }
{}
