//! The names that are nearest to a word.
ghost use Rattle.std.specs.Prelude.{◌≡◌, IfOk};
ghost use Rattle.em_names.specs.Near.{AreRegs, distance_of};

use crate::names::{WORD, name};
use em_regs::{Profile, Reg, SPACE};
use std::alloc::{AllocError, Global};
use strsim::generic_levenshtein;

/// How many letters of a word count: the longest name has 9.
const LETTERS: usize = 16;

/// Three registers with their distances, the nearest first.
#[derive(Clone, Copy)]
struct Near {
    first: (usize, Reg),
    second: (usize, Reg),
    third: (usize, Reg),
}

/// Farther than any name.
const FAR: Near = Near {
    first: (usize::MAX, Reg::Ctrl),
    second: (usize::MAX, Reg::Ctrl),
    third: (usize::MAX, Reg::Ctrl),
};

/// The three registers of the first profile whose names are nearest to a word, the nearest first: fewest letters are put in,
/// left out or changed, in either case. Of names that are equally near the one at the lowest offset comes first. Only the
/// first 16 letters of the word count.
pub fn nearest(alloc: Global, word: &[u8]) -> Result<[Reg; 3], AllocError>
    ensures { IfOk result AreRegs }
{
    nearest_in(alloc, Profile::Table, word)
}

/// The same, of a profile.
pub fn nearest_in(alloc: Global, profile: Profile, word: &[u8]) -> Result<[Reg; 3], AllocError>
    ensures { IfOk result AreRegs }
{
    let mut letters = [0u8; LETTERS];
    let count = word.len().min(LETTERS);
    for i in 0..count {
        letters[i] = word[i].to_ascii_uppercase();
    }
    let mut near = FAR;
    for index in 0..SPACE / WORD {
        if let Some(reg) = Reg::of_offset_in(profile, WORD * index) {
            let distance = distance(alloc, &letters[..count], reg)?;
            near = near.with(distance, reg);
        }
    }
    Ok([near.first.1, near.second.1, near.third.1])
}

/// How many letters are put in, left out or changed from a word to a register's name.
fn distance(alloc: Global, letters: &[u8], reg: Reg) -> Result<usize, AllocError>
    ensures { IfOk result (λ distance. distance ≡ distance_of letters.now reg) }
{
    let name = name(reg);
    generic_levenshtein(alloc, letters, name.as_str().as_bytes())
}

impl Near {
    ghost use Rattle.em_regs.specs.Table.{IsReg};
    ghost use Rattle.em_names.specs.Near.{AreNear};

    /// With one more register, behind those that are as near.
    fn with(self, distance: usize, reg: Reg) -> Near
        requires reg { IsReg reg }
        requires near { AreNear self }
        ensures { AreNear result }
    {
        let near = (distance, reg);
        if distance < self.first.0 {
            Near {
                first: near,
                second: self.first,
                third: self.second,
            }
        } else if distance < self.second.0 {
            Near {
                second: near,
                third: self.second,
                ..self
            }
        } else if distance < self.third.0 {
            Near {
                third: near,
                ..self
            }
        } else {
            self
        }
    }
}
