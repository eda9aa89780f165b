//! The words behind a name, one after another.
ghost use Rattle.std.specs.Prelude.{◌≡◌, ◌∷◌, [], IfOk, IfErr};
ghost use Rattle.em_text.specs.Words.{words_of};
ghost use Rattle.em_prompt.specs.Fault.{plain as plain_fault, missing};
ghost use Rattle.em_prompt.specs.Says.{alone, plain};
ghost use Rattle.em_prompt.specs.Typed.{plain as plain_typed};

use crate::fault::Fault;
use crate::kind::Kind;
use crate::typed::Typed;
use em_text::Words;

/// The next word, which has to stand there.
pub(crate) fn next<'a>(words: &mut Words<'a>, kind: Kind) -> Result<&'a [u8], Fault<'a>>
    ensures ok { IfOk result (λ word. words_of words.old.0.now ≡ word.now ∷ words_of words.new.0.now) }
    ensures missing { IfErr result (λ fault. plain_fault fault ≡ missing kind) }
    ensures none { IfErr result (λ fault. words_of words.old.0.now ≡ []) }
{
    match words.next() {
        Some(word) => Ok(word),
        None => Err(Fault::Missing(kind)),
    }
}

/// This is said, unless one more word stands there.
pub(crate) fn alone<'a>(said: Typed<'a>, mut words: Words<'a>) -> Result<Typed<'a>, Fault<'a>>
    ensures { plain result ≡ alone (plain_typed said.entry) (words_of words.entry.0.now) }
{
    match words.next() {
        None => Ok(said),
        Some(word) => Err(Fault::TooMany(word)),
    }
}
