ghost use Rattle.std.specs.Prelude.{◌≡◌, IfOk};
ghost use Rattle.om_opts.specs.Letters.{opt_of, warned_of, IsWithin};

use crate::options::Opts;
use std::alloc::{AllocError, Global};
use std::marker::Model;

/// What a string of option letters says.
#[derive(Debug, Drop)]
pub struct Parsed {
    opts: Opts,
    warned: Vec<u8>,
}

impl Model for Parsed {
    ghost use Rattle.om_opts.specs.Letters.{Reading, IsWithin};

    ghost Value = { Reading };

    ghost view = { λ p. record { opts = p.opts; warned = p.warned.items } };

    ghost invariant = { λ p. IsWithin p.opts };
}

/// Reads the letters from left to right. A byte that is no letter is no error: it is warned of.
#[tactic(auto, using(crate::proofs::LetterSteps::letter_steps))]
pub fn parse(alloc: Global, letters: &[u8]) -> Result<Parsed, AllocError>
    ensures opts { IfOk result (λ parsed. parsed.opts ≡ opt_of letters.now) }
    ensures warned { IfOk result (λ parsed. parsed.warned ≡ warned_of letters.now) }
    ensures within { IfOk result (λ parsed. IsWithin parsed.opts) }
{
    let mut opts = Opts::default();
    let mut warned = Vec::new(alloc);
    for letter in letters {
        match opts.after(*letter) {
            Some(next) => opts = next,
            None => warned.push(*letter)?,
        }
    }
    Ok(Parsed { opts, warned })
}

impl Parsed {
    /// The options that the letters leave.
    pub fn opts(&self) -> Opts
        ensures value { result ≡ self.now.opts }
        ensures within { IsWithin result }
    {
        self.opts
    }

    /// The bytes without an effect, in the order of the string and as often as they stand in it.
    pub fn warned(&self) -> &[u8]
        ensures { result.now ≡ self.now.warned }
    {
        &self.warned
    }
}
