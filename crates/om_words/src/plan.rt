ghost use Rattle.std.specs.Prelude.{◌≡◌, IfOk};
ghost use Rattle.om_words.specs.DrawnWords.{undrawn};
ghost use Rattle.om_words.specs.PlannedWords.{HasWords, source_for};

use super::draw::Words;
use super::list::WordList;
use std::alloc::{AllocError, Global};

/// Which words the pools draw: each the words of one list, or each those of one seed and its own number.
#[derive(Debug, Drop)]
pub enum WordPlan {
    /// The words of every pool, again and again.
    Listed(WordList),
    /// The seed of ChaCha8's keys.
    Seeded(u64),
}

impl WordPlan {
    /// The words of a pool by its number, from 0.
    pub fn words(&self, alloc: Global, pool: u32) -> Result<Words, AllocError>
        requires { HasWords self.now }
        ensures { IfOk result (λ words. words ≡ undrawn (source_for self.now pool)) }
    {
        match self {
            WordPlan::Listed(list) => Ok(Words::cycle(list.copy(alloc)?)),
            WordPlan::Seeded(seed) => Ok(Words::seeded(*seed, pool)),
        }
    }
}

#[cfg(test)]
mod tests {
    use super::*;
    use std::test::Fail;

    #[test]
    fn plans_give_words(rt: HostRuntime) -> Result<(), Fail> {
        let list = WordList::new(vec![in rt.alloc(); 8, 9]?);
        assert_eq!(rt; list.len(), 2);
        assert_eq!(rt; list.word(1), 9);
        let plan = WordPlan::Listed(list);
        let mut words = plan.words(rt.alloc(), 3)?;
        assert_eq!(rt; words.draw(), 8);
        assert_eq!(rt; words.draw(), 9);
        assert_eq!(rt; words.draw(), 8);
        let mut words = WordPlan::Seeded(7).words(rt.alloc(), 3)?;
        assert_eq!(rt; words.draw(), 0x7271c448);
        assert_eq!(rt; words.place(), 1);
        Ok(())
    }
}
