ghost use Rattle.std.specs.Prelude.{◌≡◌, ◌+◌, ◌^◌, ◌<◌, ◌↔◌, [], length, IfOk, IsErr};
ghost use Rattle.om_words.specs.DrawnWords.{listed, seeded, key_bytes, undrawn, word_of};
ghost use Rattle.om_words.specs.Origins.{IsAt, source_of};

use super::list::WordList;
use rand_chacha::ChaCha8Rng;
use rand_core::SeedableRng;
use rand_core::utils::NextWord;
use std::marker::Model;
use thiserror::Error;

/// The list has no word to draw.
#[derive(Debug, Drop, Error)]
#[error("the list of words is empty")]
pub struct NoWords;

#[derive(Debug, Drop)]
enum Origin {
    Listed(WordList),
    // The seed, the pool's number and the generator of their key.
    Seeded(u64, u32, ChaCha8Rng),
}

impl Origin {
    fn seeded(seed: u64, pool: u32) -> Origin
        ensures source { source_of result ≡ seeded seed pool }
        ensures start { IsAt result 0 }
    {
        let generator = ChaCha8Rng::from_seed(pool_key(seed, pool));
        Origin::Seeded(seed, pool, generator)
    }

    // The word at the place where it stands.
    fn next(&mut self, place: u64) -> u32
        requires at { IsAt self.old place }
        requires few { place < 2 ^ 63 }
        ensures word { result ≡ word_of (source_of self.old) place }
        ensures at { IsAt self.new (place + 1) }
        ensures same { source_of self.new ≡ source_of self.old }
    {
        match self {
            Origin::Listed(list) => list.word(place % list.len()),
            Origin::Seeded(_, _, generator) => generator.next_word(),
        }
    }
}

/// A source of words, and how many of them are drawn.
#[derive(Debug, Drop)]
pub struct Words {
    origin: Origin,
    place: u64,
}

impl Model for Words {
    ghost use Rattle.om_words.specs.DrawnWords.{WordSource};

    ghost Value = { WordSource };

    ghost use Rattle.om_words.specs.Origins.{IsAt, source_of};

    ghost view = { λ words. record { source = source_of words.origin; place = words.place } };

    ghost invariant = { λ words. IsAt words.origin words.place };
}

impl Words {
    /// The words of the list again and again.
    pub fn listed(list: Vec<u32>) -> Result<Words, NoWords>
        ensures words { IfOk result (λ words. words ≡ undrawn (listed list.items)) }
        ensures refused { IsErr result ↔ (list.items ≡ []) }
    {
        if list.is_empty() {
            return Err(NoWords);
        }
        let words = WordList::new(list);
        Ok(Words::cycle(words))
    }

    pub(crate) fn cycle(list: WordList) -> Words
        requires { 0 < length list }
        ensures { result ≡ undrawn (listed list) }
    {
        Words {
            origin: Origin::Listed(list),
            place: 0,
        }
    }

    /// The words of ChaCha8 with the key of a seed and a pool's number.
    pub fn seeded(seed: u64, pool: u32) -> Words
        ensures { result ≡ undrawn (seeded seed pool) }
    {
        Words {
            origin: Origin::seeded(seed, pool),
            place: 0,
        }
    }

    /// The next word.
    pub fn draw(&mut self) -> u32
        requires { self.old.place < 2 ^ 63 }
        ensures word { result ≡ word_of self.old.source self.old.place }
        ensures next { self.new ≡ record self.old { place = self.old.place + 1 } }
    {
        let word = self.origin.next(self.place);
        self.place += 1;
        word
    }

    /// How many words are drawn.
    pub fn place(&self) -> u64
        ensures { result ≡ self.now.place }
    {
        self.place
    }
}

#[tactic(auto, unfolding(crate::specs::DrawnWords::key_bytes))]
fn pool_key(seed: u64, pool: u32) -> [u8; 32]
    ensures { result ≡ key_bytes seed pool }
{
    let mut key = [0; 32];
    key[..8].copy_from_slice(&seed.to_le_bytes());
    key[8..12].copy_from_slice(&pool.to_le_bytes());
    key
}

#[cfg(test)]
mod tests {
    use super::*;
    use std::process::Abort;
    use std::test::Fail;

    // The first words, those past the first block, and the first past the first four blocks.
    const PLACES: [u64; 8] = [0, 1, 2, 3, 15, 16, 17, 64];

    #[test]
    fn the_key_of_pool_3_for_seed_7(rt: HostRuntime) {
        let mut wanted = [0; 32];
        wanted[0] = 7;
        wanted[8] = 3;
        assert_eq!(rt; pool_key(7, 3), wanted);
    }

    fn expect_words(rt: &impl Abort, seed: u64, pool: u32, wanted: [u32; 8]) {
        let mut words = Words::seeded(seed, pool);
        for place in 0..65 {
            assert_eq!(rt; words.place(), place);
            let word = words.draw();
            if let Some(k) = PLACES.iter().position(|p| *p == place) {
                assert_eq!(rt;
                    wanted.get(k),
                    Some(&word),
                    "seed {seed} pool {pool} place {place}"
                );
            }
        }
    }

    #[test]
    fn seeded_words(rt: HostRuntime) {
        expect_words(
            &rt,
            0,
            0,
            [
                0x2fef003e, 0xd6405f89, 0xe8b85b7f, 0xa1a5091f, 0x42fe0c0e, 0x0dfaaed2, 0x51c1a5ea,
                0x475ff7e8,
            ],
        );
        expect_words(
            &rt,
            0,
            3,
            [
                0x1b2b4e95, 0x0d035da0, 0xa006b135, 0xe910359a, 0x879f684c, 0x629b9bc1, 0xdc3e71f5,
                0x9e92b720,
            ],
        );
        expect_words(
            &rt,
            7,
            0,
            [
                0x2c44ba73, 0xc39ca672, 0xea9d9d65, 0x7747b002, 0x31a00622, 0x69b9ff4d, 0x9ac73dc1,
                0x49956b26,
            ],
        );
        expect_words(
            &rt,
            7,
            3,
            [
                0x7271c448, 0x39775d8e, 0xcab450cb, 0x258e8ed1, 0x73409ea8, 0xa5a51840, 0x19543d96,
                0x32ecaa13,
            ],
        );
        expect_words(
            &rt,
            u64::MAX,
            0,
            [
                0x227148c7, 0xb44e8639, 0xa091a9bc, 0x3b9a5b01, 0x92f19118, 0xb8226c2f, 0x97ba80b1,
                0xe1b100dc,
            ],
        );
        expect_words(
            &rt,
            u64::MAX,
            3,
            [
                0xe862153f, 0xc0dcce24, 0x0ee54319, 0x297280f9, 0x1c52cb1c, 0x1a30eef3, 0x77a82fcb,
                0x08f843a0,
            ],
        );
    }

    #[test]
    fn listed_words_come_again(rt: HostRuntime) -> Result<(), Fail> {
        let mut words = Words::listed(vec![in rt.alloc(); 5, 0, 4_294_967_295]?)?;
        for (place, word) in [5, 0, 4_294_967_295, 5, 0, 4_294_967_295, 5]
            .iter()
            .enumerate()
        {
            assert_eq!(rt; words.place(), place as u64);
            assert_eq!(rt; words.draw(), *word);
        }
        Ok(())
    }

    #[test]
    fn an_empty_list_has_no_words(rt: HostRuntime) {
        assert!(rt; matches!(Words::listed(Vec::new(rt.alloc())), Err(NoWords)));
    }
}
