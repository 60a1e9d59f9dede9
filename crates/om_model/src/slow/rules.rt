//! What the rules of a pool say: those of a head, with the pool's number.
ghost use Rattle.std.specs.Prelude.{◌≡◌, ◌+◌, ◌^◌, ◌<◌, ◌≤◌, IsTrue, IfOk, IfSome, if◌then◌else◌};
ghost use Rattle.om_geom.specs.Classes.{class_of, data_pages, is_class};
ghost use Rattle.om_words.specs.DrawnWords.{seeded, word_of};
ghost use Rattle.om_words.specs.PlannedWords.{HasWords};
ghost use Rattle.om_model.specs.Pool.Rules.{word_at, words_from, canary_byte};
ghost use Rattle.om_model.specs.Output.Head.{rules_of};

use crate::content::Head;
use om_geom::{class_of, pages_of};
use om_words::{WordPlan, Words};
use std::alloc::{AllocError, Global};

/// Random word `i` of the pool.
pub(super) fn word_at(head: &Head, pool: u32, i: u64) -> u32
    requires words { HasWords head.now.plan }
    requires few { i < 2 ^ 63 }
    ensures { result ≡ word_at (rules_of head.now pool) i }
{
    match &head.plan {
        WordPlan::Listed(list) => list.word(i % list.len()),
        WordPlan::Seeded(seed) => seeded_word(*seed, pool, i),
    }
}

fn seeded_word(seed: u64, pool: u32, i: u64) -> u32
    requires { i < 2 ^ 63 }
    ensures { result ≡ word_of (seeded seed pool) i }
{
    let mut words = Words::seeded(seed, pool);
    for _ in 0..i {
        words.draw();
    }
    words.draw()
}

/// So many random words, from number `i` on.
pub(super) fn words_from(
    alloc: Global,
    head: &Head,
    pool: u32,
    i: u64,
    count: u32,
) -> Result<Vec<u32>, AllocError>
    requires words { HasWords head.now.plan }
    requires few { i + count ≤ 2 ^ 63 }
    ensures { IfOk result (λ words. words.items ≡ words_from (rules_of head.now pool) i count) }
{
    let mut words = Vec::new(alloc);
    for k in 0..count {
        words.push(word_at(head, pool, i + u64::from(k)))?;
    }
    Ok(words)
}

/// The byte that is written behind small blocks where canaries are on.
pub(super) fn canary_byte(head: &Head, pool: u32) -> u8
    requires { HasWords head.now.plan }
    ensures { result ≡ canary_byte (rules_of head.now pool) }
{
    (word_at(head, pool, 0) % 255 + 1) as u8
}

/// The class of a size; none for a block of whole pages.
pub(super) fn size_class(head: &Head, size: u64) -> Option<u32>
    ensures value { result ≡ class_of size head.now.options.canary }
    ensures class { IfSome result (λ class. IsTrue (is_class class)) }
{
    class_of(size, head.opts.canary).map(|class| class.0)
}

/// The pages of a page block and its guard.
pub(super) fn block_pages(head: &Head, size: u64) -> u64
    ensures few { result < 2 ^ 63 }
    ensures value { result ≡ data_pages size + (if head.now.options.guard then 1 else 0) }
{
    pages_of(size) + u64::from(head.opts.guard)
}
