ghost use Rattle.std.specs.Prelude.{◌≡◌, MatchOption, is_some};
ghost use Rattle.om_opts.specs.Letters.{start, with_freecheck, more_cache, strict, lax, effect, has_effect, IsWithin};

/// What an allocator is asked to do beside allocating.
#[derive(Clone, Copy, Debug, PartialEq, Eq)]
pub struct Opts {
    /// Bytes behind a small block are filled, and looked at when it is freed.
    pub canary: bool,
    /// A double free is seen, and freed memory looked at, in every slot and not only in the drawn one.
    pub freecheck: bool,
    /// A page that can't be touched follows each block of pages.
    pub guard: bool,
    /// realloc always moves a block.
    pub always_move: bool,
    /// Free pages that are kept can't be touched.
    pub unmap: bool,
    /// A null is a fault in its place.
    pub xmalloc: bool,
    /// The blocks that were never freed are reported.
    pub dump: bool,
    /// How much is filled with junk: from 0, nothing, to 2, each block when it is allocated and freed.
    pub junk: u8,
    /// How many free pages a pool keeps.
    pub cache: u32,
    /// How many pools there are.
    pub pools: u32,
}

/// The options where no letter is given.
impl Default for Opts {
    ghost is_default = { λ opts. opts ≡ start };

    fn default() -> Opts {
        Opts {
            canary: false,
            freecheck: false,
            guard: false,
            always_move: false,
            unmap: false,
            xmalloc: false,
            dump: false,
            junk: 1,
            cache: 64,
            pools: 8,
        }
    }
}

impl Opts {
    fn with_freecheck(self, on: bool) -> Opts
        ensures { result ≡ with_freecheck on self }
    {
        Opts {
            freecheck: on,
            unmap: on,
            ..self
        }
    }

    // From 0 to 1, then twice as much.
    fn more_cache(self) -> Opts
        requires { IsWithin self }
        ensures { result ≡ more_cache self }
    {
        let cache = if self.cache == 0 {
            1
        } else {
            (2 * self.cache).min(256)
        };
        Opts { cache, ..self }
    }

    fn strict(self) -> Opts
        requires { IsWithin self }
        ensures { result ≡ strict self }
    {
        Opts {
            canary: true,
            freecheck: true,
            unmap: true,
            guard: true,
            junk: (self.junk + 1).min(2),
            cache: 0,
            ..self
        }
    }

    fn lax(self) -> Opts
        ensures { result ≡ lax self }
    {
        Opts {
            canary: false,
            freecheck: false,
            unmap: false,
            guard: false,
            junk: self.junk.saturating_sub(1),
            cache: 64,
            ..self
        }
    }

    // None where the letter has no effect.
    #[tactic(auto, unfolding(crate::specs::Letters::effect, crate::specs::Letters::has_effect))]
    pub(crate) fn after(mut self, letter: u8) -> Option<Opts>
        requires { IsWithin self }
        ensures value { MatchOption result (effect letter self ≡ self)
            (λ next. next ≡ effect letter self) }
        ensures known { is_some result ≡ has_effect letter }
    {
        match letter {
            b'C' => self.canary = true,
            b'c' => self.canary = false,
            b'F' => self = self.with_freecheck(true),
            b'f' => self = self.with_freecheck(false),
            b'G' => self.guard = true,
            b'g' => self.guard = false,
            b'R' => self.always_move = true,
            b'r' => self.always_move = false,
            b'U' => self.unmap = true,
            b'u' => self.unmap = false,
            b'X' => self.xmalloc = true,
            b'x' => self.xmalloc = false,
            b'D' => self.dump = true,
            b'd' => self.dump = false,
            b'J' => self.junk = (self.junk + 1).min(2),
            b'j' => self.junk = self.junk.saturating_sub(1),
            b'>' => self = self.more_cache(),
            b'<' => self.cache /= 2,
            b'+' => self.pools = (2 * self.pools).min(32),
            b'-' => self.pools = (self.pools / 2).max(2),
            b'S' => self = self.strict(),
            b's' => self = self.lax(),
            _ => return None,
        }
        Some(self)
    }
}
