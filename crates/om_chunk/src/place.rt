ghost use Rattle.std.specs.Prelude.{◌≡◌};
ghost use Rattle.om_chunk.specs.Places.{is_free, state_of};

/// What an address of a chunk page shows.
#[derive(Clone, Copy, Debug, PartialEq, Eq)]
pub enum PlaceState {
    /// A live block of `size` bytes begins there; it was asked for at `site`.
    Live { size: u64, site: u64 },
    /// A delayed place begins there: its block was freed, and the place isn't used again yet.
    Delayed,
    /// A free place begins there.
    Free,
    /// No place begins there.
    Unaligned,
}

/// What a place has.
#[derive(Clone, Copy, Debug, PartialEq, Eq)]
pub(crate) enum Place {
    Live { size: u64, site: u64 },
    Delayed,
    Free,
}

impl Place {
    pub(crate) fn is_free(self) -> bool
        ensures { result ≡ is_free self }
    {
        matches!(self, Place::Free)
    }
}

/// What an address shows at which this place begins, or none.
pub(crate) fn state_of(place: Option<Place>) -> PlaceState
    ensures { result ≡ state_of place }
{
    match place {
        Some(Place::Live { size, site }) => PlaceState::Live { size, site },
        Some(Place::Delayed) => PlaceState::Delayed,
        Some(Place::Free) => PlaceState::Free,
        None => PlaceState::Unaligned,
    }
}
