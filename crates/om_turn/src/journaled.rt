//! What a value behind a turn lock tells of itself, for proofs alone.
ghost use Rattle.std.specs.Prelude.{ℕ, Bool, List};

/// A value with a history. The history isn't in memory: the value says which lists of entries it stands for.
pub trait Journaled {
    /// What one turn adds. It is plain data, of which a value need never be made.
    type Entry;

    /// What stays of the value while it is behind a lock. Plain data too.
    type Name;

    // Whether the value stands for these entries, in this order. It may stand for several lists.
    ghost stands_for: { Self → List Self.Entry → Type 0 };

    ghost name: { Self → Self.Name };

    // Whether any pass may add the entry. Any other is added by the chief pass alone.
    ghost common: { Self.Entry → Bool };

    // The marks of the entry. A pass may add it only if it has each of them.
    ghost marks: { Self.Entry → List ℕ };
}
