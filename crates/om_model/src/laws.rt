ghost use Rattle.std.specs.Prelude.{ℕ, ◌≡◌, true, List, ◌++◌};
ghost use Rattle.om_model.specs.Pool.Rules.{Rules};
ghost use Rattle.om_model.specs.Pool.State.{State};
ghost use Rattle.om_model.specs.Pool.Steps.{Answers};
ghost use Rattle.om_model.specs.Pool.Malloc.{malloc_wish, malloc};
ghost use Rattle.om_model.specs.Pool.Calloc.{calloc_wish, calloc};
ghost use Rattle.om_model.specs.Pool.Free.{free};
ghost use Rattle.om_model.specs.Pool.Realloc.{realloc_wish, realloc, reallocarray_wish, reallocarray};
ghost use Rattle.om_model.specs.Pool.Access.{store};
ghost use Rattle.om_model.specs.Pool.Journal.{MayAnswer, IsLawful, state_of};
ghost use Rattle.om_model.specs.Pool.SecondFree.{AreFreedOnce};
ghost use Rattle.om_model.specs.Pool.WellFormed.{IsWellFormed};

use crate::entry::Entry;

/// A law of the definitions alone: at any place of a lawful journal what is in use shares no byte and lies
/// on held pages, and no page is touched by places of two classes, or by a place and a page block.
pub fn blocks_are_apart()
    ensures { (rules : Rules) (before rest : List Entry) → IsLawful rules (before ++ rest)
        → IsWellFormed rules (state_of rules before) }
{}

/// A law of the definitions alone: each step keeps states well formed, for blocks of every size. A load keeps the
/// state as it is.
pub fn steps_keep_well_formed()
    ensures malloc { (rules : Rules) (state : State) (size site : ℕ) (answers : Answers)
        → MayAnswer rules state (malloc_wish rules state size) answers
        → IsWellFormed rules state
        → IsWellFormed rules ((malloc rules state size site answers.claim).next) }
    ensures calloc { (rules : Rules) (state : State) (count size site : ℕ) (answers : Answers)
        → MayAnswer rules state (calloc_wish rules state count size) answers
        → IsWellFormed rules state
        → IsWellFormed rules ((calloc rules state count size site answers.claim).next) }
    ensures realloc { (rules : Rules) (state : State) (address size site : ℕ) (answers : Answers)
        → MayAnswer rules state (realloc_wish rules state address size) answers
        → IsWellFormed rules state
        → IsWellFormed rules ((realloc rules state address size site answers).next) }
    ensures reallocarray { (rules : Rules) (state : State) (address count size site : ℕ)
        (answers : Answers)
        → MayAnswer rules state (reallocarray_wish rules state address count size) answers
        → IsWellFormed rules state
        → IsWellFormed rules ((reallocarray rules state address count size site answers).next) }
    ensures free { (rules : Rules) (state : State) (address : ℕ) → IsWellFormed rules state
        → IsWellFormed rules ((free rules state address).next) }
    ensures store { (rules : Rules) (state : State) (address byte : ℕ)
        → IsWellFormed rules state
        → IsWellFormed rules ((store rules state address byte).next) }
{}

/// A law of the definitions alone: in the journal of a pool under freecheck, where an address was freed twice
/// and both frees were done, a block was given there between them. So no block is freed by two calls of free.
pub fn blocks_are_freed_once()
    ensures { (rules : Rules) (entries : List Entry) → rules.options.freecheck ≡ true
        → IsLawful rules entries → AreFreedOnce entries }
{}
