//! Laws of blocks, as the contracts of functions that do nothing.
ghost use Rattle.std.specs.Prelude.{◌≡◌, ◌↔◌, ℕ, ◌<◌, ◌≤◌, Bool, List, map, slice_get, Some};
ghost use Rattle.camelot_values.specs.Kinds.{DataType};
ghost use Rattle.camelot_values.specs.Outcome.{Stuck};
ghost use Rattle.camelot_values.specs.Runs.{Enter};
ghost use Rattle.grail_blocks.specs.Blocks.{Block};
ghost use Rattle.grail_blocks.specs.Events.{Reads};
ghost use Rattle.grail_blocks.specs.States.{UsesReady, UsesAffinely};
ghost use Rattle.grail_blocks.specs.Running.{Locals, Body, narrow, whole, blocks_run, jumps_from, from_block, jump_to};

/// A jump from one block to a later one is that block, with what it takes of the locals, whatever block the jump comes
/// from; a jump to the same block or an earlier one is stuck. A function runs from its first block on. So what follows
/// from a block on needs no walk through the blocks before it.
#[tactic(auto, using(crate::specs::RunningLaws::runs_from_first))]
pub fn law_of_jumps()
    // A jump to a later block is that block, whatever block it comes from.
    ensures later { (types : List DataType) (enter : Enter) (bodies : List Body) (from to fuel waits : ℕ) (env : Locals) → from < to
        → jumps_from types enter bodies from to fuel waits env ≡ jump_to types enter bodies to fuel waits env }
    // A jump to the same block or an earlier one is stuck.
    ensures back { (types : List DataType) (enter : Enter) (bodies : List Body) (from to fuel waits : ℕ) (env : Locals) → to ≤ from
        → jumps_from types enter bodies from to fuel waits env ≡ Stuck }
    // A function runs from its first block on.
    ensures first { (types : List DataType) (enter : Enter) (bodies : List Body) (fuel waits : ℕ) (env : Locals)
        → blocks_run types enter bodies fuel waits env ≡ from_block types enter bodies 0 fuel waits env }
{}

/// The states of locals say in the order of the places what can be said without them: each use and each look finds its
/// local ready exactly where what is used or looked at was bound before, and what is owned is bound anew between a use
/// and a further use or look, on each way through the block. It holds of all marks that say which arguments are only
/// looked at.
pub fn law_of_states()
    ensures { (reads : Reads) (is_owned : ℕ → Bool) (blocks : List Block) (block : Block)
        → UsesReady reads is_owned blocks block ↔ UsesAffinely reads is_owned blocks block }
{}

/// Handing on less than is looked at changes nothing: where each block's uses are ready, blocks that take just their
/// parameters at a jump mean what they would mean if each jump handed on every local that is bound.
pub fn law_of_narrowing()
    ensures { (reads : Reads) (is_owned : ℕ → Bool) (types : List DataType) (enter : Enter) (blocks : List Block)
        → ((number : ℕ) (block : Block) → slice_get blocks number ≡ Some block → UsesReady reads is_owned blocks block) → (fuel waits : ℕ) (env : Locals)
        → blocks_run types enter (map narrow blocks) fuel waits env ≡ blocks_run types enter (map whole blocks) fuel waits env }
{}
