ghost use Rattle.std.specs.Prelude.{◌≡◌};
ghost use Rattle.lp_size.specs.Counting.{taken_behind_call, need_rows, back_rows};

/// What the lets of a block took so far of what was there at its beginning, and gave back. In a block after the first
/// it's always `More`.
#[derive(Clone, Copy, Debug, PartialEq, Eq)]
pub(crate) enum Taken {
    /// Nothing yet: just the function's need is left.
    Nothing,
    /// One call of the function itself, and nothing else: just what it gives back is left.
    OwnCall,
    /// Anything else.
    More,
}

/// Behind a call of a function.
pub(crate) fn taken_behind_call(func: u32, taken: Taken, callee: u32) -> Taken
    ensures { result ≡ taken_behind_call func taken callee }
{
    match taken {
        Taken::Nothing => {
            if callee == func {
                Taken::OwnCall
            } else {
                Taken::More
            }
        }
        Taken::OwnCall | Taken::More => Taken::More,
    }
}

/// What is left, against the need of a callee: both are the same where nothing was taken and the function calls itself.
pub(crate) fn need_rows(func: u32, taken: Taken, callee: u32) -> u64
    ensures { result ≡ need_rows func taken callee }
{
    match taken {
        Taken::Nothing => { if callee == func { 0 } else { 1 } }
        Taken::OwnCall | Taken::More => 1,
    }
}

/// What is left, against what the function is to give back.
pub(crate) fn back_rows(taken: Taken) -> u64
    ensures { result ≡ back_rows taken }
{
    match taken {
        Taken::OwnCall => 0,
        Taken::Nothing | Taken::More => 1,
    }
}
