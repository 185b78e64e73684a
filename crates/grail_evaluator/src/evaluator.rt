ghost use Rattle.std.specs.Prelude.{◌≡◌, ℕ, ◌+◌, ◌*◌, ◌-◌, ◌<◌, ◌≤◌, true, false, IfOk, OnOk, MatchOption, Some, None, length, map, slice_get, vec_len};
ghost use Rattle.std.specs.Option.{option_map};
ghost use Rattle.camelot_values.specs.Outcome.{given};
ghost use Rattle.camelot_values.specs.Runs.{Enter};
ghost use Rattle.grail_code.specs.Code.{code_of, func_of, block_of, let_of, op_of, term_of, arm_of};
ghost use Rattle.grail_code.specs.Meaning.{Later, narrowed, op_run, term_run, case_run, cell_run, body_run, blocks_run, from_block, jumps_from, run_of};
ghost use Rattle.grail_evaluator.specs.Trees.{plain, plain_all};
ghost use Rattle.grail_evaluator.specs.Locals.{env_of};
ghost use Rattle.grail_evaluator.specs.Outcomes.{Tells};
ghost use Rattle.grail_evaluator.specs.declared.outcome.Reached.TheVariants as reached;
ghost use Rattle.grail_evaluator.specs.declared.ends.Ending.TheVariants as ending;
ghost use Rattle.grail_evaluator.specs.declared.ends.BlockEnd.TheVariants as end;
ghost use Rattle.grail_evaluator.specs.Ends.{reached_of, onto, calls_in, bodies_of, ending_run, end_run, most_cells, cells_a_call, Used, Stepped, OnReached, OnEnding, OnEnd};

use super::counts::Counts;
use super::ends::{BlockEnd, Ending};
use super::locals::{Bound, arguments, bind, bind_all, narrow, values};
use super::outcome::{Outcome, Reached, RunError, told};
use super::steps::{a_diamond, arm_for, at_once, build, copied, flag_of, matched_at, operate};
use super::tree::Tree;
use grail_code::{Block, CaseArm, CaseCell, Code, Func, Op, Term};
use std::alloc::{AllocError, Global};

// A run: the code, how many calls may wait, and the fuel of the whole run.
#[derive(Drop)]
struct Evaluator<'a> {
    alloc: Global,
    code: &'a Code,
    limit: u64,
    fuel: u64,
}

impl Evaluator<'_> {
    // A function and those that it calls in tail position, where so many calls wait.
    #[cycle(run)]
    fn calls(
        &self,
        mut counts: Counts,
        waits: u64,
        mut func: u32,
        mut args: Vec<Tree>,
    ) -> Result<Reached, AllocError>
        requires calls { counts.calls ≤ self.now.fuel }
        requires room { counts.peak + counts.low + cells_a_call * self.now.fuel ≤ most_cells + cells_a_call * counts.calls }
        requires waits { waits ≤ self.now.limit }
        ensures means { IfOk result (λ reached. reached_of reached ≡ onto counts
            (calls_in self.now.code.now self.now.limit (self.now.fuel - counts.calls) waits true func
            (plain_all args.items))) }
        ensures used { IfOk result (OnReached (Used self.now.fuel 0 counts)) }
    {
        'calls: loop {
            if counts.calls == self.fuel {
                return Ok(Reached::Fuel(counts));
            }
            let ending = self.body(counts.entered(self.fuel), waits, func, args)?;
            match ending {
                Ending::Over(reached) => return Ok(reached),
                Ending::Tail {
                    counts: used,
                    func: next,
                    args: handed,
                } => {
                    counts = used;
                    func = next;
                    args = handed;
                }
            }
        }
    }

    // The body of the function of this number on these arguments.
    #[cycle(run)]
    fn body(
        &self,
        counts: Counts,
        waits: u64,
        func: u32,
        args: Vec<Tree>,
    ) -> Result<Ending, AllocError>
        requires calls { counts.calls ≤ self.now.fuel }
        requires room { counts.peak + counts.low + cells_a_call + cells_a_call * self.now.fuel ≤ most_cells + cells_a_call * counts.calls }
        requires waits { waits ≤ self.now.limit }
        ensures means { IfOk result (λ ending. ending_run (calls_in self.now.code.now self.now.limit) self.now.fuel waits ending
            ≡ onto counts (body_run self.now.code.now.types (calls_in self.now.code.now self.now.limit)
            (slice_get (map func_of self.now.code.now.funcs.items) func) (self.now.fuel - counts.calls) waits
            (plain_all args.items))) }
        ensures used { IfOk result (OnEnding (Used self.now.fuel cells_a_call counts)) }
    {
        match self.code.funcs.get(func as usize) {
            Some(func) => self.function(counts, waits, func, args),
            None => Ok(Ending::Over(Reached::Stuck)),
        }
    }

    // The body of the function on these arguments.
    #[cycle(run)]
    fn function(
        &self,
        counts: Counts,
        waits: u64,
        func: &Func,
        args: Vec<Tree>,
    ) -> Result<Ending, AllocError>
        requires calls { counts.calls ≤ self.now.fuel }
        requires room { counts.peak + counts.low + cells_a_call + cells_a_call * self.now.fuel ≤ most_cells + cells_a_call * counts.calls }
        requires waits { waits ≤ self.now.limit }
        ensures means { IfOk result (λ ending. ending_run (calls_in self.now.code.now self.now.limit) self.now.fuel waits ending
            ≡ onto counts (body_run self.now.code.now.types (calls_in self.now.code.now self.now.limit)
            (Some (func_of func.now)) (self.now.fuel - counts.calls) waits (plain_all args.items))) }
        ensures used { IfOk result (OnEnding (Used self.now.fuel cells_a_call counts)) }
    {
        if args.len() != func.params.len() {
            return Ok(Ending::Over(Reached::Stuck));
        }
        let env = arguments(self.alloc, args)?;
        self.blocks(counts, waits, &func.blocks, env)
    }

    // The blocks of a function, from the first one on.
    #[cycle(run)]
    fn blocks(
        &self,
        mut counts: Counts,
        waits: u64,
        blocks: &[Block],
        mut env: Vec<Bound>,
    ) -> Result<Ending, AllocError>
        requires some { 1 ≤ length blocks.now }
        requires few { length blocks.now ≤ 256 }
        requires calls { counts.calls ≤ self.now.fuel }
        requires room { counts.peak + counts.low + cells_a_call + cells_a_call * self.now.fuel ≤ most_cells + cells_a_call * counts.calls }
        requires waits { waits ≤ self.now.limit }
        ensures means { IfOk result (λ ending. ending_run (calls_in self.now.code.now self.now.limit) self.now.fuel waits ending
            ≡ onto counts (blocks_run self.now.code.now.types (calls_in self.now.code.now self.now.limit)
            (bodies_of blocks.now) (self.now.fuel - counts.calls) waits (env_of env.items))) }
        ensures used { IfOk result (OnEnding (Used self.now.fuel cells_a_call counts)) }
    {
        let mut number = 0;
        'blocks: loop {
            let end = self.block(counts, waits, blocks, number, env)?;
            match end {
                BlockEnd::Leaves(ending) => return Ok(ending),
                BlockEnd::Jumps {
                    counts: used,
                    target,
                    env: bound,
                } => {
                    let handed = self.handed(blocks, number, target as usize, &bound)?;
                    match handed {
                        Some(next) => {
                            counts = used;
                            number = target as usize;
                            env = next;
                        }
                        None => return Ok(Ending::Over(Reached::Stuck)),
                    }
                }
            }
        }
    }

    // What a jump to this block hands on; a jump goes to a later block.
    fn handed(
        &self,
        blocks: &[Block],
        number: usize,
        target: usize,
        env: &[Bound],
    ) -> Result<Option<Vec<Bound>>, AllocError>
        ensures { IfOk result (λ handed. MatchOption handed (number < target → target < length blocks.now → ⊥)
            (λ next. (number < target) × (target < length blocks.now)
            × (option_map (λ block. narrowed block.params.items (env_of env.now)) (slice_get blocks.now target)
            ≡ Some (env_of next.items)))) }
    {
        if target <= number || target >= blocks.len() {
            return Ok(None);
        }
        let next = narrow(self.alloc, env, &blocks[target].params)?;
        Ok(Some(next))
    }

    // A block: its lets and its end.
    #[cycle(run)]
    fn block(
        &self,
        mut counts: Counts,
        waits: u64,
        blocks: &[Block],
        number: usize,
        mut env: Vec<Bound>,
    ) -> Result<BlockEnd, AllocError>
        requires there { number < length blocks.now }
        requires calls { counts.calls ≤ self.now.fuel }
        requires room { counts.peak + counts.low + 257 + cells_a_call * self.now.fuel ≤ most_cells + cells_a_call * counts.calls }
        requires waits { waits ≤ self.now.limit }
        ensures means { IfOk result (λ end. end_run (calls_in self.now.code.now self.now.limit)
            (jumps_from self.now.code.now.types (calls_in self.now.code.now self.now.limit)
            (bodies_of blocks.now) number) self.now.fuel waits end
            ≡ onto counts (from_block self.now.code.now.types (calls_in self.now.code.now self.now.limit)
            (bodies_of blocks.now) number (self.now.fuel - counts.calls) waits (env_of env.items))) }
        ensures used { IfOk result (OnEnd (Used self.now.fuel 257 counts)) }
    {
        let block = &blocks[number];
        'lets: for binding in &block.lets {
            let reached = self.operation(counts, waits, &env, &binding.op)?;
            match reached {
                Reached::Done {
                    value,
                    counts: used,
                } => {
                    bind(&mut env, binding.target, value)?;
                    counts = used;
                }
                over => return Ok(BlockEnd::Leaves(Ending::Over(over))),
            }
        }
        self.exit(counts, env, &block.term)
    }

    // What a let binds.
    #[cycle(run)]
    fn operation(
        &self,
        counts: Counts,
        waits: u64,
        env: &[Bound],
        op: &Op,
    ) -> Result<Reached, AllocError>
        requires calls { counts.calls ≤ self.now.fuel }
        requires room { counts.peak + counts.low + 1 + cells_a_call * self.now.fuel ≤ most_cells + cells_a_call * counts.calls }
        requires waits { waits ≤ self.now.limit }
        ensures means { IfOk result (λ reached. reached_of reached ≡ onto counts
            (op_run (calls_in self.now.code.now self.now.limit) (self.now.fuel - counts.calls) waits (env_of env.now)
            (op_of op.now))) }
        ensures used { IfOk result (OnReached (Used self.now.fuel 1 counts)) }
    {
        match op {
            Op::Lit(number) => Ok(at_once(counts, Tree::Int(*number))),
            Op::Flag(truth) => Ok(at_once(counts, Tree::Flag(*truth))),
            Op::Copy(local) => copied(self.alloc, counts, env, *local),
            Op::Prim { op, left, right } => Ok(operate(counts, env, *op, *left, *right)),
            Op::Make { con, args, place } => match values(self.alloc, env, args)? {
                Some(args) => Ok(build(counts, env, *con, args, *place)),
                None => Ok(Reached::Stuck),
            },
            Op::Call { func, args } => match values(self.alloc, env, args)? {
                Some(args) => self.call(counts, waits, *func, args),
                None => Ok(Reached::Stuck),
            },
        }
    }

    // A call that isn't in tail position, so that it waits.
    #[cycle(run)]
    fn call(
        &self,
        counts: Counts,
        waits: u64,
        func: u32,
        args: Vec<Tree>,
    ) -> Result<Reached, AllocError>
        requires calls { counts.calls ≤ self.now.fuel }
        requires room { counts.peak + counts.low + cells_a_call * self.now.fuel ≤ most_cells + cells_a_call * counts.calls }
        requires waits { waits ≤ self.now.limit }
        ensures means { IfOk result (λ reached. reached_of reached ≡ onto counts
            (calls_in self.now.code.now self.now.limit (self.now.fuel - counts.calls) waits false func
            (plain_all args.items))) }
        ensures used { IfOk result (OnReached (Used self.now.fuel 0 counts)) }
    {
        if counts.calls == self.fuel {
            return Ok(Reached::Fuel(counts));
        }
        if waits == self.limit {
            return Ok(Reached::Deep(counts));
        }
        self.calls(counts, waits + 1, func, args)
    }

    // The end of a block.
    fn exit(&self, counts: Counts, env: Vec<Bound>, term: &Term) -> Result<BlockEnd, AllocError>
        requires { counts.low ≤ most_cells }
        ensures means { (enter : Enter) (later : Later) (fuel waits : ℕ) → IfOk result (λ end. end_run enter later fuel waits end
            ≡ onto counts (term_run self.now.code.now.types enter later (term_of term.now) (fuel - counts.calls) waits (env_of env.items))) }
        ensures used { IfOk result (OnEnd (Stepped 1 counts)) }
    {
        match term {
            Term::Ret(local) => {
                let reached = copied(self.alloc, counts, &env, *local)?;
                Ok(BlockEnd::Leaves(Ending::Over(reached)))
            }
            Term::Tail { func, args } => match values(self.alloc, &env, args)? {
                Some(args) => Ok(BlockEnd::Leaves(Ending::Tail {
                    counts,
                    func: *func,
                    args,
                })),
                None => Ok(stuck()),
            },
            Term::Goto(target) => Ok(BlockEnd::Jumps {
                counts,
                target: *target,
                env,
            }),
            Term::If { cond, yes, no } => match flag_of(&env, *cond) {
                Some(true) => Ok(BlockEnd::Jumps {
                    counts,
                    target: *yes,
                    env,
                }),
                Some(false) => Ok(BlockEnd::Jumps {
                    counts,
                    target: *no,
                    env,
                }),
                None => Ok(stuck()),
            },
            Term::Case { on, arms } => self.case(counts, env, *on, arms),
        }
    }

    // The arm of the constructor in this local.
    fn case(
        &self,
        counts: Counts,
        mut env: Vec<Bound>,
        on: u32,
        arms: &[CaseArm],
    ) -> Result<BlockEnd, AllocError>
        requires { counts.low ≤ most_cells }
        ensures means { (enter : Enter) (later : Later) (fuel waits : ℕ) → IfOk result (λ end. end_run enter later fuel waits end
            ≡ onto counts (given (env_of env.items on)
            (λ v. case_run self.now.code.now.types later v (map arm_of arms.now) (fuel - counts.calls) waits
            (env_of env.items)))) }
        ensures used { IfOk result (OnEnd (Stepped 1 counts)) }
    {
        let Some(matched) = matched_at(self.alloc, &env, on)? else {
            return Ok(stuck());
        };
        let Some(arm) = arm_for(&self.code.types, arms, matched.con) else {
            return Ok(stuck());
        };
        if !bind_all(self.alloc, &mut env, &arm.fields, &matched.parts)? {
            return Ok(stuck());
        }
        take(counts, env, arm)
    }
}

// The code has no meaning here.
fn stuck() -> BlockEnd
    ensures { result ≡ end.Leaves (ending.Over reached.Stuck) }
{
    BlockEnd::Leaves(Ending::Over(Reached::Stuck))
}

// An arm whose fields are bound: what becomes of the cell, and then its block.
fn take(counts: Counts, mut env: Vec<Bound>, arm: &CaseArm) -> Result<BlockEnd, AllocError>
    requires { counts.low ≤ most_cells }
    ensures means { (enter : Enter) (later : Later) (fuel waits : ℕ) → IfOk result (λ end. end_run enter later fuel waits end
        ≡ onto counts (cell_run arm.now.cell (env_of env.items) (λ last. later arm.now.target (fuel - counts.calls) waits last))) }
    ensures used { IfOk result (OnEnd (Stepped 1 counts)) }
{
    match arm.cell {
        CaseCell::Inline | CaseCell::Look => Ok(BlockEnd::Jumps {
            counts,
            target: arm.target,
            env,
        }),
        CaseCell::Free => Ok(BlockEnd::Jumps {
            counts: counts.given(),
            target: arm.target,
            env,
        }),
        CaseCell::Keep(diamond) => {
            bind(&mut env, diamond, a_diamond())?;
            Ok(BlockEnd::Jumps {
                counts,
                target: arm.target,
                env,
            })
        }
    }
}

/// What the function of this number comes to on these arguments, with so much fuel and where so many calls may wait. It
/// copies values as it goes and is slow. Jumps and calls in tail position are turns of loops; a call that waits is a
/// call here, so that the stack bounds how many of them can wait.
///
/// # Errors
///
/// [`RunError::Large`] just where the outcome has a count of more than 64 bits, and [`RunError::Memory`] where there is
/// no memory.
pub fn run(
    alloc: Global,
    code: &Code,
    limit: u64,
    func: u32,
    fuel: u64,
    args: Vec<Tree>,
) -> Result<Outcome, RunError>
    ensures { Tells result (run_of (code_of code.now) limit func fuel (plain_all args.items)) }
{
    let evaluator = Evaluator {
        alloc,
        code,
        limit,
        fuel,
    };
    let reached = evaluator.calls(Counts::none(), 0, func, args)?;
    told(reached)
}
