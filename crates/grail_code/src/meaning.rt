//! Laws of the meaning of code, as the contracts of functions that do nothing.
ghost use Rattle.std.specs.Prelude.{◌≡◌, ℕ, suc, ◌+◌, ◌≤◌, ◌<◌, Bool, cond, if◌then◌else◌, List, length, map, Some, slice_get};
ghost use Rattle.std.specs.List.{AllByRecursion};
ghost use Rattle.camelot_values.specs.Value.{Value};
ghost use Rattle.camelot_values.specs.Typing.{ArgumentsFit, Fits, IsSafe};
ghost use Rattle.camelot_values.specs.Outcome.{Done, Fuel, Deep, Trap, entered};
ghost use Rattle.camelot_values.specs.Fuel.{StopsOnFuel};
ghost use Rattle.camelot_values.specs.Runs.{Enter, is_too_deep, calls, entering};
ghost use Rattle.camelot_values.specs.declared.kinds.Kind.{Kind};
ghost use Rattle.grail_code.specs.Code.{Let, Block, Func, Code};
ghost use Rattle.grail_code.specs.Soundness.{HaveBlocks};
ghost use Rattle.grail_code.specs.WellFormed.{kind_of, IsWellFormed, FuncFits, LetFits, Gives};
ghost use Rattle.grail_code.specs.Meaning.{Locals, put, op_run, narrow, from_block, bodies, run_of};
ghost use Rattle.grail_code.specs.Places.{CallsSafe, FitAt};

/// A clock beyond the fuel changes nothing of what a call means. So the clock can be forgotten: a call without fuel
/// stops, and one with fuel enters its function with one unit less, where the calls in the body mean what calls mean.
pub fn law_of_clock()
    // A clock that is at least the fuel changes nothing of what a call means.
    ensures clock { (program : Code) (limit clock fuel waits : ℕ) (tail : Bool) (func : ℕ) (args : List Value) → fuel ≤ clock
        → calls (bodies program) limit clock fuel waits tail func args ≡ entering (bodies program) limit fuel waits tail func args }
    // A call without fuel stops on fuel, before it enters its function.
    ensures empty { (program : Code) (limit waits func : ℕ) (tail : Bool) (args : List Value)
        → entering (bodies program) limit 0 waits tail func args ≡ Fuel 0 0 }
    // A call with fuel is too deep where it would wait and the limit is reached, and else enters its function with one
    // unit less.
    ensures unfolds { (program : Code) (limit fuel waits func : ℕ) (tail : Bool) (args : List Value)
        → entering (bodies program) limit (suc fuel) waits tail func args
        ≡ (if is_too_deep limit waits tail then Deep 0
        else entered (bodies program (entering (bodies program) limit) func fuel (cond tail waits (suc waits)) args)) }
{}

/// A run that stops on fuel has entered as many functions as it had fuel, and one that comes to a value at most as
/// many. A run that comes to a value does so with just the fuel of its calls, and with any more; with less it stops on
/// fuel, at no higher a peak. More fuel doesn't help a run that went too deep or trapped.
pub fn law_of_fuel()
    // A run that stops on fuel has entered as many functions as it had fuel.
    ensures used { (program : Code) (limit func fuel calls peak : ℕ) (args : List Value)
        → run_of program limit func fuel args ≡ Fuel calls peak → calls ≡ fuel }
    // A run that comes to a value has entered at most as many functions as it had fuel.
    ensures within { (program : Code) (limit func fuel : ℕ) (args : List Value) (v : Value) (calls peak low : ℕ)
        → run_of program limit func fuel args ≡ Done v calls peak low → calls ≤ fuel }
    // A run that comes to a value does so, with the same counts, with just the fuel of its calls and with any more.
    ensures enough { (program : Code) (limit func fuel other : ℕ) (args : List Value) (v : Value) (calls peak low : ℕ)
        → run_of program limit func fuel args ≡ Done v calls peak low → calls ≤ other → run_of program limit func other args ≡ Done v calls peak low }
    // With less fuel than its calls it stops on fuel, at no higher a peak.
    ensures short { (program : Code) (limit func fuel other : ℕ) (args : List Value) (v : Value) (calls peak low : ℕ)
        → run_of program limit func fuel args ≡ Done v calls peak low → other < calls → StopsOnFuel other peak (run_of program limit func other args) }
    // A run that goes too deep does so with any more fuel.
    ensures deep { (program : Code) (limit func fuel other : ℕ) (args : List Value) (peak : ℕ)
        → run_of program limit func fuel args ≡ Deep peak → fuel ≤ other → run_of program limit func other args ≡ Deep peak }
    // A run that traps does so with any more fuel.
    ensures trap { (program : Code) (limit func fuel other : ℕ) (args : List Value) (peak : ℕ)
        → run_of program limit func fuel args ≡ Trap peak → fuel ≤ other → run_of program limit func other args ≡ Trap peak }
{}

/// Well-formed code on fitting arguments is never stuck, whatever the fuel and the limit of waiting calls. A run comes to
/// a value of the function's result kind, or stops on fuel, on depth, or where it divides by 0. So every local that is
/// read has a value of its kind, each jump has a block, and each value that is taken apart an arm.
pub fn law_of_soundness()
    // A run on fitting arguments comes to a value of the function's result kind, or stops on fuel, on depth,
    // or where it divides by 0.
    ensures run { (program : Code) (limit func fuel : ℕ) (args : List Value) (f : Func) → IsWellFormed program → HaveBlocks program
        → slice_get program.funcs func ≡ Some f → ArgumentsFit program.types f.params args
        → IsSafe program.types f.result (run_of program limit func fuel args) }
    // So does each call that the run makes.
    ensures calls { (program : Code) (limit : ℕ) → IsWellFormed program → HaveBlocks program → CallsSafe program (entering (bodies program) limit) }
{}

/// The same at every place of a function. Where every ready local has a value of its kind, a let comes to a value of
/// the kind that its local has, if it comes to one; behind the let every ready local has a value of its kind again; and
/// from a block on the run comes to a value of the function's result kind, or stops.
pub fn law_of_places()
    // Where ready locals have values of their kinds, a let isn't stuck, and a value that it comes to is of its local's
    // kind.
    ensures step { (program : Code) (f : Func) (enter : Enter) (number n : ℕ) (b : Block) (l : Let) (kind : Kind) (env : Locals) (fuel waits : ℕ)
        → CallsSafe program enter → FuncFits program f → slice_get f.blocks number ≡ Some b → slice_get b.lets n ≡ Some l → kind_of f l.target ≡ Some kind
        → FitAt program f b n env → IsSafe program.types kind (op_run enter fuel waits env l.op) }
    // Behind the let each ready local has a value of its kind again.
    ensures behind { (program : Code) (f : Func) (b : Block) (n : ℕ) (l : Let) (v : Value) (kind : Kind) (env : Locals)
        → slice_get b.lets n ≡ Some l → kind_of f l.target ≡ Some kind → FitAt program f b n env
        → Fits program.types kind v → FitAt program f b (n + 1) (put env l.target v) }
    // From a block on the run comes to a value of the function's result kind, or stops.
    ensures from { (program : Code) (f : Func) (enter : Enter) (number : ℕ) (b : Block) (fuel waits : ℕ) (env : Locals)
        → CallsSafe program enter → FuncFits program f → slice_get f.blocks number ≡ Some b → FitAt program f b 0 env
        → IsSafe program.types f.result (from_block program.types enter (map narrow f.blocks) number fuel waits env) }
{}
