//! Laws of the meaning of programs, as the contracts of functions that do nothing. They are those of the meaning of
//! code, from the same theorem on calls.
ghost use Rattle.std.specs.Prelude.{◌≡◌, ℕ, suc, ◌≤◌, ◌<◌, Bool, cond, if◌then◌else◌, List};
ghost use Rattle.camelot_values.specs.Value.{Value};
ghost use Rattle.camelot_values.specs.Outcome.{Done, Fuel, Deep, Trap, entered};
ghost use Rattle.camelot_values.specs.Fuel.{StopsOnFuel};
ghost use Rattle.camelot_values.specs.Runs.{is_too_deep, calls, entering};
ghost use Rattle.camelot_tree.specs.Tree.{Source};
ghost use Rattle.camelot_tree.specs.Meaning.{bodies, run_of};

/// A clock beyond the fuel changes nothing of what a call means. So the clock can be forgotten: a call without fuel
/// stops, and one with fuel enters its function with one unit less, where the calls in the body mean what calls mean.
pub fn law_of_clock()
    // A clock that is at least the fuel changes nothing of what a call means.
    ensures clock { (p : Source) (limit clock fuel waits : ℕ) (tail : Bool) (func : ℕ) (args : List Value) → fuel ≤ clock
        → calls (bodies p) limit clock fuel waits tail func args ≡ entering (bodies p) limit fuel waits tail func args }
    // A call without fuel stops on fuel, before it enters its function.
    ensures empty { (p : Source) (limit waits func : ℕ) (tail : Bool) (args : List Value) → entering (bodies p) limit 0 waits tail func args ≡ Fuel 0 0 }
    // A call with fuel is too deep where it would wait and the limit is reached, and else enters its function with one
    // unit less.
    ensures unfolds { (p : Source) (limit fuel waits func : ℕ) (tail : Bool) (args : List Value) → entering (bodies p) limit (suc fuel) waits tail func args
        ≡ (if is_too_deep limit waits tail then Deep 0
        else entered (bodies p (entering (bodies p) limit) func fuel (cond tail waits (suc waits)) args)) }
{}

/// A run that stops on fuel has entered as many functions as it had fuel, and one that comes to a value at most as
/// many. A run that comes to a value does so with just the fuel of its calls, and with any more; with less it stops on
/// fuel, at no higher a peak. More fuel doesn't help a run that went too deep or trapped.
pub fn law_of_fuel()
    // A run that stops on fuel has entered as many functions as it had fuel.
    ensures used { (p : Source) (limit func fuel calls peak : ℕ) (args : List Value) → run_of p limit func fuel args ≡ Fuel calls peak → calls ≡ fuel }
    // A run that comes to a value has entered at most as many functions as it had fuel.
    ensures within { (p : Source) (limit func fuel : ℕ) (args : List Value) (v : Value) (calls peak low : ℕ)
        → run_of p limit func fuel args ≡ Done v calls peak low → calls ≤ fuel }
    // A run that comes to a value does so, with the same counts, with just the fuel of its calls and with any more.
    ensures enough { (p : Source) (limit func fuel other : ℕ) (args : List Value) (v : Value) (calls peak low : ℕ)
        → run_of p limit func fuel args ≡ Done v calls peak low → calls ≤ other → run_of p limit func other args ≡ Done v calls peak low }
    // With less fuel than its calls it stops on fuel, at no higher a peak.
    ensures short { (p : Source) (limit func fuel other : ℕ) (args : List Value) (v : Value) (calls peak low : ℕ)
        → run_of p limit func fuel args ≡ Done v calls peak low → other < calls → StopsOnFuel other peak (run_of p limit func other args) }
    // A run that goes too deep does so with any more fuel.
    ensures deep { (p : Source) (limit func fuel other : ℕ) (args : List Value) (peak : ℕ)
        → run_of p limit func fuel args ≡ Deep peak → fuel ≤ other → run_of p limit func other args ≡ Deep peak }
    // A run that traps does so with any more fuel.
    ensures trap { (p : Source) (limit func fuel other : ℕ) (args : List Value) (peak : ℕ)
        → run_of p limit func fuel args ≡ Trap peak → fuel ≤ other → run_of p limit func other args ≡ Trap peak }
{}
