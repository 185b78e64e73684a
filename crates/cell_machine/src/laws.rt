//! Laws of the machine, as the contracts of functions that do nothing.
ghost use Rattle.std.specs.Prelude.{◌≡◌, ℕ, ◌+◌, ◌-◌, ◌*◌, ◌/◌, ◌≤◌, List, length, replicate, slice_get, Some};
ghost use Rattle.cell_span.specs.declared.cell.Cell.{Cell};
ghost use Rattle.camelot_values.specs.Value.{Value, parts};
ghost use Rattle.camelot_values.specs.Items.{items_of};
ghost use Rattle.camelot_values.specs.Counts.{cells_among};
ghost use Rattle.camelot_values.specs.Kinds.{DataType, AreTypes};
ghost use Rattle.camelot_values.specs.Outcome.{Outcome, peak_of};
ghost use Rattle.camelot_values.specs.Typing.{Fits, ArgumentsFit};
ghost use Rattle.camelot_values.specs.declared.kinds.Kind.{Kind};
ghost use Rattle.grail_blocks.specs.States as states;
ghost use Rattle.grail_code.specs.Code.{Func, Code};
ghost use Rattle.grail_code.specs.Limits.{IsWithinLimits};
ghost use Rattle.grail_code.specs.Meaning.{run_of};
ghost use Rattle.grail_code.specs.WellFormed.{IsWellFormed};
ghost use Rattle.cell_machine.specs.Cells.{inline_base};
ghost use Rattle.cell_machine.specs.Annotated.{IsAnnotated};
ghost use Rattle.cell_machine.specs.Bounds.{bounds, put_back};
ghost use Rattle.cell_machine.specs.Coming.{ahead, coming, IsWithinRoom, IsOnCourse, IsOnWay, KeepsCourse, EndsAsMeant};
ghost use Rattle.cell_machine.specs.Counted.{IsFit, StaysFit, MachineFits};
ghost use Rattle.cell_machine.specs.Dead.{live, live_machine, live_next, live_words};
ghost use Rattle.cell_machine.specs.Demands.{IsBalanced};
ghost use Rattle.cell_machine.specs.Loading.{cells_from, begun, steps};
ghost use Rattle.licence.specs.Books.{Book, book_of};
ghost use Rattle.licence.specs.Bound.{units_at};
ghost use Rattle.licence.specs.Licensed.{Licensed, IsLicensed};
ghost use Rattle.cell_machine.specs.Plans.{IsPlan, RunsAsPlanned};
ghost use Rattle.cell_machine.specs.Wide.{wide, Widens};
ghost use Rattle.cell_machine.specs.Owners.{TwoTake, OneTakesTwice, FreeIsTaken, LoanIsTaken};
ghost use Rattle.cell_machine.specs.Sound.{IsSound};
ghost use Rattle.cell_machine.specs.Stands.{Stands, footprint, RepeatsNone};
ghost use Rattle.cell_machine.specs.Slices.{in_slices, whole};
ghost use Rattle.cell_machine.specs.State.{Configuration, Machine, Running};
ghost use Rattle.cell_machine.specs.Steps.{step};

/// One step of well-formed code. A sound state on its way to an outcome, of which what lies ahead takes no more cells
/// at a time than are free, has a step: behind it stands another such state, on its way to the same outcome with fewer
/// steps to come, or the end that the outcome says. The free cells and the net number of cells taken stay the same
/// together: they are the room. Where the outcome's peak is within the room, so is the state's; and the net number of
/// cells is no further below 0 than there are cells beyond the room. A run on fitting arguments begins so, on its way
/// to what the code means, where there is room for its peak.
pub fn law_of_steps()
    // A sound state on its way to an outcome that the free cells pay for has a step: to another such state, or to the
    // end.
    ensures step { (program : Code) (limit room : ℕ) (outcome : Outcome Value) (s : Configuration) → IsWellFormed program → IsWithinLimits program
        → IsOnCourse program limit room outcome s → KeepsCourse program limit room outcome s (step program limit s) }
    // In such a state the peak so far is within the room, and no more cells are free than there are.
    ensures counters { (program : Code) (limit room : ℕ) (outcome : Outcome Value) (s : Configuration)
        → IsWithinRoom room outcome → IsOnCourse program limit room outcome s
        → (s.peak ≤ room) × (room + s.low ≤ length s.cells + s.peak) }
    // The state in which a run of fitting arguments begins is one.
    ensures begun { (program : Code) (limit entry : ℕ) (f : Func) (args : List Value) (fuel lease : ℕ) → IsWellFormed program → IsWithinLimits program
        → slice_get program.funcs entry ≡ Some f → ArgumentsFit program.types f.params args
        → length (cells_from program.types 0 (parts args)) ≤ lease → lease ≤ 2147483648 → 1 ≤ fuel
        → IsWithinRoom (lease - length (cells_from program.types 0 (parts args))) (run_of program limit entry fuel args)
        → IsOnCourse program limit (lease - length (cells_from program.types 0 (parts args)))
        (run_of program limit entry fuel args) (begun program entry f args fuel lease) }
{}

/// In-place reuse. A run of well-formed code on fitting arguments, in a range with a cell for each boxed node and
/// diamond of the arguments and so many more as the meaning's peak, never finds its free list empty: within 65,792
/// steps for each unit of fuel it is over, and it ends as the code means, with the value that the code means in its
/// cells. Each state on the way is sound, with as many free cells as the room without the net number of cells taken.
pub fn law_of_reuse()
    // Where the lease has room for the arguments and the peak, a run ends as the code means, with the value in its
    // cells.
    ensures ends { (program : Code) (limit entry : ℕ) (f : Func) (args : List Value) (fuel lease : ℕ) → IsWellFormed program → IsWithinLimits program
        → slice_get program.funcs entry ≡ Some f → ArgumentsFit program.types f.params args → 1 ≤ fuel
        → length (cells_from program.types 0 (parts args)) + peak_of (run_of program limit entry fuel args) ≤ lease → lease ≤ 2147483648
        → EndsAsMeant program limit entry f args fuel lease }
    // Each state on the way is sound, and its free cells pay for what lies ahead; or the run is over, with the end that
    // the code means.
    ensures each { (program : Code) (limit entry : ℕ) (f : Func) (args : List Value) (fuel lease : ℕ) → IsWellFormed program → IsWithinLimits program
        → slice_get program.funcs entry ≡ Some f → ArgumentsFit program.types f.params args → 1 ≤ fuel
        → length (cells_from program.types 0 (parts args)) + peak_of (run_of program limit entry fuel args) ≤ lease → lease ≤ 2147483648 → (count : ℕ)
        → IsOnWay program limit (lease - length (cells_from program.types 0 (parts args)))
        (run_of program limit entry fuel args)
        (steps program limit count (Running (begun program entry f args fuel lease))) }
{}

/// A step reads and writes only cells that are there. Where a state has a step, the state with more cells behind has
/// just that step, and these cells stay as they are. So one step serves a machine in its own range and one in the
/// middle of an arena.
pub fn law_of_longer_lists()
    ensures { (program : Code) (limit : ℕ) (more : List Cell) (s : Configuration) → Widens more (step program limit s) (step program limit (wide more s)) }
{}

/// Dead words, those of locals that aren't ready, are read by no step: the step of a sound configuration in which they
/// are 0 is its step, with the dead words behind it set to 0. So a configuration may be kept by its live words alone.
pub fn law_of_dead_words()
    ensures { (program : Code) (limit : ℕ) (s : Configuration) → IsWellFormed program → IsWithinLimits program → IsSound program s
        → live_next program (step program limit (live program s)) ≡ live_next program (step program limit s) }
{}

/// Plans of licensed code, as plain data: an entry, fitting arguments, fuel, and just as many cells as the licence
/// says. The run ends as the code means. Each state in which it goes on has a step, so that none finds its free list
/// empty, and each has just that number of cells.
pub fn law_of_plans()
    ensures { (l : Licensed) (entry : ℕ) (f : Func) (args : List Value) (fuel cells : ℕ) → IsLicensed l → IsPlan l entry args fuel cells
        → cells ≤ 2147483648 → slice_get l.code.funcs entry ≡ Some f → RunsAsPlanned l entry f args fuel cells }
{}

/// Words in cells. Kind, word and cells determine a value. A value that takes no cell twice takes at most as many as
/// there are, and has at most four nodes for each of them, and one. Arguments take as many cells as are counted in
/// them.
pub fn law_of_words()
    // Two values of one kind that one word stands for in the same cells are the same.
    ensures one_value { (types : List DataType) (cells : List Cell) (kind : Kind) (v other : Value) (word : ℕ) → length cells ≤ inline_base → AreTypes types
        → Fits types kind v → Fits types kind other → Stands types cells v word → Stands types cells other word → v ≡ other }
    // A value that takes no cell twice takes at most as many as there are.
    ensures few_cells { (types : List DataType) (cells : List Cell) (v : Value) (word : ℕ)
        → Stands types cells v word → RepeatsNone (footprint types cells v word)
        → length (footprint types cells v word) ≤ length cells }
    // It has at most four nodes for each cell, and one.
    ensures few_nodes { (types : List DataType) (cells : List Cell) (kind : Kind) (v : Value) (word : ℕ)
        → AreTypes types → Fits types kind v → Stands types cells v word
        → RepeatsNone (footprint types cells v word) → length (items_of v) ≤ 4 * length cells + 1 }
    // Arguments take as many cells as are counted in them.
    ensures argument_cells { (types : List DataType) (kinds : List Kind) (args : List Value) → AreTypes types → ArgumentsFit types kinds args
        → length (cells_from types 0 (parts args)) ≡ cells_among types args }
{}

/// Each owned cell has one owner. A state is not sound where two ready locals own the same cell, or where the value of
/// one, owned or lent, takes a cell twice or takes a cell of the free list. Nor is it where a value that is lent to a
/// frame shares a cell with what this frame or a younger one owns.
pub fn law_of_owners()
    // No sound state has two ready locals that own one cell.
    ensures two { (program : Code) (s : Configuration) → AreTypes program.types → TwoTake program s → ¬ (IsSound program s) }
    // In none does the value of a local take a cell twice.
    ensures twice { (program : Code) (s : Configuration) → AreTypes program.types → OneTakesTwice program s → ¬ (IsSound program s) }
    // In none does it take a cell of the free list.
    ensures free { (program : Code) (s : Configuration) → AreTypes program.types → FreeIsTaken program s → ¬ (IsSound program s) }
    // In none does a lent value share a cell with an owned one of its own frame or of a younger one.
    ensures loans { (program : Code) (s : Configuration) → AreTypes program.types → LoanIsTaken program s → ¬ (IsSound program s) }
{}

/// Balance. What the frames of a sound state ask for, in the units of annotated code, is what the free list pays for.
/// So a state that is kept as a text can be judged without its past: one that is sound and balanced, with its counters
/// in order, goes on to an end that the code means. (Potential soundness of Hofmann and Jost 2003, from any state on.)
pub fn law_of_balance()
    // What a licence keeps is annotated code of which each rule holds.
    ensures licensed { (l : Licensed) → IsLicensed l → IsAnnotated l.code (book_of l.cert) }
    // In a sound and balanced state, what lies ahead takes no more cells at a time than are free.
    ensures within { (p : Code) (book : Book ℕ) → IsAnnotated p book → (limit : ℕ) (s : Configuration) (r : IsSound p s) → IsBalanced p book s r
        → IsWithinRoom (length r.free) (ahead p limit s r) }
    // Such a state is on course to what it comes to, where its counters are in order and few enough calls wait.
    ensures course { (p : Code) (book : Book ℕ) → IsAnnotated p book → (limit : ℕ) (s : Configuration) (r : IsSound p s) → IsBalanced p book s r
        → s.low ≤ length r.free + s.peak → length s.waiting ≤ limit
        → IsOnCourse p limit (length r.free + s.peak - s.low) (coming p limit s r) s }
{}

/// A step from a fit state, which is sound and balanced with its counters in order, exists. It leaves a fit state, or
/// the run is over. The number of cells stays, as do the sums of net and free cells and of calls and fuel.
pub fn law_of_balanced_steps()
    ensures { (p : Code) (book : Book ℕ) → IsAnnotated p book → IsWithinLimits p → (limit : ℕ) (s : Configuration) (fit : IsFit p book limit s)
        → StaysFit p book limit (length fit.sound.free + s.peak - s.low) s (step p limit s) }
{}

/// A run on fitting arguments begins in a fit state, where its range has the cells of the arguments and of the bound.
pub fn law_of_beginnings()
    ensures { (p : Code) (book : Book ℕ) → IsAnnotated p book → IsWithinLimits p → (limit entry : ℕ) (f : Func) (args : List Value) (fuel lease : ℕ)
        → slice_get p.funcs entry ≡ Some f → ArgumentsFit p.types f.params args → 1 ≤ fuel
        → length (cells_from p.types 0 (parts args)) + units_at p book entry args / book.unit ≤ lease → lease ≤ 2147483648
        → IsFit p book limit (begun p entry f args fuel lease) }
{}

/// Pauses. A state kept by its live words is fit where it was, and goes on as it would have: a configuration knows no
/// place in an arena, so that it may go on in any range of as many cells.
pub fn law_of_pauses()
    // A fit state without its dead words is fit.
    ensures kept { (p : Code) (book : Book ℕ) → IsAnnotated p book → (limit : ℕ) (s : Configuration) → IsFit p book limit s → IsFit p book limit (live p s) }
    // After as many steps it is the same state but for dead words, or the same end with the same cells.
    ensures goes_on { (p : Code) (book : Book ℕ) → IsAnnotated p book → IsWithinLimits p → (limit n : ℕ) (s : Configuration) → IsFit p book limit s
        → live_machine p (steps p limit n (Running (live p s))) ≡ live_machine p (steps p limit n (Running s)) }
    // The ready locals of a frame, put back into as many zeros, give its live words.
    ensures put_back { (s : states.State) (ws : List ℕ) → put_back (replicate (length ws) 0) (bounds s 0 ws) ≡ live_words s 0 ws }
    // However a run is cut into slices, it comes to the state to which it comes uncut, or to the same end.
    ensures slices { (p : Code) (book : Book ℕ) → IsAnnotated p book → IsWithinLimits p → (limit : ℕ) (slices : List ℕ) (m : Machine) → MachineFits p book limit m
        → live_machine p (in_slices p limit slices m) ≡ live_machine p (steps p limit (whole slices) m) }
{}
