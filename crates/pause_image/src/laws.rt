//! Laws of what is kept of a run, as the contracts of functions that do nothing.
ghost use Rattle.std.specs.Prelude.{◌≡◌, ℕ, ◌+◌, ◌/◌, ◌≤◌, false, List, length, map, is_some, slice_get, Some};
ghost use Rattle.std.specs.List.{AllByRecursion};
ghost use Rattle.machine_image.specs.Images.{CellIsFormed, image_text};
ghost use Rattle.machine_image.specs.Words.{cell_of};
ghost use Rattle.camelot_values.specs.Value.{Value, parts};
ghost use Rattle.camelot_values.specs.Typing.{ArgumentsFit};
ghost use Rattle.grail_code.specs.Code.{Func, Code};
ghost use Rattle.licence.specs.Books.{book_of};
ghost use Rattle.licence.specs.Bound.{units_at};
ghost use Rattle.licence.specs.Licensed.{Licensed, IsLicensed};
ghost use Rattle.cell_machine.specs.State.{Configuration, Running, most_calls};
ghost use Rattle.cell_machine.specs.Loading.{cells_from, begun, steps};
ghost use Rattle.cell_machine.specs.Sound.{IsSound};
ghost use Rattle.cell_machine.specs.Dead.{live, live_machine};
ghost use Rattle.cell_machine.specs.Saved.{Saved, kept, configuration_of, CanGoOn};
ghost use Rattle.cell_machine.specs.Saving.{lender_from, oldest_first};
ghost use Rattle.pause_image.specs.Faults.{IsFaultOf, IsImageOf, IsRight};
ghost use Rattle.pause_image.specs.Judged.{IsJudged};
ghost use Rattle.pause_image.specs.Keeping.{IsKeepable};
ghost use Rattle.pause_image.specs.Pausing.{HasFourWords, image_of};
ghost use Rattle.pause_image.specs.Slicing.{state_lends};
ghost use Rattle.pause_image.specs.declared.fault.ImageFault.{ImageFault};

/// Whether a state lends is whether a machine in it tells a number of its oldest frame that lends.
pub fn law_of_lenders()
    ensures { (p : Code) (s : Configuration) → is_some (lender_from p 0 (oldest_first s)) ≡ state_lends p s }
{}

/// States that can be put aside. A run of licensed code, in a range with the cells of its arguments and of its bound,
/// begins in one and comes to such states alone, however many steps it takes.
pub fn law_of_keeping()
    // A run on fitting arguments begins in one.
    ensures begins { (l : Licensed) → IsLicensed l → (entry : ℕ) (f : Func) (args : List Value) (fuel size : ℕ)
        → slice_get l.code.funcs entry ≡ Some f → ArgumentsFit l.code.types f.params args → 1 ≤ fuel → fuel ≤ 1099511627776
        → length (cells_from l.code.types 0 (parts args)) + units_at l.code (book_of l.cert) entry args / l.cert.unit ≤ size
        → size ≤ 2147483648 → IsKeepable l (begun l.code entry f args fuel size) }
    // Behind so many steps from one there is another, unless the run is over.
    ensures stays { (l : Licensed) (n : ℕ) (s t : Configuration) → IsLicensed l → IsKeepable l s
        → steps l.code most_calls n (Running s) ≡ Running t → IsKeepable l t }
    // What goes on from what was kept of one is one.
    ensures again { (l : Licensed) (s : Configuration) → IsLicensed l → IsKeepable l s
        → IsKeepable l (configuration_of l.code (kept l.code s)) }
{}

/// What is kept of a state goes on as the state: it is the same but for dead words, which no step reads. What is kept
/// of a state that can be put aside can go on, in any range of as many cells, and comes to the same end.
pub fn law_of_kept()
    // What goes on from what is kept of a sound state is this state with 0 in its dead words.
    ensures same { (l : Licensed) (s : Configuration) → IsSound l.code s
        → configuration_of l.code (kept l.code s) ≡ live l.code s }
    // What is kept can go on.
    ensures goes_on { (l : Licensed) (s : Configuration) → IsLicensed l → IsKeepable l s
        → CanGoOn l (kept l.code s) (length s.cells) }
    // After as many steps it is at the same state but for dead words, or at the same end with the same cells.
    ensures agrees { (l : Licensed) (n : ℕ) (s : Configuration) → IsLicensed l → IsKeepable l s
        → live_machine l.code (steps l.code most_calls n (Running (configuration_of l.code (kept l.code s))))
        ≡ live_machine l.code (steps l.code most_calls n (Running s)) }
{}

/// What was judged from its own data alone can go on: each frame stands at its place, its ready words stand for values,
/// no cell is in two of them or in one and the free list, nothing is lent, and the free cells pay for what the frames
/// ask for. It holds whoever wrote the data.
pub fn law_of_judged()
    ensures { (l : Licensed) (s : Saved) (size : ℕ) → IsLicensed l → IsJudged l s size → CanGoOn l s size }
{}

/// What is wrong with a text. It has one fault at most, and none where it is right; and it is the image of one state at
/// most. The range has at most 2147483648 cells, as each range.
pub fn law_of_faults()
    // Two faults of a text are the same one.
    ensures one { (l : Licensed) (text : List ℕ) (size : ℕ) (f g : ImageFault) → IsLicensed l → size ≤ 2147483648
        → IsFaultOf l text size f → IsFaultOf l text size g → f ≡ g }
    // A text with which nothing is wrong has none.
    ensures none { (l : Licensed) (text : List ℕ) (size : ℕ) (s : Saved) (f : ImageFault) → IsLicensed l → size ≤ 2147483648
        → IsRight l text size s → IsFaultOf l text size f → ⊥ }
    // A text is the image of one state at most.
    ensures image { (text : List ℕ) (s t : Saved) → IsImageOf text s → IsImageOf text t → s ≡ t }
{}

/// What a pause writes is never refused: of a state that can be put aside, in which nothing is lent, the text is an
/// image, and nothing is wrong with it, in any range of as many cells.
pub fn law_of_resuming()
    // The text of what is kept is an image.
    ensures image { (l : Licensed) (text : List ℕ) (s : Configuration) → IsLicensed l → IsKeepable l s
        → AllByRecursion HasFourWords s.cells → AllByRecursion CellIsFormed (map cell_of s.cells)
        → text ≡ image_text (image_of (kept l.code s)) → IsImageOf text (kept l.code s) }
    // Nothing is wrong with it.
    ensures right { (l : Licensed) (text : List ℕ) (s : Configuration) → IsLicensed l → IsKeepable l s
        → state_lends l.code s ≡ false → IsImageOf text (kept l.code s) → IsRight l text (length s.cells) (kept l.code s) }
{}
