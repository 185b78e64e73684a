ghost use Rattle.std.specs.Prelude.{◌≡◌, ℕ, ◌<◌, ⊤, Some, None, [], length, map, OnOk, MatchResult};
ghost use Rattle.stops.specs.Stopping.{FaultIs};
ghost use Rattle.text_lines.specs.Cuts.{words};
ghost use Rattle.text_lines.specs.Lines.{IsOneLine};
ghost use Rattle.text_lines.specs.Formats.{IsRight, IsText, IsFault};
ghost use Rattle.text_lines.specs.Machines.{IsNext, IsRefused};
ghost use Rattle.text_lines.specs.Answers.{KindIs};
ghost use Rattle.machine_image.specs.Images.{Image, image_format};
ghost use Rattle.machine_image.specs.Reading.{LFrame, LLocal, LCell, LEnd, frame_by_three, is_above, image_machine, step};
ghost use Rattle.machine_image.specs.ImageLaws.{image_shows};
ghost use Rattle.machine_image.specs.Words.{bound_of, frame_of, cell_of, image_of};
ghost use Rattle.machine_image.specs.Parts.{line_as, counts_as, kind_of, kinds, front_of, line_taken, StepIs, IsReady};
ghost use Rattle.machine_image.specs.declared.reading.Stage.TheVariants as stage;

use super::counts::{Counts, counts_of};
use super::lines::{Line, line_of};
use super::state::{Bound, Frame, State};
use cell_span::Cell;
use std::alloc::Global;
use std::mem;
use stops::Stop;
use text_lines::{Halt, LineReader, Refused, read_lines};
use thiserror::Error;

/// A text is no image's. This line, counted from 1, is the first that is wrong; or the text ends in it, or before it
/// where it is needed.
#[derive(Clone, Copy, Debug, PartialEq, Eq, Error)]
#[error("wrong at line {line}")]
pub struct NoImage {
    /// The number of the line.
    pub line: u64,
}

// The one kind of wrong lines.
#[derive(Clone, Copy)]
pub(crate) struct NoForm;

// Which line was the last.
#[derive(Clone, Copy)]
pub(crate) enum Stage {
    // none
    Start,
    // the first
    Named,
    // the one of the six numbers
    Counted,
    // one of a frame or of a cell
    Framed,
    // the end
    Done,
}

// What was read of an image.
#[derive(Drop)]
pub(crate) struct ImageReader {
    pub(crate) alloc: Global,
    pub(crate) stage: Stage,
    pub(crate) counts: Counts,
    // all frames but the last one, to which locals may come
    pub(crate) frames: Vec<Frame>,
    pub(crate) last: Frame,
    pub(crate) cells: Vec<Cell>,
}

// Whether a local may stand behind these.
#[tactic(auto, using(crate::proofs::Matching::above_last))]
fn is_above(live: &[Bound], local: u32) -> bool
    ensures { result ≡ is_above (map bound_of live.now) local }
{
    match live {
        [] => true,
        [.., last] => last.local < local,
    }
}

// A frame without live locals.
fn new_frame(alloc: Global, func: u32, block: u32, place: u32) -> Frame
    ensures { frame_of result ≡ frame_by_three func block place }
{
    Frame {
        func,
        block,
        place,
        live: Vec::new(alloc),
    }
}

impl ImageReader {
    // At the start of a text.
    fn new(alloc: Global) -> ImageReader
        ensures start { result.stage ≡ stage.Start }
        ensures ready { IsReady result [] }
    {
        ImageReader {
            alloc,
            stage: Stage::Start,
            counts: Counts {
                calls: 0,
                net: 0,
                peak: 0,
                fuel: 0,
                free: 0,
                cells: 0,
            },
            frames: Vec::new(alloc),
            last: new_frame(alloc, 0, 0, 0),
            cells: Vec::new(alloc),
        }
    }

    // The first line.
    fn read_first(&mut self, line: &[u8]) -> Result<(), Refused<NoForm>>
        requires stage { self.old.stage ≡ stage.Start }
        requires ready { IsReady self.old [] }
        ensures step { StepIs (step (front_of self.old) (words line.now)) (front_of self.new) result }
        ensures ready { OnOk result (IsReady self.new []) }
    {
        if line != b"grail image 1".as_slice() {
            return Err(Refused::Kind(NoForm));
        }
        self.stage = Stage::Named;
        Ok(())
    }

    // The line of the six numbers.
    #[tactic(auto, using(crate::proofs::Stepping::other_counts, crate::proofs::Stepping::some_counts))]
    fn read_counts(&mut self, line: &[u8]) -> Result<(), Refused<NoForm>>
        requires stage { self.old.stage ≡ stage.Named }
        requires ready { IsReady self.old [] }
        ensures step { StepIs (step (front_of self.old) (words line.now)) (front_of self.new) result }
        ensures ready { OnOk result (IsReady self.new []) }
    {
        match counts_of(line) {
            Some(counts) => {
                self.counts = counts;
                self.stage = Stage::Counted;
                Ok(())
            }
            None => Err(Refused::Kind(NoForm)),
        }
    }

    // The line of the first frame.
    #[tactic(auto, using(crate::proofs::Stepping::no_oldest))]
    fn read_oldest(&mut self, line: &[u8]) -> Result<(), Refused<NoForm>>
        requires stage { self.old.stage ≡ stage.Counted }
        requires ready { IsReady self.old [] }
        ensures step { StepIs (step (front_of self.old) (words line.now)) (front_of self.new) result }
        ensures ready { OnOk result (IsReady self.new []) }
    {
        match line_of(line) {
            Some(Line::Frame { func, block, place }) => {
                self.last = new_frame(self.alloc, func, block, place);
                self.stage = Stage::Framed;
                Ok(())
            }
            Some(Line::Local(_)) => Err(Refused::Kind(NoForm)),
            Some(Line::Cell(_)) => Err(Refused::Kind(NoForm)),
            Some(Line::End) => Err(Refused::Kind(NoForm)),
            None => Err(Refused::Kind(NoForm)),
        }
    }

    // One more frame.
    fn add_frame(&mut self, func: u32, block: u32, place: u32) -> Result<(), Refused<NoForm>>
        requires stage { self.old.stage ≡ stage.Framed }
        ensures step { StepIs (line_taken self.old (LFrame func block place)) (front_of self.new) result }
        ensures ready { OnOk result (IsReady self.new []) }
    {
        if !self.cells.is_empty() {
            return Err(Refused::Kind(NoForm));
        }
        let frame = new_frame(self.alloc, func, block, place);
        let before = mem::replace(&mut self.last, frame);
        let Ok(()) = self.frames.push(before) else {
            return Err(Refused::Memory);
        };
        Ok(())
    }

    // One more local of the last frame.
    fn add_local(&mut self, bound: Bound) -> Result<(), Refused<NoForm>>
        requires stage { self.old.stage ≡ stage.Framed }
        ensures step { StepIs (line_taken self.old (LLocal (bound_of bound))) (front_of self.new) result }
        ensures ready { OnOk result (IsReady self.new []) }
    {
        if !self.cells.is_empty() {
            return Err(Refused::Kind(NoForm));
        }
        if !is_above(&self.last.live, bound.local) {
            return Err(Refused::Kind(NoForm));
        }
        let Ok(()) = self.last.live.push(bound) else {
            return Err(Refused::Memory);
        };
        Ok(())
    }

    // One more cell.
    fn add_cell(&mut self, cell: Cell) -> Result<(), Refused<NoForm>>
        requires stage { self.old.stage ≡ stage.Framed }
        ensures step { StepIs (line_taken self.old (LCell (cell_of cell))) (front_of self.new) result }
        ensures ready { OnOk result (IsReady self.new []) }
    {
        if self.cells.len() >= self.counts.cells as usize {
            return Err(Refused::Kind(NoForm));
        }
        let Ok(()) = self.cells.push(cell) else {
            return Err(Refused::Memory);
        };
        Ok(())
    }

    // The end, where all cells are there.
    fn end(&mut self) -> Result<(), Refused<NoForm>>
        requires stage { self.old.stage ≡ stage.Framed }
        ensures step { StepIs (line_taken self.old LEnd) (front_of self.new) result }
        ensures ready { OnOk result (IsReady self.new []) }
    {
        if self.cells.len() != self.counts.cells as usize {
            return Err(Refused::Kind(NoForm));
        }
        let none = new_frame(self.alloc, 0, 0, 0);
        let last = mem::replace(&mut self.last, none);
        let Ok(()) = self.frames.push(last) else {
            return Err(Refused::Memory);
        };
        self.stage = Stage::Done;
        Ok(())
    }

    // A line behind the one of the first frame.
    #[tactic(auto, using(crate::proofs::Stepping::no_further))]
    fn read_further(&mut self, line: &[u8]) -> Result<(), Refused<NoForm>>
        requires stage { self.old.stage ≡ stage.Framed }
        ensures step { StepIs (step (front_of self.old) (words line.now)) (front_of self.new) result }
        ensures ready { OnOk result (IsReady self.new []) }
    {
        match line_of(line) {
            Some(Line::Cell(cell)) => self.add_cell(cell),
            Some(Line::Local(bound)) => self.add_local(bound),
            Some(Line::Frame { func, block, place }) => self.add_frame(func, block, place),
            Some(Line::End) => self.end(),
            None => Err(Refused::Kind(NoForm)),
        }
    }

    // One more line.
    fn read_line(&mut self, line: &[u8]) -> Result<(), Refused<NoForm>>
        requires ready { IsReady self.old [] }
        ensures step { StepIs (step (front_of self.old) (words line.now)) (front_of self.new) result }
        ensures ready { OnOk result (IsReady self.new []) }
    {
        match self.stage {
            Stage::Start => self.read_first(line),
            Stage::Named => self.read_counts(line),
            Stage::Counted => self.read_oldest(line),
            Stage::Framed => self.read_further(line),
            Stage::Done => Err(Refused::Kind(NoForm)),
        }
    }
}

impl<'a> LineReader<'a> for ImageReader {
    type Kind = NoForm;

    ghost format = { image_format };

    ghost machine = { image_machine };

    ghost shows = { image_shows };

    ghost kind_of = { kind_of };

    ghost kinds = { kinds };

    ghost state = { front_of };

    ghost ready = { IsReady };

    fn line(&mut self, line: &'a [u8], _after: &'a [u8]) -> Result<(), Refused<NoForm>> {
        match self.read_line(line) {
            Ok(()) => Ok(()),
            Err(stop) => Err(stop),
        }
    }

    fn may_end(&self) -> bool {
        match self.stage {
            Stage::Done => true,
            _ => false,
        }
    }

    fn no_form(&self) -> NoForm {
        NoForm
    }
}

/// Reads the image of a paused run, in time and memory that are linear in its bytes. `Ok` comes exactly where the text
/// is an image, and is the state of this image. A fault comes exactly at the first wrong line. [`Stop::Memory`] where
/// memory runs out.
pub fn read_image(alloc: Global, text: &[u8]) -> Result<State, Stop<NoImage>>
    // The text has fewer than 2^32 bytes.
    requires short { length text.now < 4294967296 }
    // What is read is what the text is the image of, or the line is the first wrong one.
    ensures found { MatchResult result (λ s. IsText image_format text.now (image_of s))
        (λ stop. FaultIs (λ fault. IsFault image_format 0 text.now fault.line) stop) }
    // The image of a state is read as this state, unless memory runs out.
    ensures read { (i : Image) → IsText image_format text.now i
        → MatchResult result (λ s. image_of s ≡ i) (λ stop. FaultIs (λ _. ⊥) stop) }
    // The first wrong line is told, unless memory runs out.
    ensures fault { (line : ℕ) → IsFault image_format 0 text.now line
        → MatchResult result (λ _. ⊥) (λ stop. FaultIs (λ fault. fault.line ≡ line) stop) }
{
    let mut reader = ImageReader::new(alloc);
    match read_lines(&mut reader, text) {
        Ok(()) => Ok(State {
            calls: reader.counts.calls,
            net: reader.counts.net,
            peak: reader.counts.peak,
            fuel: reader.counts.fuel,
            free: reader.counts.free,
            frames: reader.frames,
            cells: reader.cells,
        }),
        Err(Halt::Fault { kind: _, line }) => Err(Stop::Fault(NoImage { line })),
        Err(Halt::Memory) => Err(Stop::Memory),
    }
}
