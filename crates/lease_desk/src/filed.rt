ghost use Rattle.std.specs.Prelude.{◌≡◌, ℕ, List};
ghost use Rattle.cell_span.specs.declared.cell.Cell.{Cell};

/// A payload that stands for a job: it is filed with the job's lease when that goes back.
pub trait Filed: Drop {
    // the number of the job
    ghost job: { Self → ℕ };

    // the cells that its run leaves
    ghost cells: { Self → List Cell };

    /// The number of the job.
    fn job(&self) -> u32
        ensures { result ≡ job self.now };
}
