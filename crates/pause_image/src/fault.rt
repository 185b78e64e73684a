use thiserror::Error;

/// Why a text is no image from which a run can go on. The causes are tried in this order, and each is told at its first
/// place. Frames are counted from 0, the oldest first.
#[derive(Clone, Copy, Debug, PartialEq, Eq, Error)]
pub enum ImageFault {
    /// The line at which the text is that of no image, counted from 1.
    #[error("line {line}")]
    Line { line: u64 },
    /// It has another number of cells than the range.
    #[error("size cells {cells} len {len}")]
    Size { cells: u32, len: u32 },
    /// The frame isn't as the code says at its place: it is beyond the 65,537th; it is at no let and no end of a block;
    /// it has other words than those of its live locals; it has a lent one; or it waits where no function is called
    /// whose result can be that of the next frame's function.
    #[error("shape frame {frame}")]
    Shape { frame: u32 },
    /// The word of a local stands for no value of its kind, or for one of whose cells one has an owner already, or
    /// stands in it twice, or isn't there.
    #[error("value frame {frame} local {local}")]
    Value { frame: u32, local: u32 },
    /// The offset stands in the free list, and no free cell without an owner is at it.
    #[error("free at {at}")]
    Free { at: u32 },
    /// There are fewer free cells than the frames ask for.
    #[error("short free {free} need {need}")]
    Short { free: u32, need: u128 },
    /// Net and free cells together aren't from 0 to the number of cells.
    #[error("net {net} free {free}")]
    Net { net: i64, free: u32 },
}
