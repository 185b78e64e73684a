//! An image there and back, and texts that are no image's.
use super::{NoImage, read_image, write_image};
use std::alloc::Global;
use stops::Stop;

// A paused run with two live locals and one free cell.
const ROW: &[u8] =
    b"grail image 1\ncalls 1 net 0 peak 0 fuel 9 free 0 cells 1\nframe 0 0 1\nlocal 0 2\nlocal 1 3\ncell 4294967295 4294967295 0 0 0\nend\n";

// The greatest and the least numbers, and frames without locals.
const LIMITS: &[u8] =
    b"grail image 1\ncalls 1099511627776 net -4294967295 peak 1099511627776 fuel 0 free 4294967295 cells 0\nframe 4294967295 0 4294967295\nframe 1 2 3\nlocal 4294967295 4294967295\nend\n";

// Texts that are no image's, each with the line that is the first wrong one.
const WRONG: [(&[u8], u64); 26] = [
    (b"", 1),
    (b"grail image 1", 1),
    (b"grail image 2\n", 1),
    (b"grail  image 1\n", 1),
    (b"grail image 1\n", 2),
    // a leading zero
    (
        b"grail image 1\ncalls 01 net 0 peak 0 fuel 9 free 0 cells 0\nframe 0 0 1\nend\n",
        2,
    ),
    // minus zero
    (
        b"grail image 1\ncalls 1 net -0 peak 0 fuel 9 free 0 cells 0\nframe 0 0 1\nend\n",
        2,
    ),
    // a sign at a number that has none
    (
        b"grail image 1\ncalls 1 net 0 peak -1 fuel 9 free 0 cells 0\nframe 0 0 1\nend\n",
        2,
    ),
    // one more than 32 bits below and above zero
    (
        b"grail image 1\ncalls 1 net -4294967296 peak 0 fuel 9 free 0 cells 0\nframe 0 0 1\nend\n",
        2,
    ),
    (
        b"grail image 1\ncalls 1 net 4294967296 peak 0 fuel 9 free 0 cells 0\nframe 0 0 1\nend\n",
        2,
    ),
    // calls and fuel above 2^40 together, and a peak above it
    (
        b"grail image 1\ncalls 1099511627776 net 0 peak 0 fuel 1 free 0 cells 0\nframe 0 0 1\nend\n",
        2,
    ),
    (
        b"grail image 1\ncalls 1 net 0 peak 1099511627777 fuel 9 free 0 cells 0\nframe 0 0 1\nend\n",
        2,
    ),
    // a key that is another, and a word too many
    (
        b"grail image 1\ncalls 1 net 0 fuel 9 peak 0 free 0 cells 0\nframe 0 0 1\nend\n",
        2,
    ),
    (
        b"grail image 1\ncalls 1 net 0 peak 0 fuel 9 free 0 cells 0 0\nframe 0 0 1\nend\n",
        2,
    ),
    // no frame
    (
        b"grail image 1\ncalls 1 net 0 peak 0 fuel 9 free 0 cells 0\nend\n",
        3,
    ),
    // a number of 33 bits
    (
        b"grail image 1\ncalls 1 net 0 peak 0 fuel 9 free 0 cells 0\nframe 0 0 4294967296\nend\n",
        3,
    ),
    // two spaces, and a space at the end
    (
        b"grail image 1\ncalls 1 net 0 peak 0 fuel 9 free 0 cells 0\nframe 0  0 1\nend\n",
        3,
    ),
    (
        b"grail image 1\ncalls 1 net 0 peak 0 fuel 9 free 0 cells 0\nframe 0 0 1 \nend\n",
        3,
    ),
    // no end, and no line feed behind it
    (
        b"grail image 1\ncalls 1 net 0 peak 0 fuel 9 free 0 cells 0\nframe 0 0 1\n",
        4,
    ),
    (
        b"grail image 1\ncalls 1 net 0 peak 0 fuel 9 free 0 cells 0\nframe 0 0 1\nend",
        4,
    ),
    // a line behind the end
    (
        b"grail image 1\ncalls 1 net 0 peak 0 fuel 9 free 0 cells 0\nframe 0 0 1\nend\n\n",
        5,
    ),
    // a local that repeats, and one behind a cell
    (
        b"grail image 1\ncalls 1 net 0 peak 0 fuel 9 free 0 cells 0\nframe 0 0 1\nlocal 1 0\nlocal 1 0\nend\n",
        5,
    ),
    (
        b"grail image 1\ncalls 1 net 0 peak 0 fuel 9 free 0 cells 1\nframe 0 0 1\ncell 0 0 0 0 0\nlocal 1 0\nend\n",
        5,
    ),
    // a frame behind a cell
    (
        b"grail image 1\ncalls 1 net 0 peak 0 fuel 9 free 0 cells 1\nframe 0 0 1\ncell 0 0 0 0 0\nframe 0 0 1\nend\n",
        5,
    ),
    // a cell too many, and one too few
    (
        b"grail image 1\ncalls 1 net 0 peak 0 fuel 9 free 0 cells 1\nframe 0 0 1\ncell 0 0 0 0 0\ncell 0 0 0 0 0\nend\n",
        5,
    ),
    (
        b"grail image 1\ncalls 1 net 0 peak 0 fuel 9 free 0 cells 2\nframe 0 0 1\ncell 0 0 0 0 0\nend\n",
        5,
    ),
];

// The bytes that are written for what is read; None where nothing is.
fn round_trip(alloc: Global, text: &[u8]) -> Option<Vec<u8>> {
    if text.len() > 1000 {
        return None;
    }
    match read_image(alloc, text) {
        Ok(state) => write_image(alloc, &state).ok(),
        Err(_) => None,
    }
}

// The line that is told; None where none is.
fn wrong_line(alloc: Global, text: &[u8]) -> Option<u64> {
    if text.len() > 1000 {
        return None;
    }
    match read_image(alloc, text) {
        Err(Stop::Fault(NoImage { line })) => Some(line),
        _ => None,
    }
}

#[test]
fn images_are_written_as_they_were_read(rt: HostRuntime) {
    for text in [ROW, LIMITS] {
        match round_trip(rt.alloc(), text) {
            Some(written) => assert!(rt; written.as_slice() == text),
            None => assert!(rt; false),
        }
    }
}

#[test]
fn first_wrong_lines_are_told(rt: HostRuntime) {
    for (text, line) in WRONG {
        assert_eq!(rt; wrong_line(rt.alloc(), text), Some(line));
    }
}
