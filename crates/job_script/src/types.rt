use camelot_values::Word;

/// The language of a program's text: Camelot, or Grail, of which the text is a bundle of code and certificate.
#[derive(Clone, Copy, Debug, PartialEq, Eq)]
pub enum Language {
    Camelot,
    Grail,
}

/// A program, or a job that calls one, in the order of the script. Names and texts are parts of the script's text.
#[derive(Clone, Copy)]
pub enum Entry<'a> {
    /// A program's text in its language, its lines with their line feeds.
    Program {
        name: &'a [u8],
        language: Language,
        text: &'a [u8],
    },
    /// A call of the entry of a program with so much fuel, from 1 to 2^40. The program need not be there. The arguments
    /// are as they stand in the line, and none where it has none.
    Job {
        name: &'a [u8],
        program: &'a [u8],
        entry: &'a [u8],
        fuel: u64,
        args: &'a [u8],
    },
}

/// A script: the cells of its arena, from 1 to 4194304, its workers, from 1 to 16, and its programs and jobs, at most
/// 64 and 4096.
#[derive(Drop)]
pub struct Script<'a> {
    pub arena: u32,
    pub workers: u32,
    pub items: Vec<Entry<'a>>,
}

/// What the drill's script borrows: the names of its jobs, and the texts of their lists. Job `i` has the list of job
/// `i - 1000`, so that there are at most 1,000 texts.
#[derive(Drop)]
pub struct MadeTexts {
    pub names: Vec<Word>,
    pub lists: Vec<Vec<u8>>,
}
