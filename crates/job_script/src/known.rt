ghost use Rattle.std.specs.Prelude.{◌≡◌, List, [], ◌∷◌, ◌++◌, length, map, not, if◌then◌else◌, IfOk, OnErr, IsTrue};
ghost use Rattle.std.specs.List.{slice_index};
ghost use Rattle.camelot_values.specs.Names.{stands};
ghost use Rattle.job_script.specs.Known.{number_of, back, is_past, AreFiled};

use std::alloc::{AllocError, Global};
use std::collections::BTreeSet;
use std::marker::Model;

// The byte at this place, or zero behind the end.
fn byte_at(bytes: &[u8], place: usize) -> u8
    ensures { result ≡ slice_index bytes.now place }
{
    match bytes.get(place) {
        Some(byte) => *byte,
        None => 0,
    }
}

// The first eight bytes as a number, the first one in the highest place. Fewer are filled up with zeros.
#[tactic(auto, using(crate::proofs::Keys::number_of_bytes))]
fn number_of(bytes: &[u8]) -> u64
    ensures { result ≡ number_of bytes.now }
{
    match bytes {
        [a, b, c, d, e, f, g, h, ..] => u64::from_be_bytes([*a, *b, *c, *d, *e, *f, *g, *h]),
        _ => u64::from_be_bytes([
            byte_at(bytes, 0),
            byte_at(bytes, 1),
            byte_at(bytes, 2),
            byte_at(bytes, 3),
            byte_at(bytes, 4),
            byte_at(bytes, 5),
            byte_at(bytes, 6),
            byte_at(bytes, 7),
        ]),
    }
}

// The last eight bytes of a name, or all of a shorter one. Names that are made in numbers mostly differ there.
fn back(name: &[u8]) -> &[u8]
    ensures { result.now ≡ back name.now }
{
    &name[name.len().saturating_sub(8)..]
}

// Whether a name of this size and number is past all names up to those: it is longer, or as long with a greater number.
#[tactic(auto, unfolding(crate::specs::Known::is_past))]
fn is_past(size: usize, number: u64, longest: usize, greatest: u64) -> bool
    ensures { result ≡ is_past size number longest greatest }
{
    size > longest || (size == longest && number > greatest)
}

// Whether the name is one of these words.
fn is_among(words: &[&[u8]], name: &[u8]) -> bool
    ensures { result ≡ stands (map (λ word. word.now) words.now) name.now }
{
    words.contains(&name)
}

// Files the words behind those that are filed already, each by its key. It answers how many are filed now: all of them,
// unless memory runs out.
fn file_names<'a>(words: &[&'a [u8]], keys: &mut BTreeSet<(u64, &'a [u8])>, already: usize) -> usize
    requires filed { AreFiled keys.old.keys (map (λ word. word.now) words.now) already }
    ensures filed { AreFiled keys.new.keys (map (λ word. word.now) words.now) result }
{
    let mut filed = already;
    'each: while filed < words.len() {
        let word = words[filed];
        match keys.insert((number_of(back(word)), word)) {
            Ok(_) => filed += 1,
            Err(_) => return filed,
        }
    }
    filed
}

/// Names of a script, each once, in order. A name that is longer than all before is new. So is one that is as long as
/// the longest, where the number of its last eight bytes is greater than theirs. Names that are made by counting come
/// in that order, and need no key. Any other name is found by its key.
#[derive(Drop)]
pub struct KnownNames<'a> {
    words: Vec<&'a [u8]>,
    // A key has the number first, so that most comparisons are of two numbers.
    keys: BTreeSet<(u64, &'a [u8])>,
    // How many of the words, the first ones, have their keys there.
    filed: usize,
    // No word is longer than this, and none that is as long has a greater number.
    longest: usize,
    greatest: u64,
}

impl<'a> Model for KnownNames<'a> {
    ghost use Rattle.std.specs.Prelude.{ℕ, List, map};
    ghost use Rattle.job_script.specs.Known.{AreKept};

    ghost Value = { List (List ℕ) };

    ghost view = { λ names. map (λ word. word.now) names.words.items };

    ghost invariant = { λ names. AreKept names.keys.keys (map (λ word. word.now) names.words.items) names.filed names.longest names.greatest };
}

impl<'a> KnownNames<'a> {
    /// No names, which takes no memory.
    pub fn new(alloc: Global) -> KnownNames<'a>
        ensures { result ≡ [] }
    {
        KnownNames {
            words: Vec::new(alloc),
            keys: BTreeSet::new(alloc),
            filed: 0,
            longest: 0,
            greatest: 0,
        }
    }

    /// Adds a name unless it stands already, and answers whether it is new. It fails for want of memory alone.
    #[tactic(auto, using(crate::proofs::Keys::past_is_new))]
    pub fn add(&mut self, name: &'a [u8]) -> Result<bool, AllocError>
        // A name is new exactly where it didn't stand.
        ensures new { IfOk result (λ new. new ≡ not (stands self.old name.now)) }
        // A new name is the last one now; else all names are as they were.
        ensures names { IfOk result (λ new. self.new ≡ (if new then self.old ++ name.now ∷ [] else self.old)) }
        // Where memory runs out the names are as they were.
        ensures kept { OnErr result (self.new ≡ self.old) }

        // A name that stands is never refused.
        ensures absent { OnErr result (IsTrue (not (stands self.old name.now))) }
    {
        let size = name.len();
        let number = number_of(back(name));
        // No word is past those, so this name is new, and its key can wait.
        if is_past(size, number, self.longest, self.greatest) {
            self.words.push(name)?;
            self.longest = size;
            self.greatest = number;
            return Ok(true);
        }
        // Keys and room first, so that all names are as they were where memory runs out.
        self.filed = file_names(&self.words, &mut self.keys, self.filed);
        if self.filed < self.words.len() || self.words.reserve(1).is_err() {
            if is_among(&self.words, name) {
                return Ok(false);
            }
            return Err(AllocError);
        }
        match self.keys.insert((number, name)) {
            Ok(added) => {
                if !added {
                    return Ok(false);
                }
                self.words.push(name).unwrap();
                self.filed += 1;
                Ok(true)
            }
            Err(_) => Err(AllocError),
        }
    }

    /// Whether a name is one of these. It compares each of them, and takes no memory.
    pub fn has(&self, name: &[u8]) -> bool
        ensures { result ≡ stands self.now name.now }
    {
        is_among(&self.words, name)
    }

    /// How many names there are.
    pub fn len(&self) -> usize
        ensures { result ≡ length self.now }
    {
        self.words.len()
    }
}
