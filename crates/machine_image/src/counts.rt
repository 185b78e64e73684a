ghost use Rattle.std.specs.Prelude.{◌≡◌, [], ◌∷◌};
ghost use Rattle.std.specs.Option.{option_map};
ghost use Rattle.text_lines.specs.Cuts.{words, further};
ghost use Rattle.machine_image.specs.Reading.{counts_from};
ghost use Rattle.machine_image.specs.Parts.{KeyedIs, keyed_word, counts_as, counts_at};

use super::lines::at_end;
use super::numbers::{MOST_LONG, long_number, net_of, word_number};
use text_lines::{first_word, further_word};

/// The six numbers of an image.
#[derive(Clone, Copy)]
pub(crate) struct Counts {
    pub(crate) calls: u64,
    pub(crate) net: i64,
    pub(crate) peak: u64,
    pub(crate) fuel: u64,
    pub(crate) free: u32,
    /// How many cells there are.
    pub(crate) cells: u32,
}

// The word behind this one at the start of a line, and what is left of the line.
fn first_keyed<'a>(line: &'a [u8], key: &[u8]) -> Option<(&'a [u8], &'a [u8])>
    ensures { KeyedIs (keyed_word key.now (words line.now)) result }
{
    let (tag, after) = first_word(line);
    if tag != key {
        return None;
    }
    further_word(after)
}

// The word behind this one, and what is left of the line.
fn next_keyed<'a>(rest: &'a [u8], key: &[u8]) -> Option<(&'a [u8], &'a [u8])>
    ensures { KeyedIs (keyed_word key.now (further rest.now)) result }
{
    let (tag, after) = further_word(rest)?;
    if tag != key {
        return None;
    }
    further_word(after)
}

// The numbers that are written so.
#[tactic(auto, unfolding(crate::specs::Reading::counts_from))]
fn counts_from(
    calls: &[u8],
    net: &[u8],
    peak: &[u8],
    fuel: &[u8],
    free: &[u8],
    cells: &[u8],
) -> Option<Counts>
    ensures { option_map counts_as result ≡ counts_from (calls.now ∷ net.now ∷ peak.now ∷ fuel.now ∷ free.now ∷ cells.now ∷ []) }
{
    let calls = long_number(calls)?;
    let net = net_of(net)?;
    let peak = long_number(peak)?;
    let fuel = long_number(fuel)?;
    let free = word_number(free)?;
    let cells = word_number(cells)?;
    if calls + fuel > MOST_LONG {
        return None;
    }
    Some(Counts {
        calls,
        net,
        peak,
        fuel,
        free,
        cells,
    })
}

/// The six numbers of a line.
#[tactic(auto, unfolding(crate::specs::Parts::counts_at))]
pub(crate) fn counts_of(line: &[u8]) -> Option<Counts>
    ensures { option_map counts_as result ≡ counts_at (words line.now) }
{
    let (calls, rest) = first_keyed(line, b"calls")?;
    let (net, rest) = next_keyed(rest, b"net")?;
    let (peak, rest) = next_keyed(rest, b"peak")?;
    let (fuel, rest) = next_keyed(rest, b"fuel")?;
    let (free, rest) = next_keyed(rest, b"free")?;
    let (cells, rest) = next_keyed(rest, b"cells")?;
    if !at_end(rest) {
        return None;
    }
    counts_from(calls, net, peak, fuel, free, cells)
}
