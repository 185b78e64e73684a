//! Lines of a certificate: where a block begins, and those of its builds along its lets.
ghost use Rattle.std.specs.Prelude.{◌≡◌, ◌==◌, ◌&&◌, ◌||◌, ◌≤◌, [], nat_lt, map, slice_get};
ghost use Rattle.std.specs.Option.{option_map, option_map_or};
ghost use Rattle.camelot_values.specs.Lists.{Ascend};
ghost use Rattle.certificate.specs.Certificates.{MakesAscend};
ghost use Rattle.certificate.specs.Words as words;
ghost use Rattle.licence.specs.Books.{block_of, make_of, vector_of};
ghost use Rattle.frame_accounts.specs.Tables as tables;
ghost use Rattle.frame_accounts.specs.Walk.{first_need, first_vars, in_front, makes_from};

use annotations::Vector;
use certificate::{BlockCert, FuncCert, MakeCert, VarCert};

// The line at this place, where there is one.
fn line_in(lines: &[BlockCert], place: u32) -> Option<&BlockCert>
    ensures { option_map (λ b. words.block_of b.now) result ≡ slice_get (map words.block_of lines.now) place }
{
    lines.get(place as usize)
}

// The line of a block, which stands behind so many others, where it has one.
fn line_at(lines: &[BlockCert], place: u32, block: u32) -> Option<&BlockCert>
    requires place { place ≡ tables.lines_before (map words.block_of lines.now) block }
    requires ascending { Ascend (map (λ b. b.block) (map words.block_of lines.now)) }
    ensures { option_map (λ b. words.block_of b.now) result ≡ block_of (map words.block_of lines.now) block }
{
    match line_in(lines, place) {
        Some(line) => {
            if line.block == block {
                return Some(line);
            }
            None
        }
        None => None,
    }
}

/// What a block needs, whose line stands behind so many others; the first one needs what the function does.
pub(crate) fn need_at(own: &FuncCert, place: u32, block: u32) -> u64
    requires place { place ≡ tables.lines_before (map words.block_of own.now.blocks.items) block }
    requires ascending { Ascend (map (λ b. b.block) (map words.block_of own.now.blocks.items)) }
    ensures { result ≡ first_need (words.func_of own.now) block }
{
    if block == 0 {
        return own.need;
    }
    match line_at(&own.blocks, place, block) {
        Some(line) => line.need,
        None => 0,
    }
}

/// The lines of its parameters.
pub(crate) fn vars_at(own: &FuncCert, place: u32, block: u32) -> &[VarCert]
    requires place { place ≡ tables.lines_before (map words.block_of own.now.blocks.items) block }
    requires ascending { Ascend (map (λ b. b.block) (map words.block_of own.now.blocks.items)) }
    ensures { map words.var_of result.now ≡ first_vars (words.func_of own.now) block }
{
    if block == 0 {
        return &own.params;
    }
    match line_at(&own.blocks, place, block) {
        Some(line) => &line.vars,
        None => &[],
    }
}

/// The vector of a local among these lines, where it has one.
#[tactic(auto, using(crate::proofs::LineLaws::here, crate::proofs::LineLaws::later, crate::proofs::LineLaws::nowhere))]
pub(crate) fn vector_of(vars: &[VarCert], local: u32) -> Option<&Vector>
    ensures { option_map_or (λ v. v.now) result [] ≡ vector_of (map words.var_of vars.now) local }
{
    'vars: for entry in vars {
        if entry.var == local {
            return Some(&entry.vector);
        }
    }
    None
}

// Whether the line is of a place before this one.
fn is_before(line: &MakeCert, block: u32, place: usize) -> bool
    ensures { result ≡ (nat_lt line.now.block block || ((line.now.block == block) && nat_lt line.now.place place)) }
{
    line.block < block || (line.block == block && (line.place as usize) < place)
}

/// What is left of the lines of builds from this place on.
pub(crate) fn makes_from(makes: &[MakeCert], block: u32, place: usize) -> &[MakeCert]
    ensures { map words.make_of result.now ≡ makes_from block place (map words.make_of makes.now) }
{
    let mut rest = makes;
    'makes: while let [first, others @ ..] = rest {
        if !is_before(first, block, place) {
            break;
        }
        rest = others;
    }
    rest
}

/// The vector of the build at this place, where its line stands in front.
pub(crate) fn in_front(makes: &[MakeCert], block: u32, place: usize) -> Option<&Vector>
    ensures { option_map_or (λ v. v.now) result [] ≡ in_front block place (map words.make_of makes.now) }
{
    match makes {
        [first, ..] if first.block == block && first.place as usize == place => Some(&first.vector),
        _ => None,
    }
}

/// The same among all lines from here on.
#[tactic(auto, using(crate::proofs::LineLaws::front_is))]
pub(crate) fn made_at(makes: &[MakeCert], block: u32, place: usize) -> Option<&Vector>
    requires { MakesAscend (map words.make_of makes.now) }
    ensures { option_map_or (λ v. v.now) result [] ≡ make_of (map words.make_of makes.now) block place }
{
    in_front(makes_from(makes, block, place), block, place)
}
