ghost use Rattle.std.specs.Prelude.{◌≡◌, ◌==◌, ◌&&◌, ◌||◌, nat_lt, slice_get, map};
ghost use Rattle.grail_code.specs.Code.{let_of, block_of, term_of, code_of};
ghost use Rattle.grail_code.specs.Code.{func_of as body_of};
ghost use Rattle.std.specs.Option.{option_map};
ghost use Rattle.grail_verifier.specs.Numbered.{held, var_in, block_in, make_in, func_in};
ghost use Rattle.grail_verifier.specs.Remembered.{IsSound};
ghost use Rattle.licence.specs.Sites.{site_of};
ghost use Rattle.grail_verifier.specs.Finding.{Finds};
ghost use Rattle.grail_verifier.specs.Walk.{makes_from, in_front, lets_short, put_all, begun_short, lined_short, block_short, blocks_short, func_short, funcs_short};

use super::books::{Body, Books, Here};
use super::ends::{check_end, line_at};
use super::lets::{bind, check_op, lines_of, put};
use super::memo::Memo;
use super::numbered::{BlockLines, MakeLine, VarLine};
use super::short::Short;
use grail_code::{Block, Func};
use licence::Site;

// The most locals of a function.
const LOCALS: usize = 256;

// Whether the line is of a place before this one.
fn is_before(line: &MakeLine, block: u32, place: u32) -> bool
    ensures { result ≡ (nat_lt line.now.block block || ((line.now.block == block) && nat_lt line.now.place place)) }
{
    line.block < block || (line.block == block && line.place < place)
}

// What is left of the lines of builds from this place on.
fn makes_from<'a>(books: Books<'_>, makes: &'a [MakeLine], block: u32, place: u32) -> &'a [MakeLine]
    ensures { map (make_in books.entry.lines.now.held) result.now ≡ makes_from block place (map (make_in books.entry.lines.now.held) makes.now) }
{
    let mut rest = makes;
    'makes: while let [first, others @ ..] = rest {
        if !is_before(first, block, place) {
            break;
        }
        rest = others;
    }
    rest
}

// The number of the annotations of the build at this place, where its line stands in front.
fn in_front(books: Books<'_>, makes: &[MakeLine], block: u32, place: u32) -> u32
    ensures { held books.entry.lines.now.held result
        ≡ in_front (held books.entry.lines.now.held 0) block place
        (map (make_in books.entry.lines.now.held) makes.now) }
{
    match makes {
        [first, ..] if first.block == block && first.place == place => first.number,
        _ => 0,
    }
}

// Locals carry what these lines say.
fn put_all(books: Books<'_>, slots: &mut [u32], lines: &[VarLine])
    ensures { map (held books.entry.lines.now.held) slots.new
        ≡ put_all (map (held books.entry.lines.now.held) slots.old)
        (map (var_in books.entry.lines.now.held) lines.now) }
{
    'lines: for line in lines {
        put(books, slots, line.var, line.number);
    }
}

// The lets of a block and its end, where so much is left and locals carry this.
fn check_lets<'a>(
    books: Books<'a>,
    memo: &mut Memo,
    body: Body<'a>,
    start: Site,
    makes: &[MakeLine],
    need: u64,
    slots: &mut [u32],
    block: &Block,
) -> Result<(), Short>
    requires place { start.place ≡ 1 }
    requires sound { IsSound (code_of books.code.now).types books.lines.now.held memo.old }
    ensures found { Finds result (lets_short (code_of books.entry.code.now) books.entry.lines.now.cert
        (held books.entry.lines.now.held 0) (body_of body.entry.func.now)
        (func_in books.entry.lines.now.held body.entry.own.now) (site_of start)
        (map (make_in books.entry.lines.now.held) makes.now) need (map (held books.entry.lines.now.held) slots.old)
        (map let_of block.now.lets.items) (term_of block.now.term)) }
    ensures sound { IsSound (code_of books.entry.code.now).types books.entry.lines.now.held memo.new }
{
    let mut site = start;
    let mut rest = makes;
    let mut left = need;
    'lets: for binding in &block.lets {
        rest = makes_from(books, rest, site.block, site.place);
        let made = in_front(books, rest, site.block, site.place);
        let here = Here {
            func: body.func,
            site,
            left,
        };
        left = check_op(books, memo, here, slots, made, &binding.op)?;
        bind(books, slots, made, binding);
        site.place += 1;
    }
    let here = Here {
        func: body.func,
        site,
        left,
    };
    check_end(books, memo, body.own, here, slots, &block.term)
}

// A block that begins with this need and these lines.
fn check_begun<'a>(
    books: Books<'a>,
    memo: &mut Memo,
    body: Body<'a>,
    start: Site,
    makes: &[MakeLine],
    need: u64,
    lines: &[VarLine],
    block: &Block,
) -> Result<(), Short>
    requires place { start.place ≡ 1 }
    requires sound { IsSound (code_of books.code.now).types books.lines.now.held memo.old }
    ensures found { Finds result (begun_short (code_of books.entry.code.now) books.entry.lines.now.cert
        (held books.entry.lines.now.held 0) (body_of body.entry.func.now)
        (func_in books.entry.lines.now.held body.entry.own.now) (site_of start)
        (map (make_in books.entry.lines.now.held) makes.now) need (map (var_in books.entry.lines.now.held) lines.now)
        (block_of block.now)) }
    ensures sound { IsSound (code_of books.entry.code.now).types books.entry.lines.now.held memo.new }
{
    let mut slots = [0; LOCALS];
    put_all(books, &mut slots, lines);
    check_lets(books, memo, body, start, makes, need, &mut slots, block)
}

// A block after the first. There is a line for it where the certificate fits.
fn check_lined<'a>(
    books: Books<'a>,
    memo: &mut Memo,
    body: Body<'a>,
    start: Site,
    makes: &[MakeLine],
    line: Option<&'a BlockLines>,
    block: &Block,
) -> Result<(), Short>
    requires place { start.place ≡ 1 }
    requires sound { IsSound (code_of books.code.now).types books.lines.now.held memo.old }
    ensures found { Finds result (lined_short (code_of books.entry.code.now) books.entry.lines.now.cert
        (held books.entry.lines.now.held 0) (body_of body.entry.func.now)
        (func_in books.entry.lines.now.held body.entry.own.now) (site_of start)
        (map (make_in books.entry.lines.now.held) makes.now)
        (option_map (λ b. block_in books.entry.lines.now.held b.now) line.entry) (block_of block.now)) }
    ensures sound { IsSound (code_of books.entry.code.now).types books.entry.lines.now.held memo.new }
{
    match line {
        Some(line) => check_begun(
            books, memo, body, start, makes, line.need, &line.vars, block,
        ),
        None => Ok(()),
    }
}

// One block.
fn check_block<'a>(
    books: Books<'a>,
    memo: &mut Memo,
    body: Body<'a>,
    func: u32,
    number: u32,
    makes: &[MakeLine],
    block: &Block,
) -> Result<(), Short>
    requires sound { IsSound (code_of books.code.now).types books.lines.now.held memo.old }
    ensures found { Finds result (block_short (code_of books.entry.code.now) books.entry.lines.now.cert
        (held books.entry.lines.now.held 0) (body_of body.entry.func.now)
        (func_in books.entry.lines.now.held body.entry.own.now) func number
        (map (make_in books.entry.lines.now.held) makes.now) (block_of block.now)) }
    ensures sound { IsSound (code_of books.entry.code.now).types books.entry.lines.now.held memo.new }
{
    let start = Site {
        func,
        block: number,
        place: 1,
    };
    let own = body.own;
    if number == 0 {
        check_begun(
            books,
            memo,
            body,
            start,
            makes,
            own.need,
            &own.params,
            block,
        )
    } else {
        check_lined(
            books,
            memo,
            body,
            start,
            makes,
            line_at(books, own, number),
            block,
        )
    }
}

// The blocks of a function.
fn check_blocks<'a>(
    books: Books<'a>,
    memo: &mut Memo,
    body: Body<'a>,
    func: u32,
) -> Result<(), Short>
    requires sound { IsSound (code_of books.code.now).types books.lines.now.held memo.old }
    ensures found { Finds result (blocks_short (code_of books.entry.code.now) books.entry.lines.now.cert
        (held books.entry.lines.now.held 0) (body_of body.entry.func.now)
        (func_in books.entry.lines.now.held body.entry.own.now) func 0
        (map (make_in books.entry.lines.now.held) body.entry.own.now.makes.items)
        (map block_of body.entry.func.now.blocks.items)) }
    ensures sound { IsSound (code_of books.entry.code.now).types books.entry.lines.now.held memo.new }
{
    let mut makes: &[MakeLine] = &body.own.makes;
    let mut number = 0;
    'walk: for block in &body.func.blocks {
        makes = makes_from(books, makes, number, 0);
        check_block(books, memo, body, func, number, makes, block)?;
        number += 1;
    }
    Ok(())
}

// One function.
fn check_func(books: Books<'_>, memo: &mut Memo, number: u32, func: &Func) -> Result<(), Short>
    requires sound { IsSound (code_of books.code.now).types books.lines.now.held memo.old }
    ensures found { Finds result (func_short (code_of books.entry.code.now) books.entry.lines.now.cert
        (held books.entry.lines.now.held 0) number (body_of func.now)
        (slice_get books.entry.lines.now.cert.funcs number)) }
    ensures sound { IsSound (code_of books.entry.code.now).types books.entry.lines.now.held memo.new }
{
    match lines_of(books, number) {
        Some(own) => check_blocks(books, memo, Body { func, own }, number),
        None => Ok(()),
    }
}

/// Walks all blocks of all functions, also those that no jump leads to.
pub(crate) fn check_funcs(books: Books<'_>, memo: &mut Memo) -> Result<(), Short>
    requires sound { IsSound (code_of books.code.now).types books.lines.now.held memo.old }
    ensures found { Finds result (funcs_short (code_of books.entry.code.now) books.entry.lines.now.cert
        (held books.entry.lines.now.held 0) 0 (code_of books.entry.code.now).funcs) }
    ensures sound { IsSound (code_of books.entry.code.now).types books.entry.lines.now.held memo.new }
{
    let mut number = 0;
    'walk: for func in &books.code.funcs {
        check_func(books, memo, number, func)?;
        number += 1;
    }
    Ok(())
}
