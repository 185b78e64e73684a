//! The script of the drill.
ghost use Rattle.std.specs.Prelude.{◌≡◌, ◌≤◌, ◌++◌, ◌∷◌, [], codes, length, map, replicate, IfOk, OnOk};
ghost use Rattle.std.specs.List.{AllByRecursion};
ghost use Rattle.text_lines.specs.Numbers.{number};
ghost use Rattle.job_script.specs.Made.{counted, heads, list_text, made_fuel, made_job, made_jobs, made_list, made_name, made_program, made_script};
ghost use Rattle.job_script.specs.Fronts.{AreFronts, AreParts};
ghost use Rattle.job_script.specs.Scripts.{AJob, AProgram, IsScript, IsUpTo};
ghost use Rattle.job_script.specs.Text.{EntryIsShort};
ghost use Rattle.job_script.specs.Words.{entry_of, script_of, text_of, AreMade};

use crate::types::{Entry, Language, MadeTexts, Script};
use camelot_values::Word;
use std::alloc::{AllocError, Global};
use text_lines::push_number;

// Lists, and the function that doubles one.
const SOURCE: &[u8] =
    b"type ilist = !Nil | Cons of int * ilist\nlet dup l = match l with Nil -> Nil | Cons(h, t)@_ -> let r = dup t in Cons(h, Cons(h, r)) end\n";

// Writes the front of an item.
#[tactic(auto, using(crate::proofs::Counted::head_written))]
fn push_head(out: &mut Vec<u8>, item: u32) -> Result<(), AllocError>
    ensures { OnOk result (out.new.items ≡ out.old.items ++ (codes "Cons(" ++ (number item ++ codes ","))) }
{
    push_number(out, b"Cons(", item as u64)?;
    out.extend_from_slice(b",")
}

// The fronts of the items from 1 on, one behind the other, and for each number of them, from none on, how many bytes
// so many have.
#[derive(Drop)]
pub(crate) struct Fronts {
    pub(crate) text: Vec<u8>,
    pub(crate) ends: Vec<usize>,
}

// The parts of the drill's lists: the fronts of all items, and what closes them.
#[derive(Drop)]
pub(crate) struct Parts {
    pub(crate) fronts: Fronts,
    pub(crate) closing: Vec<u8>,
}

// Adds the front of an item.
fn add_front(fronts: &mut Fronts, item: u32) -> Result<(), AllocError>
    ensures text { OnOk result (fronts.new.text.items ≡ fronts.old.text.items ++ (codes "Cons(" ++ (number item ++ codes ","))) }
    ensures ends { OnOk result (fronts.new.ends.items ≡ fronts.old.ends.items ++ length fronts.new.text.items ∷ []) }
{
    push_head(&mut fronts.text, item)?;
    fronts.ends.push(fronts.text.len())?;
    Ok(())
}

// The fronts of so many items.
#[tactic(auto, using(crate::proofs::Fronts::no_fronts, crate::proofs::Fronts::all_fronts))]
fn make_fronts(alloc: Global, count: u32) -> Result<Fronts, AllocError>
    ensures { IfOk result (λ f. AreFronts count f.text.items f.ends.items) }
{
    let mut fronts = Fronts {
        text: Vec::new(alloc),
        ends: Vec::new(alloc),
    };
    fronts.ends.push(0)?;
    let mut made = 0;
    'items: while made < count {
        made += 1;
        add_front(&mut fronts, made)?;
    }
    Ok(fronts)
}

// The fronts of the first so many items, in a text with room for the rest of the list.
#[tactic(auto, using(crate::proofs::Fronts::fewer, crate::proofs::Fronts::end_within))]
fn copy_fronts(alloc: Global, fronts: &Fronts, count: u32) -> Result<Vec<u8>, AllocError>
    requires few { count ≤ 999 }
    requires fronts { AreFronts 999 fronts.now.text.items fronts.now.ends.items }
    ensures { IfOk result (λ out. out.items ≡ heads count 1) }
{
    let end = fronts.ends[count as usize];
    let mut out = Vec::with_capacity(alloc, end.saturating_add(3 + count as usize))?;
    out.extend_from_slice(&fronts.text[..end])?;
    Ok(out)
}

// What closes so many items.
#[tactic(auto, using(crate::proofs::Counted::next_end, crate::proofs::Counted::all_ends))]
fn make_closing(alloc: Global, count: u32) -> Result<Vec<u8>, AllocError>
    ensures { IfOk result (λ text. text.items ≡ replicate count 41) }
{
    let mut out = Vec::new(alloc);
    let mut left = count;
    'ends: while left > 0 {
        out.push(b')')?;
        left -= 1;
    }
    Ok(out)
}

// The parts of lists of up to 999 items.
fn make_parts(alloc: Global) -> Result<Parts, AllocError>
    ensures { IfOk result AreParts }
{
    let fronts = make_fronts(alloc, 999)?;
    let closing = make_closing(alloc, 999)?;
    Ok(Parts { fronts, closing })
}

// The text of the list of the ints from 1 on, so many.
#[tactic(auto, using(crate::proofs::Counted::list_written))]
fn list_text(alloc: Global, parts: &Parts, count: u32) -> Result<Vec<u8>, AllocError>
    requires few { count ≤ 999 }
    requires parts { AreParts parts.now }
    ensures { IfOk result (λ text. text.items ≡ list_text count) }
{
    let mut out = copy_fronts(alloc, &parts.fronts, count)?;
    out.extend_from_slice(b"Nil")?;
    out.extend_from_slice(&parts.closing[..count as usize])?;
    Ok(out)
}

// The name of a job.
#[tactic(auto, using(crate::proofs::Counted::name_written))]
fn job_name(alloc: Global, number: u32) -> Result<Word, AllocError>
    ensures { IfOk result (λ word. word ≡ made_name number) }
{
    let mut name = Vec::new(alloc);
    push_number(&mut name, b"j", number as u64)?;
    Word::new(alloc, &name)
}

// The fuel of a job.
fn job_fuel(number: u32) -> u64
    ensures { result ≡ made_fuel number }
{
    if number % 100 == 0 { 5 } else { 2000 }
}

// The names of so many jobs.
#[tactic(auto, using(crate::proofs::Counted::all_counted))]
fn make_names(alloc: Global, count: u32) -> Result<Vec<Word>, AllocError>
    requires few { count ≤ 4096 }
    ensures { IfOk result (λ names. names.items ≡ counted made_name count 1) }
{
    let mut names = Vec::with_capacity(alloc, count as usize)?;
    let mut left = count;
    let mut number = 1;
    'names: while left > 0 {
        names.push(job_name(alloc, number)?)?;
        left -= 1;
        number += 1;
    }
    Ok(names)
}

// The texts of the lists of so many jobs.
#[tactic(auto, using(crate::proofs::Counted::next_mapped, crate::proofs::Counted::all_mapped))]
fn make_lists(alloc: Global, count: u32) -> Result<Vec<Vec<u8>>, AllocError>
    requires few { count ≤ 1000 }
    ensures { IfOk result (λ lists. map text_of lists.items ≡ counted made_list count 1) }
{
    let parts = make_parts(alloc)?;
    let mut lists = Vec::with_capacity(alloc, count as usize)?;
    let mut left = count;
    let mut number = 1;
    'lists: while left > 0 {
        lists.push(list_text(alloc, &parts, 37 * number % 1000)?)?;
        left -= 1;
        number += 1;
    }
    Ok(lists)
}

/// The names and the texts of so many jobs of the drill, from 1 to 4,096, of which [`make_script`] makes its script.
/// `AllocError` where memory runs out.
pub fn make_texts(alloc: Global, count: u32) -> Result<MadeTexts, AllocError>
    requires jobs { IsUpTo 4096 count }
    // They are those of the drill's jobs, in order.
    ensures made { IfOk result (AreMade count) }
{
    let names = make_names(alloc, count)?;
    let lists = make_lists(alloc, count.min(1000))?;
    Ok(MadeTexts { names, lists })
}

// The program.
#[tactic(auto, unfolding(crate::specs::Made::made_source))]
fn program_entry() -> Entry<'static>
    ensures { entry_of result ≡ AProgram made_program }
{
    Entry::Program {
        name: b"drill",
        language: Language::Camelot,
        text: SOURCE,
    }
}

// The name of a job.
#[tactic(auto, using(crate::proofs::Counted::name_there))]
fn name_of(texts: &MadeTexts, count: u32, number: u32) -> &[u8]
    requires made { AreMade count texts.now }
    requires least { 1 ≤ number }
    requires most { number ≤ count }
    ensures { result.now ≡ made_name number }
{
    let _ = count;
    texts.names[number as usize - 1].bytes()
}

// The text of the list of a job.
fn list_of(texts: &MadeTexts, count: u32, number: u32) -> &[u8]
    requires made { AreMade count texts.now }
    requires least { 1 ≤ number }
    requires most { number ≤ count }
    ensures { result.now ≡ made_list number }
{
    let _ = count;
    &texts.lists[(number as usize - 1) % 1000]
}

// The job of a number.
fn made_entry(texts: &MadeTexts, count: u32, number: u32) -> Entry<'_>
    requires made { AreMade count texts.now }
    requires least { 1 ≤ number }
    requires most { number ≤ count }
    ensures { entry_of result ≡ AJob (made_job number) }
{
    Entry::Job {
        name: name_of(texts, count, number),
        program: b"drill",
        entry: b"dup",
        fuel: job_fuel(number),
        args: list_of(texts, count, number),
    }
}

// Adds the jobs of these texts.
#[tactic(auto, using(crate::proofs::Counted::next_job, crate::proofs::Counted::all_jobs))]
fn push_jobs<'a>(
    items: &mut Vec<Entry<'a>>,
    texts: &'a MadeTexts,
    count: u32,
) -> Result<(), AllocError>
    requires made { AreMade count texts.now }
    requires few { count ≤ 4096 }
    ensures { OnOk result (map entry_of items.new.items ≡ map entry_of items.old.items ++ made_jobs count 1) }
{
    let mut left = count;
    let mut number = 1;
    'jobs: while left > 0 {
        items.push(made_entry(texts, count, number))?;
        left -= 1;
        number += 1;
    }
    Ok(())
}

/// The script of the drill: an arena of 4,096 cells, so many workers, from 1 to 16, one program, and so many jobs, from
/// 1 to 4,096, of these texts. Job `i` doubles the list of the ints from 1 to the remainder of 37 times `i` by 1,000;
/// each hundredth has too little fuel. `AllocError` where memory runs out.
#[tactic(auto, using(crate::proofs::Counted::script_made, crate::proofs::MadeRight::short))]
pub fn make_script(
    alloc: Global,
    texts: &MadeTexts,
    count: u32,
    workers: u32,
) -> Result<Script<'_>, AllocError>
    requires texts { AreMade count texts.now }
    requires count { IsUpTo 4096 count }
    requires workers { IsUpTo 16 workers }
    // It is the drill's script.
    ensures made { IfOk result (λ script. script_of script ≡ made_script count workers) }
    // It is a script, within all limits and with each name once.
    ensures right { IfOk result (λ script. IsScript (script_of script)) }
    // Its texts are short.
    ensures short { IfOk result (λ script. AllByRecursion (EntryIsShort 4294967295) (script_of script).items) }
{
    let mut items = Vec::with_capacity(alloc, 1 + count as usize)?;
    items.push(program_entry())?;
    push_jobs(&mut items, texts, count)?;
    Ok(Script {
        arena: 4096,
        workers,
        items,
    })
}
