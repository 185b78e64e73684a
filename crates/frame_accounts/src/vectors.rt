//! What each local carries, let by let.
ghost use Rattle.std.specs.Prelude.{◌≡◌, ◌≤◌, ◌++◌, ◌∷◌, [], ℕ, suc, length, map, slice_get, slice_set, replicate, None};
ghost use Rattle.std.specs.Option.{option_map, option_map_or};
ghost use Rattle.grail_code.specs.Code.{let_of, op_of};
ghost use Rattle.annotations.specs.Vectors as annotated;
ghost use Rattle.annotations.specs.Vectors.{is_heap_con};
ghost use Rattle.certificate.specs.Words as words;
ghost use Rattle.licence.specs.Books.{make_of, vector_of};
ghost use Rattle.frame_accounts.specs.Tables.{heaps_from};
ghost use Rattle.frame_accounts.specs.Walk.{AreLeft, carried_from, first_vars, listed, result_of, source_in, source_of, vectors_after, vectors_at};

use crate::lines::{made_at, vector_of};
use crate::lookups::own_at;
use annotations::Vector;
use certificate::{FuncCert, MakeCert, VarCert};
use grail_code::{Let, Op};
use licence::Licence;

/// A block of a function: what a walk through its lets goes by.
#[derive(Clone, Copy)]
pub(crate) struct Here<'a, 't> {
    pub(crate) licence: &'a Licence,
    /// For each constructor whether it's of a heap type.
    pub(crate) heaps: &'t [bool],
    /// The lines of the function.
    pub(crate) own: &'a FuncCert,
    pub(crate) block: u32,
    /// The lines of the block's parameters.
    pub(crate) vars: &'a [VarCert],
    /// The lines of builds from the block's first on.
    pub(crate) makes: &'a [MakeCert],
    pub(crate) ghost told: { heaps.now ≡ heaps_from licence.now.code.types 0 licence.now.code.types },
    pub(crate) ghost begins: { map words.var_of vars.now ≡ first_vars (words.func_of own.now) block },
}

// The mark of the constructor, where it has one.
fn heap_in(heaps: &[bool], con: u32) -> Option<bool>
    ensures { result ≡ slice_get heaps.now con }
{
    heaps.get(con as usize).copied()
}

/// Whether the constructor is of a heap type.
pub(crate) fn is_heap_con(here: Here<'_, '_>, con: u32) -> bool
    ensures { result ≡ is_heap_con here.entry.licence.now.code.types con }
{
    match heap_in(here.heaps, con) {
        Some(heap) => heap,
        None => false,
    }
}

// The local carries this from now on.
#[tactic(auto, using(std::proofs::lemmas::List::set_past))]
fn put<'a>(vectors: &mut [Option<&'a Vector>], local: u32, vector: Option<&'a Vector>)
    ensures count { length vectors.new ≡ length vectors.old }
    ensures told { map (λ o. option_map_or (λ v. v.now) o []) vectors.new
        ≡ slice_set (map (λ o. option_map_or (λ v. v.now) o []) vectors.old) local (option_map_or (λ v. v.now) vector.entry []) }
{
    let place = local as usize;
    if place < vectors.len() {
        vectors[place] = vector;
    }
}

/// No local carries anything.
pub(crate) fn put_none<'a>(vectors: &mut [Option<&'a Vector>])
    ensures { vectors.new ≡ replicate (length vectors.old) None }
{
    vectors.fill(None);
}

/// Locals carry what these lines say, and the others what they did. A local's first line counts.
pub(crate) fn put_vars<'a>(vectors: &mut [Option<&'a Vector>], vars: &'a [VarCert])
    requires { map (λ o. option_map_or (λ v. v.now) o []) vectors.old ≡ listed (length vectors.old) (λ x. []) }
    ensures count { length vectors.new ≡ length vectors.old }
    ensures told { map (λ o. option_map_or (λ v. v.now) o []) vectors.new
        ≡ listed (length vectors.old) (vector_of (map words.var_of vars.now)) }
{
    let mut count = vars.len();
    'vars: while count > 0 {
        count -= 1;
        let entry = &vars[count];
        put(vectors, entry.var, Some(&entry.vector));
    }
}

// What a function's result carries, where it has lines.
fn result_of<'a>(licence: &'a Licence, func: u32) -> Option<&'a Vector>
    ensures { option_map_or (λ v. v.now) result [] ≡ result_of licence.now.cert func }
{
    match own_at(licence, func as usize) {
        Some(own) => Some(&own.result),
        None => None,
    }
}

/// Where what a let's value carries comes from: it's what another local carries, or told by a line.
pub(crate) enum Source<'a> {
    Local(u32),
    Told(Option<&'a Vector>),
}

// The source of a let's value; None where nothing is told of it. Its build carries this.
fn source_in<'a>(here: Here<'a, '_>, made: Option<&'a Vector>, op: &Op) -> Option<Source<'a>>
    ensures { option_map source_of result
        ≡ source_in here.entry.licence.now.code.types here.entry.licence.now.cert (option_map_or (λ v. v.now) made.entry []) (op_of op.now) }
{
    match op {
        Op::Copy(local) => Some(Source::Local(*local)),
        Op::Make { con, .. } => {
            if is_heap_con(here, *con) {
                return Some(Source::Told(made));
            }
            None
        }
        Op::Call { func, .. } => Some(Source::Told(result_of(here.licence, *func))),
        Op::Lit(_) | Op::Flag(_) | Op::Prim { .. } => None,
    }
}

// The source of what a local carries behind the let at this place, by what locals carry before it.
fn source_before<'a>(here: Here<'a, '_>, place: usize, each: &Let, local: u32) -> Source<'a>
    requires makes { AreLeft (words.func_of here.own.now) here.block 1 (map words.make_of here.makes.now) }
    requires place { 1 ≤ place }
    ensures { (vectors : ℕ → annotated.Vector) → carried_from vectors (source_of result)
        ≡ vectors_after here.entry.licence.now.code.types here.entry.licence.now.cert
        (make_of (words.func_of here.entry.own.now).makes here.entry.block place) vectors (let_of each.now).target (let_of each.now).op local }
{
    if each.target != local {
        return Source::Local(local);
    }
    let made = made_at(here.makes, here.block, place);
    match source_in(here, made, &each.op) {
        Some(source) => source,
        None => Source::Local(local),
    }
}

// What a local carries behind these lets of the block, the last of them first.
fn traced<'a>(here: Here<'a, '_>, front: &[Let], local: u32) -> Option<&'a Vector>
    requires makes { AreLeft (words.func_of here.own.now) here.block 1 (map words.make_of here.makes.now) }
    ensures { option_map_or (λ v. v.now) result []
        ≡ vectors_at here.entry.licence.now.code.types here.entry.licence.now.cert (words.func_of here.entry.own.now) here.entry.block
        (map let_of front.now) local }
{
    let mut sought = local;
    let mut count = front.len();
    'lets: while count > 0 {
        count -= 1;
        match source_before(here, count + 1, &front[count], sought) {
            Source::Local(other) => sought = other,
            Source::Told(vector) => return vector,
        }
    }
    vector_of(here.vars, sought)
}

// What stands at the place of this local, where it has one.
fn vector_in<'a>(vectors: &[Option<&'a Vector>], local: u32) -> Option<Option<&'a Vector>>
    ensures { option_map (λ o. option_map_or (λ v. v.now) o []) result ≡ slice_get (map (λ o. option_map_or (λ v. v.now) o []) vectors.now) local }
{
    vectors.get(local as usize).copied()
}

// The same where the locals that have vectors carry theirs; of another one the lets tell.
fn carried_by<'a>(
    here: Here<'a, '_>,
    front: &[Let],
    vectors: &[Option<&'a Vector>],
    local: u32,
) -> Option<&'a Vector>
    requires makes { AreLeft (words.func_of here.own.now) here.block 1 (map words.make_of here.makes.now) }
    requires told { map (λ o. option_map_or (λ v. v.now) o []) vectors.now
        ≡ listed (length vectors.now) (vectors_at here.licence.now.code.types here.licence.now.cert (words.func_of here.own.now)
        here.block (map let_of front.now)) }
    ensures { option_map_or (λ v. v.now) result []
        ≡ vectors_at here.entry.licence.now.code.types here.entry.licence.now.cert (words.func_of here.entry.own.now) here.entry.block
        (map let_of front.now) local }
{
    match vector_in(vectors, local) {
        Some(vector) => vector,
        None => traced(here, front, local),
    }
}

/// Locals carry what they do behind the let that follows these; its build carries this.
pub(crate) fn bind<'a>(
    here: Here<'a, '_>,
    front: &[Let],
    made: Option<&'a Vector>,
    each: &Let,
    vectors: &mut [Option<&'a Vector>],
)
    requires makes { AreLeft (words.func_of here.own.now) here.block 1 (map words.make_of here.makes.now) }
    requires made { option_map_or (λ v. v.now) made [] ≡ make_of (words.func_of here.own.now).makes here.block (suc (length front.now)) }
    requires told { map (λ o. option_map_or (λ v. v.now) o []) vectors.old
        ≡ listed (length vectors.old) (vectors_at here.licence.now.code.types here.licence.now.cert (words.func_of here.own.now)
        here.block (map let_of front.now)) }
    ensures count { length vectors.new ≡ length vectors.old }
    ensures told { map (λ o. option_map_or (λ v. v.now) o []) vectors.new
        ≡ listed (length vectors.old) (vectors_at here.entry.licence.now.code.types here.entry.licence.now.cert (words.func_of here.entry.own.now)
        here.entry.block (map let_of front.now ++ let_of each.now ∷ [])) }
{
    match source_in(here, made, &each.op) {
        Some(Source::Local(other)) => {
            let vector = carried_by(here, front, vectors, other);
            put(vectors, each.target, vector);
        }
        Some(Source::Told(vector)) => put(vectors, each.target, vector),
        None => {}
    }
}
