ghost use Rattle.std.specs.Prelude.{◌≡◌, ℕ, ◌<◌, List, Some, length, map, MatchResult};
ghost use Rattle.std.specs.Option.{option_map};
ghost use Rattle.text_lines.specs.Cuts.{and_then};
ghost use Rattle.stops.specs.Stopping.{FaultIs, IsFault};
ghost use Rattle.stops.specs.declared.stop.Stop.TheVariants.{Memory};
ghost use Rattle.job_script.specs.Scripts.{IsUpTo};
ghost use Rattle.job_script.specs.Heads.{job_view};
ghost use Rattle.job_script.specs.Reading.{IsRead, IsStopped, program_of};
ghost use Rattle.tenant_script.specs.Tenants.{TenantScript as PlainScript};
ghost use Rattle.tenant_script.specs.Text.{tenants_format, IsTenantsText, IsLineFault, IsCountFault, IsRepeatFault, IsTenantFault};
ghost use Rattle.tenant_script.specs.Reading.{HProgram, HStart, HFinish, as_program, tenant_of, start_of, finish_of, head_of, step, tenants_machine};
ghost use Rattle.tenant_script.specs.StateLaws.{tenants_shows};
ghost use Rattle.tenant_script.specs.Words.{tenant_view, script_view};
ghost use Rattle.tenant_script.specs.Answers.{HasCause};
ghost use Rattle.tenant_script.specs.Parts.{kind_of, kinds, state_of, with_tenant, IsReady, IsBefore, LineIs, HasSize, HasOnlyTenants};
ghost use Rattle.tenant_script.specs.declared.fault.TenantFault.TheVariants as fault;
ghost use Rattle.tenant_script.specs.declared.reading.Stage.TheVariants as stage;

use super::fault::{Kind, TenantFault, fault_at, refused};
use super::types::{Tenant, TenantEntry, TenantScript};
use job_script::{
    Head, JobLine, KnownNames, Language, LineStop, add_name, is_word, read_job, read_program,
    read_sized,
};
use std::alloc::Global;
use stops::Stop;
use text_lines::{Halt, LineReader, Refused, behind, cut, next_word, read_lines};

/// The most cells of an arena.
const MOST_ARENA: u64 = 4_194_304;

/// The most tenants of a script.
const MOST_TENANTS: usize = 64;

/// The most programs of a script.
const MOST_PROGRAMS: usize = 64;

/// The most starts of a script.
const MOST_STARTS: u32 = 4096;

/// The most finishes of a script.
const MOST_FINISHES: u32 = 4096;

// Where the reader is.
#[derive(Clone, Copy)]
pub(crate) enum Stage<'a> {
    // before the first line
    Start,
    // behind the arena's
    Sized,
    // behind a tenant, a program, a start or a finish
    Between,
    // in the text of a program, of which so many bytes of this block were read
    Inside {
        name: &'a [u8],
        language: Language,
        block: &'a [u8],
        size: usize,
    },
}

// What was read of a tenant script.
#[derive(Drop)]
pub(crate) struct TenantReader<'a> {
    pub(crate) stage: Stage<'a>,
    pub(crate) arena: u32,
    // the cells of the arena that no tenant has
    pub(crate) left: u32,
    pub(crate) tenants: Vec<Tenant<'a>>,
    pub(crate) items: Vec<TenantEntry<'a>>,
    pub(crate) names: KnownNames<'a>,
    // the names of programs, with that of the one whose text is read
    pub(crate) programs: KnownNames<'a>,
    pub(crate) starts: u32,
    pub(crate) finishes: u32,
}

// What is behind the word `tenant` of a line.
fn read_budget(rest: &[u8]) -> Result<Tenant<'_>, LineStop>
    ensures { MatchResult result (λ tenant. IsRead (tenant_of rest.now) HasSize (tenant_view tenant)) (λ stop. IsStopped (tenant_of rest.now) HasSize stop) }
{
    let Some((name, _left)) = next_word(rest) else {
        return Err(LineStop::Line);
    };
    if !is_word(name) {
        return Err(LineStop::Line);
    }
    match read_sized(behind(rest), name, MOST_ARENA) {
        Ok(cells) => Ok(Tenant {
            name,
            cells: cells as u32,
        }),
        Err(stop) => Err(stop),
    }
}

impl<'a> TenantReader<'a> {
    // At the start of a text.
    fn new(alloc: Global) -> TenantReader<'a>
        ensures start { state_of result ≡ tenants_machine.start }
        ensures ready { (text : List ℕ) → IsReady result text }
    {
        TenantReader {
            stage: Stage::Start,
            arena: 0,
            left: 0,
            tenants: Vec::new(alloc),
            items: Vec::new(alloc),
            names: KnownNames::new(alloc),
            programs: KnownNames::new(alloc),
            starts: 0,
            finishes: 0,
        }
    }

    // The line of the arena.
    fn read_arena(&mut self, line: &'a [u8], after: &'a [u8]) -> Result<(), Refused<Kind>>
        requires stage { self.old.stage ≡ stage.Start }
        requires before { IsBefore self.old line.now after.now }
        ensures { LineIs self.old self.new line.now after.now result }
    {
        match read_sized(line, b"arena", MOST_ARENA) {
            Ok(arena) => {
                self.arena = arena as u32;
                self.left = arena as u32;
                self.stage = Stage::Sized;
                Ok(())
            }
            Err(stop) => Err(refused(stop)),
        }
    }

    // The line of a tenant, of which this is behind the first word.
    fn add_tenant(
        &mut self,
        line: &'a [u8],
        after: &'a [u8],
        rest: &'a [u8],
    ) -> Result<(), Refused<Kind>>
        requires before { IsBefore self.old line.now after.now }
        requires tenants { HasOnlyTenants self.old }
        requires step { step (state_of self.old) line.now ≡ option_map (with_tenant self.old) (tenant_of rest.now) }
        ensures { LineIs self.old self.new line.now after.now result }
    {
        let tenant = match read_budget(rest) {
            Ok(tenant) => tenant,
            Err(stop) => return Err(refused(stop)),
        };
        if tenant.cells > self.left {
            return Err(Refused::Kind(Kind::Count));
        }
        match add_name(&mut self.names, MOST_TENANTS, tenant.name) {
            Ok(()) => {}
            Err(stop) => return Err(refused(stop)),
        }
        let Ok(()) = self.tenants.push(tenant) else {
            return Err(Refused::Memory);
        };
        self.left -= tenant.cells;
        self.stage = Stage::Between;
        Ok(())
    }

    // The first line of a program of this name.
    fn open_program(
        &mut self,
        line: &'a [u8],
        after: &'a [u8],
        name: &'a [u8],
        language: Language,
    ) -> Result<(), Refused<Kind>>
        requires stage { self.old.stage ≡ stage.Between }
        requires before { IsBefore self.old line.now after.now }
        requires head { head_of line.now ≡ Some (HProgram name.now language) }
        ensures { LineIs self.old self.new line.now after.now result }
    {
        match add_name(&mut self.programs, MOST_PROGRAMS, name) {
            Ok(()) => {}
            Err(stop) => return Err(refused(stop)),
        }
        self.stage = Stage::Inside {
            name,
            language,
            block: after,
            size: 0,
        };
        Ok(())
    }

    // The first line of a program, of which this is behind the first word.
    fn add_program(
        &mut self,
        line: &'a [u8],
        after: &'a [u8],
        rest: &'a [u8],
    ) -> Result<(), Refused<Kind>>
        requires stage { self.old.stage ≡ stage.Between }
        requires before { IsBefore self.old line.now after.now }
        requires head { head_of line.now ≡ and_then (program_of rest.now) as_program }
        ensures { LineIs self.old self.new line.now after.now result }
    {
        match read_program(rest) {
            Ok(Head::Program { name, language }) => self.open_program(line, after, name, language),
            Ok(Head::Job(_)) => Err(Refused::Kind(Kind::Line)),
            Err(stop) => Err(refused(stop)),
        }
    }

    // The start of a job of this tenant.
    fn add_job(
        &mut self,
        line: &'a [u8],
        after: &'a [u8],
        tenant: &'a [u8],
        job: &JobLine<'a>,
    ) -> Result<(), Refused<Kind>>
        requires stage { self.old.stage ≡ stage.Between }
        requires before { IsBefore self.old line.now after.now }
        requires head { head_of line.now ≡ Some (HStart tenant.now (job_view job.now)) }
        requires fuel { IsUpTo 1099511627776 job.now.fuel }
        ensures { LineIs self.old self.new line.now after.now result }
    {
        if self.starts >= MOST_STARTS {
            return Err(Refused::Kind(Kind::Count));
        }
        if !self.names.has(tenant) {
            return Err(Refused::Kind(Kind::Tenant));
        }
        let entry = TenantEntry::Start {
            tenant,
            name: job.name,
            program: job.program,
            entry: job.entry,
            fuel: job.fuel,
            args: job.args,
        };
        let Ok(()) = self.items.push(entry) else {
            return Err(Refused::Memory);
        };
        self.starts += 1;
        Ok(())
    }

    // The line of a start, of which this is behind the first word.
    fn add_start(
        &mut self,
        line: &'a [u8],
        after: &'a [u8],
        rest: &'a [u8],
    ) -> Result<(), Refused<Kind>>
        requires stage { self.old.stage ≡ stage.Between }
        requires before { IsBefore self.old line.now after.now }
        requires head { head_of line.now ≡ start_of rest.now }
        ensures { LineIs self.old self.new line.now after.now result }
    {
        let Some((tenant, call)) = next_word(rest) else {
            return Err(Refused::Kind(Kind::Line));
        };
        if !is_word(tenant) {
            return Err(Refused::Kind(Kind::Line));
        }
        match read_job(call) {
            Ok(Head::Job(job)) => self.add_job(line, after, tenant, &job),
            Ok(
                Head::Program {
                    name: _,
                    language: _,
                },
            ) => Err(Refused::Kind(Kind::Line)),
            Err(stop) => Err(refused(stop)),
        }
    }

    // The end of the job of this name and tenant.
    fn add_end(
        &mut self,
        line: &'a [u8],
        after: &'a [u8],
        tenant: &'a [u8],
        name: &'a [u8],
    ) -> Result<(), Refused<Kind>>
        requires stage { self.old.stage ≡ stage.Between }
        requires before { IsBefore self.old line.now after.now }
        requires head { head_of line.now ≡ Some (HFinish tenant.now name.now) }
        ensures { LineIs self.old self.new line.now after.now result }
    {
        if self.finishes >= MOST_FINISHES {
            return Err(Refused::Kind(Kind::Count));
        }
        if !self.names.has(tenant) {
            return Err(Refused::Kind(Kind::Tenant));
        }
        let Ok(()) = self.items.push(TenantEntry::Finish { tenant, name }) else {
            return Err(Refused::Memory);
        };
        self.finishes += 1;
        Ok(())
    }

    // The line of a finish, of which this is behind the first word.
    fn add_finish(
        &mut self,
        line: &'a [u8],
        after: &'a [u8],
        rest: &'a [u8],
    ) -> Result<(), Refused<Kind>>
        requires stage { self.old.stage ≡ stage.Between }
        requires before { IsBefore self.old line.now after.now }
        requires head { head_of line.now ≡ finish_of rest.now }
        ensures { LineIs self.old self.new line.now after.now result }
    {
        let Some((tenant, left)) = next_word(rest) else {
            return Err(Refused::Kind(Kind::Line));
        };
        if !is_word(tenant) {
            return Err(Refused::Kind(Kind::Line));
        }
        let name = behind(left);
        if !is_word(name) {
            return Err(Refused::Kind(Kind::Line));
        }
        self.add_end(line, after, tenant, name)
    }

    // The line behind the arena's.
    #[tactic(auto, using(crate::proofs::Taking::only_first))]
    fn read_first(&mut self, line: &'a [u8], after: &'a [u8]) -> Result<(), Refused<Kind>>
        requires stage { self.old.stage ≡ stage.Sized }
        requires before { IsBefore self.old line.now after.now }
        ensures { LineIs self.old self.new line.now after.now result }
    {
        let (tag, rest) = cut(line, b' ');
        if tag != b"tenant".as_slice() {
            return Err(Refused::Kind(Kind::Line));
        }
        self.add_tenant(line, after, rest)
    }

    // A line behind a tenant or an entry.
    #[tactic(auto, using(crate::proofs::Taking::only_further))]
    fn read_entry(&mut self, line: &'a [u8], after: &'a [u8]) -> Result<(), Refused<Kind>>
        requires stage { self.old.stage ≡ stage.Between }
        requires before { IsBefore self.old line.now after.now }
        ensures { LineIs self.old self.new line.now after.now result }
    {
        let (tag, rest) = cut(line, b' ');
        if tag == b"start".as_slice() {
            return self.add_start(line, after, rest);
        }
        if tag == b"finish".as_slice() {
            return self.add_finish(line, after, rest);
        }
        if tag == b"program".as_slice() {
            return self.add_program(line, after, rest);
        }
        if tag != b"tenant".as_slice() {
            return Err(Refused::Kind(Kind::Line));
        }
        if !self.items.is_empty() {
            return Err(Refused::Kind(Kind::Line));
        }
        self.add_tenant(line, after, rest)
    }

    // A line of a program's text, or the one that ends it.
    fn read_text(
        &mut self,
        line: &'a [u8],
        after: &'a [u8],
        name: &'a [u8],
        language: Language,
        block: &'a [u8],
        size: usize,
    ) -> Result<(), Refused<Kind>>
        requires stage { self.old.stage ≡ stage.Inside name language block size }
        requires before { IsBefore self.old line.now after.now }
        ensures { LineIs self.old self.new line.now after.now result }
    {
        if line != b".".as_slice() {
            self.stage = Stage::Inside {
                name,
                language,
                block,
                size: size + line.len() + 1,
            };
            return Ok(());
        }
        let (text, _rest) = block.split_at(size);
        let entry = TenantEntry::Program {
            name,
            language,
            text,
        };
        let Ok(()) = self.items.push(entry) else {
            return Err(Refused::Memory);
        };
        self.stage = Stage::Between;
        Ok(())
    }

    // One more line.
    fn read_line(&mut self, line: &'a [u8], after: &'a [u8]) -> Result<(), Refused<Kind>>
        requires before { IsBefore self.old line.now after.now }
        ensures { LineIs self.old self.new line.now after.now result }
    {
        match self.stage {
            Stage::Start => self.read_arena(line, after),
            Stage::Sized => self.read_first(line, after),
            Stage::Between => self.read_entry(line, after),
            Stage::Inside {
                name,
                language,
                block,
                size,
            } => self.read_text(line, after, name, language, block, size),
        }
    }
}

impl<'a> LineReader<'a> for TenantReader<'a> {
    type Kind = Kind;

    ghost format = { tenants_format };

    ghost machine = { tenants_machine };

    ghost shows = { tenants_shows };

    ghost kind_of = { kind_of };

    ghost kinds = { kinds };

    ghost state = { state_of };

    ghost ready = { IsReady };

    fn line(&mut self, line: &'a [u8], after: &'a [u8]) -> Result<(), Refused<Kind>> {
        match self.read_line(line, after) {
            Ok(()) => Ok(()),
            Err(stop) => Err(stop),
        }
    }

    fn may_end(&self) -> bool {
        match self.stage {
            Stage::Between => true,
            _ => false,
        }
    }

    fn no_form(&self) -> Kind {
        Kind::Line
    }
}

// The tenant script of the text, or why there is none.
fn read_whole(alloc: Global, bytes: &[u8]) -> Result<TenantScript<'_>, Stop<TenantFault>>
    requires { length bytes.now < 4294967296 }
    ensures { MatchResult result (λ script. IsTenantsText bytes.now (script_view script)) (λ stop. FaultIs (HasCause bytes.now) stop) }
{
    let mut reader = TenantReader::new(alloc);
    match read_lines(&mut reader, bytes) {
        Ok(()) => Ok(TenantScript {
            arena: reader.arena,
            tenants: reader.tenants,
            items: reader.items,
        }),
        Err(Halt::Fault { kind, line }) => Err(Stop::Fault(fault_at(kind, line))),
        Err(Halt::Memory) => Err(Stop::Memory),
    }
}

/// Reads the text of a tenant script, in time that is linear in its bytes. `Ok` comes exactly where the text is a tenant
/// script's, and is this script, within its limits, with no name twice, and with each start and finish of one of its
/// tenants. `Line` comes exactly at the first line that has no form, `Count` exactly at the first that has one but is
/// beyond a limit, `Repeat` exactly at the first that only repeats a name, and `Tenant` exactly at the first that is
/// only of no tenant. [`Stop::Memory`] where memory runs out. The script's names and texts are parts of the text.
#[tactic(auto, using(crate::proofs::Answering::script_same))]
pub fn read_tenants(alloc: Global, bytes: &[u8]) -> Result<TenantScript<'_>, Stop<TenantFault>>
    // The text has fewer than 2^32 bytes.
    requires { length bytes.now < 4294967296 }
    // What is answered is so: the text is this script's, or it has this fault.
    ensures found { MatchResult result (λ script. IsTenantsText bytes.now (script_view script)) (λ stop. FaultIs (HasCause bytes.now) stop) }
    // The text of a script is read as this script, unless memory runs out.
    ensures read { (script : PlainScript) → IsTenantsText bytes.now script → MatchResult result (λ found. script_view found ≡ script) (λ stop. stop ≡ Memory) }
    // The first line without a form is told, unless memory runs out.
    ensures line { (line : ℕ) → IsLineFault bytes.now line → MatchResult result (λ found. ⊥) (λ stop. IsFault (fault.Line line) stop) }
    // So is the first line beyond a limit.
    ensures count { (line : ℕ) → IsCountFault bytes.now line → MatchResult result (λ found. ⊥) (λ stop. IsFault (fault.Count line) stop) }
    // So is the first line that repeats a name.
    ensures repeat { (line : ℕ) → IsRepeatFault bytes.now line → MatchResult result (λ found. ⊥) (λ stop. IsFault (fault.Repeat line) stop) }
    // So is the first line of a tenant that isn't there.
    ensures tenant { (line : ℕ) → IsTenantFault bytes.now line → MatchResult result (λ found. ⊥) (λ stop. IsFault (fault.Tenant line) stop) }
{
    match read_whole(alloc, bytes) {
        Ok(script) => Ok(script),
        Err(stop) => Err(stop),
    }
}
