ghost use Rattle.std.specs.Prelude.{◌≡◌, ◌+◌, ◌<◌, ◌≤◌, ◌++◌, ◌∷◌, [], length, slice_get, Some, IsSomeAnd, MatchResult, IfOk};
ghost use Rattle.camelot_values.specs.Counts.{cells_among, size_all};
ghost use Rattle.camelot_values.specs.Value.{parts};
ghost use Rattle.licence.specs.Bound.{bound, lease};
ghost use Rattle.licence.specs.Licensed.{Licensed, IsLicensed};
ghost use Rattle.job_world.specs.Asking.{CanPlan, IsCall, IsLarger, NeedsOf};
ghost use Rattle.job_world.specs.Plans.{AreFit, Planned, leases_of};
ghost use Rattle.job_world.specs.Words.{plan_of, IsCounted};

use crate::call::Call;
use crate::fault::AddFault;
use crate::plan::Plan;
use camelot_values::Flat;
use cell_machine::cells_of;
use licence::{Licence, Needs};
use std::alloc::{AllocError, Global};
use std::marker::Model;

/// Licences, and plans of runs that fit them.
#[derive(Drop)]
pub struct Jobs {
    licences: Vec<Licence>,
    plans: Vec<Plan>,
}

impl Model for Jobs {
    ghost use Rattle.job_world.specs.Plans.{AreFit, Planned};
    ghost use Rattle.job_world.specs.Words.{planned, AreCounted};
    ghost use Rattle.job_world.specs.Codes.{planned_code};

    ghost Value = { Planned };

    ghost coded = { planned_code };

    ghost view = { λ j. planned j.licences.items j.plans.items };

    // each plan fits its licence, and has the number of cells of its arguments
    ghost invariant = { λ j. AreFit (planned j.licences.items j.plans.items) × AreCounted j.licences.items j.plans.items };
}

// How many cells the arguments take: what the lease has beyond the bound, unless it is the one cell that each lease has.
#[tactic(auto, using(crate::proofs::Counting::bound_within, crate::proofs::Counting::cells_left))]
fn cells_beyond(licence: &Licence, entry: u32, args: &[Flat], needs: Needs) -> u32
    requires few_nodes { size_all (parts args.now) ≤ 65536 }
    requires bounded { needs.bound ≡ bound licence.now.code licence.now.cert entry args.now }
    requires leased { needs.lease ≡ lease licence.now.code licence.now.cert entry args.now }
    requires few { needs.lease ≤ 2147483648 }
    ensures { result ≡ cells_among licence.now.code.types args.now }
{
    let _ = entry;
    if needs.lease > 1 {
        (needs.lease - needs.bound) as u32
    } else {
        cells_of(&licence.code().types, args)
    }
}

impl Jobs {
    /// No plans yet, of these licences.
    pub fn new(alloc: Global, licences: Vec<Licence>) -> Jobs
        ensures { result ≡ record { licences = licences.items; plans = [] } }
    {
        Jobs {
            licences,
            plans: Vec::new(alloc),
        }
    }

    /// Makes room for so many more plans. `AllocError` where memory runs out.
    pub fn reserve(&mut self, more: usize) -> Result<(), AllocError>
        // Nothing is planned.
        ensures { self.new ≡ self.old }
    {
        self.plans.reserve(more)
    }

    /// The licences.
    pub fn licences(&self) -> &[Licence]
        ensures { result.now ≡ self.now.licences }
    {
        &self.licences
    }

    /// How many plans there are.
    pub fn count(&self) -> usize
        ensures { result ≡ length self.now.plans }
    {
        self.plans.len()
    }

    /// What the type keeps: each plan fits a licence, which is well-formed code with a certificate that grants it. It
    /// does nothing; its clause is what whoever holds plans can use.
    pub fn kept(&self)
        ensures { AreFit self.now }
    {
        let _ = &self.plans;
    }

    /// Plans a run for an arena of so many cells, at most 2^31, and answers its number: the run of an entry of the
    /// licence of this number on arguments of its kinds, which have at most 65,536 nodes, with so much fuel, at least
    /// 1.
    ///
    /// # Errors
    ///
    /// [`AddFault::Larger`] exactly where the lease is more than the arena, with the lease. [`AddFault::Memory`] where
    /// memory runs out. Nothing is planned then.
    pub fn add(
        &mut self,
        licence: u32,
        entry: u32,
        args: Vec<Flat>,
        fuel: u64,
        arena: u32,
    ) -> Result<u32, AddFault>
        requires can { CanPlan self.old.licences licence entry args.items fuel }
        requires arena { arena ≤ 2147483648 }
        requires few { length self.old.plans < 4294967295 }
        // Where it is planned, its number is the next one, and its lease is the licence's, within the arena.
        ensures planned { IfOk result (λ job. (l : Licensed) → slice_get self.old.licences licence ≡ Some l
            → (job ≡ length self.old.plans) × (lease l.code l.cert entry args.items ≤ arena)
            × (self.new.plans ≡ self.old.plans
            ++ record {
              licence = licence;
              entry = entry;
              args = args.items;
              fuel = fuel;
              lease = lease l.code l.cert
                  entry args.items;
            } ∷ [])) }
        // Where it is planned the licences stay. Else all stays, and `Larger` has the lease, which is more than the
        // arena.
        ensures refused { MatchResult result (λ job. self.new.licences ≡ self.old.licences)
            (λ fault. (self.new ≡ self.old) × IsLarger self.old.licences licence entry args.items arena fault) }
    {
        let needs = self.needs_of(licence, entry, &args);
        let call = Call {
            licence,
            entry,
            args,
            needs,
            fuel,
        };
        self.add_call(call, arena)
    }

    /// Plans a call as [`Jobs::add`] plans that of its parts. The call has its bound and its lease already, so that the
    /// arguments aren't walked once more.
    ///
    /// # Errors
    ///
    /// Those of [`Jobs::add`].
    pub fn add_call(&mut self, call: Call, arena: u32) -> Result<u32, AddFault>
        requires call { IsCall self.old.licences call }
        requires arena { arena ≤ 2147483648 }
        requires few { length self.old.plans < 4294967295 }
        // Where it is planned, its number is the next one, and its lease is the licence's, within the arena.
        ensures planned { IfOk result (λ job. (l : Licensed) → slice_get self.old.licences call.licence ≡ Some l
            → (job ≡ length self.old.plans) × (lease l.code l.cert call.entry call.args.items ≤ arena)
            × (self.new.plans ≡ self.old.plans
            ++ record {
              licence = call.licence;
              entry = call.entry;
              args = call.args.items;
              fuel = call.fuel;
              lease = lease l.code l.cert
                  call.entry call.args.items;
            } ∷ [])) }
        // Where it is planned the licences stay. Else all stays, and `Larger` has the lease, which is more than the
        // arena.
        ensures refused { MatchResult result (λ job. self.new.licences ≡ self.old.licences)
            (λ fault. (self.new ≡ self.old) × IsLarger self.old.licences call.licence call.entry call.args.items arena fault) }
    {
        let Call {
            licence,
            entry,
            args,
            needs,
            fuel,
        } = call;
        self.licensed(licence, entry, &args);
        if needs.lease > arena as u64 {
            return Err(AddFault::Larger { needs: needs.lease });
        }
        let job = self.plans.len() as u32;
        let cells = self.cells_in(licence, entry, &args, needs);
        let plan = Plan {
            licence,
            entry,
            args,
            cells,
            fuel,
            lease: needs.lease as u32,
        };
        match self.plans.push(plan) {
            Ok(()) => Ok(job),
            Err(_) => Err(AddFault::Memory),
        }
    }

    // The bound and the lease that the licence of this number says.
    fn needs_of(&self, licence: u32, entry: u32, args: &[Flat]) -> Needs
        requires can { NeedsOf self.now.licences licence entry args.now }
        ensures bound { (l : Licensed) → slice_get self.now.licences licence ≡ Some l → result.bound ≡ bound l.code l.cert entry args.now }
        ensures lease { (l : Licensed) → slice_get self.now.licences licence ≡ Some l → result.lease ≡ lease l.code l.cert entry args.now }
    {
        let licence = &self.licences[licence as usize];
        licence.kept();
        licence.needs(entry, args)
    }

    // How many cells the arguments take, by the needs of a run on them.
    fn cells_in(&self, licence: u32, entry: u32, args: &[Flat], needs: Needs) -> u32
        requires can { NeedsOf self.now.licences licence entry args.now }
        requires bounded { (l : Licensed) → slice_get self.now.licences licence ≡ Some l → needs.bound ≡ bound l.code l.cert entry args.now }
        requires leased { (l : Licensed) → slice_get self.now.licences licence ≡ Some l → needs.lease ≡ lease l.code l.cert entry args.now }
        requires few { needs.lease ≤ 2147483648 }
        ensures { (l : Licensed) → slice_get self.now.licences licence ≡ Some l → result ≡ cells_among l.code.types args.now }
    {
        let licence = &self.licences[licence as usize];
        cells_beyond(licence, entry, args, needs)
    }

    // The licence of this number is one by its type. It does nothing.
    fn licensed(&self, licence: u32, entry: u32, args: &[Flat])
        requires can { NeedsOf self.now.licences licence entry args.now }
        ensures { IsSomeAnd (slice_get self.now.licences licence) IsLicensed }
    {
        let _ = entry;
        let _ = args;
        self.licences[licence as usize].kept();
    }

    /// The sizes of the plans' leases, in order. `AllocError` where memory runs out.
    #[tactic(auto, using(crate::proofs::Sizing::size_more, crate::proofs::Sizing::all_sizes))]
    pub fn sizes(&self, alloc: Global) -> Result<Vec<u32>, AllocError>
        ensures { IfOk result (λ sizes. sizes.items ≡ leases_of self.now.plans) }
    {
        let mut sizes = Vec::with_capacity(alloc, self.plans.len())?;
        'plans: for plan in &self.plans {
            sizes.push(plan.lease)?;
        }
        Ok(sizes)
    }

    /// The plan of this number. It takes no memory.
    #[tactic(auto, using(crate::proofs::Counting::counted_at))]
    pub fn plan(&self, job: u32) -> &Plan
        requires { job < length self.now.plans }
        // It is the plan of this number.
        ensures is { slice_get self.now.plans job ≡ Some (plan_of result.now) }
        // Its number of cells is that of its arguments.
        ensures counted { IsCounted self.now.licences result.now }
    {
        &self.plans[job as usize]
    }

    /// The licence of the plan of this number. It takes no memory.
    #[tactic(auto, using(crate::proofs::Fitting::licence_there, crate::proofs::Fitting::licence_is))]
    pub fn licence(&self, job: u32) -> &Licence
        requires { job < length self.now.plans }
        ensures is { IsSomeAnd (slice_get self.now.plans job) (λ p. slice_get self.now.licences p.licence ≡ Some result.now) }
    {
        let plan = self.plan(job);
        &self.licences[plan.licence as usize]
    }
}
