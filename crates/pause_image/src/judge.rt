ghost use Rattle.std.specs.Prelude.{IfOk};
ghost use Rattle.pause_image.specs.Judges.{IsJudgeOf};

use annotations::{ReachTable, Vector};
use frame_accounts::AccountTable;
use frame_locals::LocalTable;
use licence::Licence;
use std::alloc::{AllocError, Global};
use std::marker::Model;

/// What the images of a licence's runs are judged by, made once for the licence: for each function which locals are
/// owned, for each block whether it lends and where its lines stand, and for each type which constructors it reaches.
#[derive(Drop)]
pub struct ImageJudge {
    pub(crate) locals: LocalTable,
    pub(crate) accounts: AccountTable,
    pub(crate) reach: ReachTable,
    pub(crate) none: Vector,
}

impl Model for ImageJudge {
    ghost use Rattle.pause_image.specs.Judges.{JudgeView};

    ghost Value = { JudgeView };

    ghost view = { λ j. record { locals = j.locals; accounts = j.accounts; reach = j.reach; none = j.none } };
}

impl ImageJudge {
    /// What the images of this licence's runs are judged by. `AllocError` where memory runs out.
    pub fn new(alloc: Global, licence: &Licence) -> Result<ImageJudge, AllocError>
        // It is what the licence says.
        ensures { IfOk result (IsJudgeOf licence.now) }
    {
        let locals = LocalTable::new(alloc, licence.code())?;
        let accounts = AccountTable::new(alloc, licence)?;
        let reach = ReachTable::new(alloc, &licence.code().types)?;
        Ok(ImageJudge {
            locals,
            accounts,
            reach,
            none: Vector::none(alloc),
        })
    }
}
