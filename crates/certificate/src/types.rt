ghost use Rattle.std.specs.Prelude.{◌≡◌, map};

use annotations::Vector;
use camelot_values::Word;
use std::marker::Model;

/// A local, by its number, and the annotations of its value, which aren't zero.
#[derive(Drop)]
pub struct VarCert {
    pub var: u32,
    pub vector: Vector,
}

/// What is needed at the beginning of a block besides what its parameters carry, in units, and what these carry.
/// Parameters ascend; those without units aren't there.
#[derive(Drop)]
pub struct BlockCert {
    pub block: u32,
    pub need: u64,
    pub vars: Vec<VarCert>,
}

/// The annotations of what the build at this place of a block makes. Places count lets from 1.
#[derive(Drop)]
pub struct MakeCert {
    pub block: u32,
    pub place: u32,
    pub vector: Vector,
}

/// What a function needs besides what its arguments carry, and what it gives back besides what its result carries, in
/// units, and the annotations of parameters, result, blocks and builds. Each list ascends; what has no units isn't
/// there.
#[derive(Drop)]
pub struct FuncCert {
    pub name: Word,
    pub need: u64,
    pub back: u64,
    pub params: Vec<VarCert>,
    pub result: Vector,
    pub blocks: Vec<BlockCert>,
    pub makes: Vec<MakeCert>,
}

/// A certificate of linear heap bounds (Hofmann and Jost 2003): so many units are one cell, and what each function
/// needs.
#[derive(Drop)]
pub struct Cert {
    unit: u64,
    funcs: Vec<FuncCert>,
}

impl Model for Cert {
    ghost use Rattle.certificate.specs.Certificates as plain;
    ghost use Rattle.certificate.specs.Words.{cert_of};

    ghost Value = { plain.Cert };

    ghost view = { λ c. cert_of c.unit c.funcs.items };

    ghost invariant = { λ c. plain.IsCert (cert_of c.unit c.funcs.items) };
}

impl Cert {
    ghost use Rattle.certificate.specs.Certificates as plain;
    ghost use Rattle.certificate.specs.Words.{func_of, cert_of};

    /// The certificate of these functions, in the order and within the limits of certificates.
    pub fn new(unit: u64, funcs: Vec<FuncCert>) -> Cert
        requires { plain.IsCert (cert_of unit funcs.items) }
        ensures { result ≡ cert_of unit funcs.items }
    {
        Cert { unit, funcs }
    }

    /// How many units one cell is, from 1 to 2147483648.
    pub fn unit(&self) -> u64
        ensures { result ≡ self.now.unit }
    {
        self.unit
    }

    /// The functions in order.
    pub fn funcs(&self) -> &[FuncCert]
        ensures { map func_of result.now ≡ self.now.funcs }
    {
        &self.funcs
    }

    /// The order and the limits that the type keeps. It does nothing; its clause is what whoever holds a `Cert` can
    /// use.
    pub fn limits(&self)
        ensures { plain.IsCert self.now }
    {
        let _ = &self.funcs;
    }
}
