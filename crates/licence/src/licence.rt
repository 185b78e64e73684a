ghost use Rattle.std.specs.Prelude.{◌≡◌};
ghost use Rattle.grail_code.specs.Code.{code_of};
ghost use Rattle.grail_code.specs.WellFormed.{IsWellFormed};
ghost use Rattle.licence.specs.Fitting.{Grants};
ghost use Rattle.licence.specs.Licensed.{Licensed, IsLicensed};

use certificate::Cert;
use grail_code::Code;
use std::marker::Model;

/// Code with a certificate that grants it: well-formed code, whose runs all stay within the bounds that the certificate
/// says.
#[derive(Drop)]
pub struct Licence {
    code: Code,
    cert: Cert,
}

impl Model for Licence {
    ghost use Rattle.grail_code.specs.Code.{code_of};
    ghost use Rattle.licence.specs.Licensed.{Licensed, IsLicensed};

    ghost Value = { Licensed };

    ghost view = { λ l. record { code = code_of l.code; cert = l.cert } };

    ghost invariant = { λ l. IsLicensed (record { code = code_of l.code; cert = l.cert }) };
}

impl Licence {
    /// This code with this certificate, which grants it.
    pub fn seal(code: Code, cert: Cert) -> Licence
        requires well { IsWellFormed (code_of code) }
        requires grants { Grants (code_of code) cert }
        ensures { result ≡ record { code = code_of code; cert = cert } }
    {
        code.limits();
        cert.limits();
        Licence { code, cert }
    }

    /// The code.
    pub fn code(&self) -> &Code
        ensures { code_of result.now ≡ self.now.code }
    {
        &self.code
    }

    /// The certificate.
    pub fn cert(&self) -> &Cert
        ensures { result.now ≡ self.now.cert }
    {
        &self.cert
    }

    /// What the type keeps: the code is well formed and within the limits of code, and the certificate has its form and
    /// grants the code. It does nothing; its clause is what whoever holds a licence can use.
    pub fn kept(&self)
        ensures { IsLicensed self.now }
    {
        let _ = &self.code;
    }
}
