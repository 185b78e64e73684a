ghost use Rattle.std.specs.Prelude.{◌≡◌};
ghost use Rattle.hex.specs.Hex.{IsBytes};
ghost use Rattle.grail_bundle.specs.Bundles.{HasParts};

use std::marker::Model;

/// Grail code with a certificate of its heap bounds: the code's spelling in bytes, and the certificate's text.
#[derive(Drop)]
pub struct Bundle {
    code: Vec<u8>,
    cert: Vec<u8>,
}

impl Model for Bundle {
    ghost use Rattle.grail_bundle.specs.Bundles.{Bundle as Plain, HasParts};

    ghost Value = { Plain };

    ghost view = { λ b. record { code = b.code.items; cert = b.cert.items } };

    ghost invariant = { λ b. HasParts (record { code = b.code.items; cert = b.cert.items }) };
}

// A list of bytes has no number above 255.
fn are_bytes(bytes: &[u8])
    ensures { IsBytes bytes.now }
{
    let _ = bytes;
}

impl Bundle {
    /// This code with this certificate: there is some code, and the certificate begins with its first line.
    pub fn new(code: Vec<u8>, cert: Vec<u8>) -> Bundle
        requires { HasParts (record { code = code.items; cert = cert.items }) }
        ensures { result ≡ record { code = code.items; cert = cert.items } }
    {
        Bundle { code, cert }
    }

    /// The bytes of the code.
    pub fn code(&self) -> &[u8]
        ensures { result.now ≡ self.now.code }
    {
        &self.code
    }

    /// The text of the certificate.
    pub fn cert(&self) -> &[u8]
        ensures { result.now ≡ self.now.cert }
    {
        &self.cert
    }

    /// The bytes of the code, and the text of the certificate.
    pub fn parts(self) -> (Vec<u8>, Vec<u8>)
        // The bytes of the code.
        ensures code { result.0.items ≡ self.code }
        // The text of the certificate.
        ensures cert { result.1.items ≡ self.cert }
    {
        (self.code, self.cert)
    }

    /// What the type keeps: there is some code, and the certificate begins with its first line. It does nothing; its
    /// clauses are what whoever holds a `Bundle` can use.
    pub fn kept(&self)
        // There is some code, and the certificate begins with its first line.
        ensures parts { HasParts self.now }
        // The code is bytes.
        ensures bytes { IsBytes self.now.code }
    {
        let _ = &self.code;
        are_bytes(self.code());
    }
}
