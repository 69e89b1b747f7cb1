ghost use Rattle.std.specs.Prelude.{◌≡◌};

use crate::named::Named;
use std::marker::Model;

/// A string of digits, of which 1 is `true`. Contracts see it as their list. (Own.)
#[derive(Drop)]
pub struct Digits {
    digits: Vec<bool>,
}

impl Model for Digits {
    ghost use Rattle.std.specs.Prelude.{Bool, List};

    ghost Value = { List Bool };

    ghost view = { λ d. d.digits.items };
}

impl Digits {
    /// The string of these digits.
    pub fn new(digits: Vec<bool>) -> Digits
        ensures { result ≡ digits.items }
    {
        Digits { digits }
    }

    /// The digits.
    pub fn as_slice(&self) -> &[bool]
        ensures { result.now ≡ self.now }
    {
        self.digits.as_slice()
    }
}

/// A certificate of a ray: the hit that it names, if any, and for each active instance whose mask
/// is seen a string of digits, which says which leaves of its structure's stated tree have to be
/// tested so that nothing else can be hit sooner (`Supports` of `specs/Certificates`). (Own.)
#[derive(Drop)]
pub struct Cert {
    named: Option<Named>,
    strings: Vec<Digits>,
}

impl Model for Cert {
    ghost use Rattle.ray_cert.specs.Certificates.{CertValue};

    ghost Value = { CertValue };

    ghost view = { λ c. record { named = c.named; strings = c.strings.items } };
}

impl Cert {
    /// The certificate that names this, with these strings, whatever they say.
    pub fn new(named: Option<Named>, strings: Vec<Digits>) -> Cert
        ensures { result ≡ record { named = named; strings = strings.items } }
    {
        Cert { named, strings }
    }

    /// The hit that it names. None exactly where it names none.
    pub fn named(&self) -> Option<Named>
        ensures { result ≡ self.now.named }
    {
        self.named
    }

    /// Its strings, in rising number of their instances.
    pub fn strings(&self) -> &[Digits]
        ensures { result.now ≡ self.now.strings }
    {
        self.strings.as_slice()
    }
}
