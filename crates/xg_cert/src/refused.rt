//! Why bytes aren't read.
ghost use Rattle.std.specs.Prelude.{◌≡◌};
ghost use Rattle.xg_cert.specs.declared.refused.CertRefused.TheVariants.{Cert, NoMemory};

use def_cert_text::CertFault;
use std::alloc::{AllocError, AllocFailed};
use std::fmt;

/// Why bytes aren't read as a certificate.
#[derive(Clone, Copy)]
pub enum CertRefused {
    /// The first fault of the bytes.
    Cert(CertFault),
    NoMemory,
}

// By hand, since a derived text takes long to prove. It names the variant alone.
impl fmt::Debug for CertRefused {
    fn fmt<W: fmt::Write>(&self, f: &mut fmt::Formatter<W>) -> fmt::Result {
        f.write_str(match self {
            CertRefused::Cert(_) => "Cert",
            CertRefused::NoMemory => "NoMemory",
        })
    }
}

impl From<CertFault> for CertRefused {
    ghost from_gives = { λ fault refused. refused ≡ Cert fault };

    fn from(fault: CertFault) -> CertRefused {
        CertRefused::Cert(fault)
    }
}

impl From<AllocError> for CertRefused {
    ghost from_gives = { λ _ refused. refused ≡ NoMemory };

    fn from(_error: AllocError) -> CertRefused {
        CertRefused::NoMemory
    }
}

impl<T: Drop> From<AllocFailed<T>> for CertRefused {
    ghost from_gives = { λ _ refused. refused ≡ NoMemory };

    fn from(_error: AllocFailed<T>) -> CertRefused {
        CertRefused::NoMemory
    }
}
