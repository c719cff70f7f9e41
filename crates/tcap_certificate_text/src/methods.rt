//! Methods of certificates that read and write their text.

ghost use Rattle.std.specs.Prelude.{◌≡◌, ◌≢◌, Ok, Err, IfOk, string_bytes};
ghost use Rattle.serde_json.specs.Written.{compact_text};
ghost use Rattle.tcap_certificate_text.specs.CertificateText.{IsCertificateText, certificate_data};
ghost use Rattle.tcap_certificate.specs.Certificate.{Certificate as Meant};
ghost use Rattle.tcap_certificate.specs.Replay.{fault_at};
ghost use Rattle.tcap_certificate.specs.declared.fault.CheckFault.{CheckFault};
ghost use Rattle.tcap_model.specs.declared.reason.Reason.TheVariants as reasons;

use crate::text::{from_json, to_json};
use std::alloc::{AllocError, Global};
use tcap_certificate::{Certificate, CheckFault};

/// A value that can be read from a JSON text and written as one.
pub trait CertificateText: Sized {
    /// Reads a value from a JSON text, as [`from_json`](crate::from_json) does.
    ///
    /// # Errors
    ///
    /// `CertificateShape` if the text is not a certificate, `Memory` if memory runs out, both with entry 0.
    fn from_json(alloc: Global, octets: &[u8]) -> Result<Self, CheckFault>;

    /// Writes this value as a JSON text, as [`to_json`](crate::to_json) does.
    ///
    /// # Errors
    ///
    /// `AllocError` if memory runs out.
    fn to_json(&self, alloc: Global) -> Result<String, AllocError>;
}

impl CertificateText for Certificate {
    fn from_json(alloc: Global, octets: &[u8]) -> Result<Certificate, CheckFault>
        ensures read { (c : Meant) → result ≡ Ok c → IsCertificateText octets.now c }
        ensures refused { (f : CheckFault) → result ≡ Err f → f ≢ fault_at reasons.Memory 0
            → (f ≡ fault_at reasons.CertificateShape 0) × ((c : Meant) → IsCertificateText octets.now c → ⊥) }
    {
        from_json(alloc, octets)
    }

    fn to_json(&self, alloc: Global) -> Result<String, AllocError>
        ensures text { IfOk result (λ text. string_bytes text ≡ compact_text (certificate_data self.now)) }
        ensures read_again { IfOk result (λ text. IsCertificateText (string_bytes text) self.now) }
    {
        to_json(alloc, self)
    }
}
