ghost use Rattle.std.specs.Prelude.{IfSome, string_bytes};
ghost use Rattle.tcap_certificate.specs.Certificate.{Certificate as Meant};
ghost use Rattle.tcap_certificate_text.specs.CertificateText.{IsCertificateText};

use std::alloc::Global;
use tcap_certificate::Certificate;
use tcap_certificate_text::CertificateText;

/// Reads a certificate and writes it again, without spaces. Returns `None` if `text` is no certificate, or if memory
/// runs out.
pub fn written_again(alloc: Global, text: &[u8]) -> Option<String>
    // Both texts mean the same certificate.
    ensures same { IfSome result (λ again. (c : Meant) × IsCertificateText text.now c
        × IsCertificateText (string_bytes again) c) }
{
    let certificate = Certificate::from_json(alloc, text).ok()?;
    certificate.to_json(alloc).ok()
}
