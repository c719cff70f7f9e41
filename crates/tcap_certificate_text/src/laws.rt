//! Laws of the text of a certificate. Each function has an empty body, and its contract is the law.

ghost use Rattle.std.specs.Prelude.{◌≡◌, Some};
ghost use Rattle.serde_json.specs.Data.{Data};
ghost use Rattle.tcap_certificate.specs.Certificate.{Certificate};
ghost use Rattle.tcap_certificate_text.specs.CertificateText.{certificate_data, certificate_in};
ghost use Rattle.tcap_certificate.specs.Certificate.{IsInLimits};

/// Shows that the data written for a certificate represents this certificate.
pub fn what_is_written_is_read()
    ensures { (c : Certificate) → IsInLimits c → certificate_in (certificate_data c) ≡ Some c }
{}

/// Shows that a certificate that data represents is within the limits.
pub fn what_is_read_is_in_limits()
    ensures { (d : Data) (c : Certificate) → certificate_in d ≡ Some c → IsInLimits c }
{}
