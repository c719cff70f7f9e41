//! Reads certificates from JSON, and writes them (RFC 8259).
#![tactic(auto)]

mod compact_reading;
pub mod laws;
mod methods;
mod text;

pub use methods::CertificateText;
pub use text::{from_json, to_json};
