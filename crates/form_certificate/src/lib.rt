//! `prove` and `audit`: certificates of the costs of a scene, from the scene to the bytes that are written, and from the
//! bytes that are read to the answer.
#![tactic(auto)]

mod auditing;
mod laws;
mod proving;
mod size;

pub use auditing::audit_certificate;
pub use laws::certificates_come_to_one;
pub use proving::certificate_of;
pub use size::too_large;
