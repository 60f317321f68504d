//! The laws of certificates, as the contract of a function with an empty body.
ghost use Rattle.form_certificate.specs.Auditing.{HaveOneAudit};
ghost use Rattle.form_certificate.specs.Proving.{HaveOneCertificate};

use proof_model::{least_labels_prove, one_audit};
use proof_text::read_once;
use walk_model::one_answer;

/// A scene has one certificate, and of given bytes an audit says one thing.
pub fn certificates_come_to_one()
    ensures certificate { HaveOneCertificate }
    ensures audit { HaveOneAudit }
{
    least_labels_prove();
    one_audit();
    read_once();
    one_answer();
}
