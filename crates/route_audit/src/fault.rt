//! Why an audit says no.

use std::alloc::AllocError;
use thiserror::Error;

/// Why proofs do not prove a scene.
#[derive(Clone, Copy, Debug, PartialEq, Eq, Error)]
pub enum AuditFault {
    /// The first connector for which a rule fails, and the least such rule; edge 0 and rule 1 for a
    /// proof too many.
    #[error("rule {rule} fails for connector {edge}")]
    No { edge: u32, rule: u32 },
    /// Out of memory.
    #[error("out of memory")]
    Memory,
}

impl From<AllocError> for AuditFault {
    ghost use Rattle.std.specs.Prelude.{◌≡◌};
    ghost use Rattle.route_audit.specs.declared.fault.AuditFault.TheVariants.{Memory};

    ghost from_gives = { λ _ fault. fault ≡ Memory };

    fn from(_: AllocError) -> AuditFault {
        AuditFault::Memory
    }
}
