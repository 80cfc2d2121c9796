//! What an audit states.
ghost use Rattle.std.specs.Prelude.{◌≡◌};
ghost use Rattle.audit_check.specs.Statements.{statement_of};

use audit_check::Audit;
use std::marker::Model;

/// An audit that was read. In contracts it is what it states.
#[derive(Drop)]
pub(crate) struct StatedAudit {
    pub(crate) audit: Audit,
}

impl Model for StatedAudit {
    ghost use Rattle.audit_check.specs.Statements.{AuditStatement, statement_of};

    ghost Value = { AuditStatement };

    ghost view = { λ s. statement_of s.audit };
}

impl StatedAudit {
    /// The audit.
    pub(crate) fn audit(&self) -> &Audit
        ensures { statement_of result.now ≡ self.now }
    {
        &self.audit
    }

    /// For how many threads it states something.
    pub(crate) fn threads(&self) -> u32
        ensures { result ≡ self.now.setup.threads }
    {
        self.audit.setup.threads
    }
}
