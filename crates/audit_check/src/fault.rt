//! Why bytes aren't an audit.

use fault_words::{Fault, Words};
use thiserror::Error;

/// Why `read_audit` gives no audit.
#[derive(Clone, Copy, Debug, PartialEq, Eq, Error)]
pub enum AuditFault {
    /// No audit begins with the lines up to this one, counted from 1. The lines before it begin one.
    /// If a line is missing, it is the one after the last. Bytes after the last line feed are a line,
    /// but no line of an audit.
    #[error("line {0} is no line of an audit")]
    Form(u32),
    /// Memory for the audit was refused.
    #[error("out of memory")]
    NoMemory,
}

/// A refused allocation ends the reading.
impl<E: Into<xray_io::NoMemory> + Drop> From<E> for AuditFault {
    ghost use Rattle.std.specs.Prelude.{◌≡◌};
    ghost use Rattle.audit_check.specs.declared.fault.AuditFault.TheVariants as faults;

    ghost from_gives = { λ _ fault. fault ≡ faults.NoMemory };

    fn from(_error: E) -> AuditFault {
        AuditFault::NoMemory
    }
}

impl Fault for AuditFault {
    ghost use Rattle.audit_check.specs.Texts.{audit_words};

    ghost told = { audit_words };

    fn refusal(&self) -> Option<Words<'static>> {
        match *self {
            AuditFault::Form(line) => Some(Words::numbered(b"Form ", line)),
            AuditFault::NoMemory => None,
        }
    }
}
