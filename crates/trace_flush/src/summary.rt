//! The text of a summary.

ghost use Rattle.std.specs.Prelude.{◌≡◌, length};
ghost use Rattle.trace_flush.specs.{Audit.{recycled_by, thread_audits}, Summary.{summary_text}};
ghost use Rattle.xray_io.specs.Text.{AddsText};

use crate::audit::{Detail, add_recycled, add_threads};
use crate::line::AuditLine;
use machine_step::Cpu;
use xray_io::{Sink, Text, WriteFault};

/// Adds a summary of a run whose threads have all ended: a line for each thread in order, and how
/// many segments were recycled.
pub fn add_summary<S: Sink>(
    text: &mut Text<S>,
    lines: &[AuditLine],
    cpus: &[Cpu],
) -> Result<(), WriteFault>
    requires { length lines.now ≡ length cpus.now }
    ensures { AddsText S.written S.faults S.along text.old text.new
        (summary_text (thread_audits lines.now cpus.now) (recycled_by lines.now)) result }
{
    add_threads(text, Detail::Summary, lines, cpus)?;
    add_recycled(text, lines)
}
