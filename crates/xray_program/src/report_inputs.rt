//! The inputs of a report on a log, which is a trace.
ghost use Rattle.command_words.specs.Views.{source_view};
ghost use Rattle.xray_io.specs.World.{desk_view};
ghost use Rattle.xray_program.specs.Commands.{takes_report};
ghost use Rattle.xray_program.specs.private.{ReportTakes.{AreOfReport}, Turns.{Turns}};

use crate::input::take;
use crate::inputs::{ImageKind, MapKind};
use crate::names::TakenNames;
use crate::stop::Stop;
use crate::stream::{StreamKind, take_stream};
use command_words::NameSource;
use std::alloc::Global;
use xray_io::Desk;

/// The inputs of a report on a log.
#[derive(Drop)]
pub(crate) struct ReportInputs<L> {
    /// What is known of the log, which is a trace.
    pub(crate) log: L,
    /// What names the functions of the log.
    pub(crate) names: TakenNames,
}

/// Takes the log piece by piece, as an input of this kind, and then what names its functions, if the
/// words name a file for that.
pub(crate) fn take_report<'a, K: StreamKind, D: Desk>(
    alloc: Global,
    desk: &mut D,
    log: &'a str,
    kind: &K,
    names: NameSource<'a>,
) -> Result<ReportInputs<K::Value>, Stop<'a>>
    ensures { let seen = desk_view D.held D.read_faults D.write_faults in
        Turns (takes_report (K.form kind.now) log.now (source_view names.entry)) (AreOfReport (K.means kind.now))
        (seen desk.old) (seen desk.new) (D.along desk.old desk.new) result }
{
    let log = take_stream(alloc, desk, log, kind)?;
    match names {
        NameSource::Ids => {
            let names = TakenNames::Ids;
            Ok(ReportInputs { log, names })
        }
        NameSource::Image(name) => {
            let image = take(alloc, desk, name, &ImageKind)?;
            let names = TakenNames::Image(image);
            Ok(ReportInputs { log, names })
        }
        NameSource::Map(name) => {
            let map = take(alloc, desk, name, &MapKind)?;
            let names = TakenNames::Map(map);
            Ok(ReportInputs { log, names })
        }
    }
}
