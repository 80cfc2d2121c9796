//! The kinds of input.
ghost use Rattle.command_words.specs.Ranges.{IsThreadCount};

use crate::file_bytes::FileBytes;
use crate::input::Kind;
use crate::script_file::ScriptFile;
use crate::stated_audit::StatedAudit;
use asm_text::{AsmFault, assemble};
use audit_check::{AuditFault, read_audit};
use command_words::TRACE_LIMIT;
use map_names::{MapFault, MapNames, read_map};
use patch_script::{Script, ScriptFault, read_script};
use program_map::{ProgramFault, ProgramMap, read_program};
use runtime_log::{ImportedLog, LogFault, import_log};
use std::alloc::Global;
use step_sim::{Schedule, ScheduleFault, read_schedule};
use xray_image::{Image, ImageFault, read_image};

/// The most bytes of an image file.
const IMAGE_LIMIT: u64 = 4_194_304;

/// The most bytes of an assembler text.
const TEXT_LIMIT: u64 = 4_194_304;

/// The most bytes of a script.
const SCRIPT_LIMIT: u64 = 1_048_576;

/// The most bytes of a schedule.
const SCHEDULE_LIMIT: u64 = 16_777_216;

/// The most bytes of an audit.
const AUDIT_LIMIT: u64 = 67_108_864;

/// The most bytes of a sled map.
const MAP_LIMIT: u64 = 67_108_864;

/// The most bytes of a compiled program.
const PROGRAM_LIMIT: u64 = 4_294_967_296;

/// The word for a script in a line on err.
pub(crate) const SCRIPT: &str = "script";

/// The word for an audit in a line on err.
pub(crate) const AUDIT: &str = "audit";

/// The word for a trace in a line on err.
pub(crate) const TRACE: &str = "trace";

/// An image file.
#[derive(Drop)]
pub(crate) struct ImageKind;

impl Kind for ImageKind {
    ghost use Rattle.std.specs.Prelude.{⊤};
    ghost use Rattle.xray_program.specs.Inputs.{image_form};

    type Value = Image;

    type Refusal = ImageFault;

    ghost form = { λ _. image_form };

    ghost fits = { λ _ _. ⊤ };

    fn word(&self) -> &'static str {
        "image"
    }

    fn limit(&self) -> u64 {
        IMAGE_LIMIT
    }

    fn judge(&self, alloc: Global, bytes: &[u8]) -> Result<Image, ImageFault> {
        read_image(alloc, bytes)
    }
}

/// A sled map. Its value is the names that it gives to functions.
#[derive(Drop)]
pub(crate) struct MapKind;

impl Kind for MapKind {
    ghost use Rattle.std.specs.Prelude.{⊤};
    ghost use Rattle.xray_program.specs.private.KeptForms.{kept_map_form};

    type Value = MapNames;

    type Refusal = MapFault;

    ghost form = { λ _. kept_map_form };

    ghost fits = { λ _ _. ⊤ };

    fn word(&self) -> &'static str {
        "map"
    }

    fn limit(&self) -> u64 {
        MAP_LIMIT
    }

    fn judge(&self, alloc: Global, bytes: &[u8]) -> Result<MapNames, MapFault> {
        read_map(alloc, bytes)
    }
}

/// A compiled program. Its value is its sled map.
#[derive(Drop)]
pub(crate) struct ProgramKind;

impl Kind for ProgramKind {
    ghost use Rattle.std.specs.Prelude.{⊤};
    ghost use Rattle.xray_program.specs.private.KeptForms.{kept_program_form};

    type Value = ProgramMap;

    type Refusal = ProgramFault;

    ghost form = { λ _. kept_program_form };

    ghost fits = { λ _ _. ⊤ };

    fn word(&self) -> &'static str {
        "program"
    }

    fn limit(&self) -> u64 {
        PROGRAM_LIMIT
    }

    fn judge(&self, alloc: Global, bytes: &[u8]) -> Result<ProgramMap, ProgramFault> {
        read_program(alloc, bytes)
    }
}

/// A log of LLVM's runtime. Its value is the trace that is made of it.
#[derive(Drop)]
pub(crate) struct RuntimeLogKind;

impl Kind for RuntimeLogKind {
    ghost use Rattle.std.specs.Prelude.{⊤};
    ghost use Rattle.xray_program.specs.Inputs.{imported_form};

    type Value = ImportedLog;

    type Refusal = LogFault;

    ghost form = { λ _. imported_form };

    ghost fits = { λ _ _. ⊤ };

    fn word(&self) -> &'static str {
        "log"
    }

    fn limit(&self) -> u64 {
        TRACE_LIMIT
    }

    fn judge(&self, alloc: Global, bytes: &[u8]) -> Result<ImportedLog, LogFault> {
        import_log(alloc, bytes)
    }
}

/// An assembler text. Its value is the image file that it is assembled to.
#[derive(Drop)]
pub(crate) struct TextKind {
    /// The least number of instruction lines with which a function gets sleds.
    pub(crate) threshold: u32,
    /// Whether the addresses of the sled map are relative.
    pub(crate) relative: bool,
}

impl Kind for TextKind {
    ghost use Rattle.std.specs.Prelude.{⊤};
    ghost use Rattle.xray_program.specs.Inputs.{text_form};

    type Value = FileBytes;

    type Refusal = AsmFault;

    ghost form = { λ k. text_form k.threshold k.relative };

    ghost fits = { λ _ _. ⊤ };

    fn word(&self) -> &'static str {
        "text"
    }

    fn limit(&self) -> u64 {
        TEXT_LIMIT
    }

    fn judge(&self, alloc: Global, bytes: &[u8]) -> Result<FileBytes, AsmFault> {
        match assemble(alloc, bytes, self.threshold, self.relative) {
            Ok(bytes) => Ok(FileBytes { bytes }),
            Err(fault) => Err(fault),
        }
    }
}

/// A script, for an image and a number of threads.
#[derive(Drop)]
pub(crate) struct ScriptKind<'i> {
    /// The image.
    pub(crate) image: &'i Image,
    /// How many threads there are, from 1 to 16.
    pub(crate) threads: u32,
    ghost few: { IsThreadCount threads },
}

impl Kind for ScriptKind<'_> {
    ghost use Rattle.std.specs.Prelude.{◌≡◌};
    ghost use Rattle.xray_program.specs.Inputs.{script_form};

    type Value = Script;

    type Refusal = ScriptFault;

    ghost form = { λ k. script_form k.image.now k.threads };

    ghost fits = { λ k script. (script.program ≡ k.image.now) × (script.threads ≡ k.threads) };

    fn word(&self) -> &'static str {
        SCRIPT
    }

    fn limit(&self) -> u64 {
        SCRIPT_LIMIT
    }

    fn judge(&self, alloc: Global, bytes: &[u8]) -> Result<Script, ScriptFault> {
        read_script(alloc, bytes, self.image, self.threads)
    }
}

/// A script whose text is kept, for an image and a number of threads.
#[derive(Drop)]
pub(crate) struct ScriptFileKind<'i> {
    /// What the text has to be.
    pub(crate) script: ScriptKind<'i>,
}

impl Kind for ScriptFileKind<'_> {
    ghost use Rattle.std.specs.Prelude.{◌≡◌, ◌≤◌, length};
    ghost use Rattle.xray_program.specs.Inputs.{script_limit, whole_script_form};

    type Value = ScriptFile;

    type Refusal = ScriptFault;

    ghost form = { λ k. whole_script_form k.script.image.now k.script.threads };

    ghost fits = { λ k file. (file.plan.program ≡ k.script.image.now) × (file.plan.threads ≡ k.script.threads)
        × (length file.text ≤ script_limit) };

    fn word(&self) -> &'static str {
        SCRIPT
    }

    fn limit(&self) -> u64 {
        SCRIPT_LIMIT
    }

    fn judge(&self, alloc: Global, bytes: &[u8]) -> Result<ScriptFile, ScriptFault> {
        let script = self.script.judge(alloc, bytes)?;
        let text = Vec::from_slice(alloc, bytes)?;
        Ok(ScriptFile { text, script })
    }
}

/// A schedule, for a number of threads.
#[derive(Drop)]
pub(crate) struct ScheduleKind {
    /// How many threads there are, from 1 to 16.
    pub(crate) threads: u32,
    ghost few: { IsThreadCount threads },
}

impl Kind for ScheduleKind {
    ghost use Rattle.std.specs.Prelude.{All};
    ghost use Rattle.step_sim.specs.Schedules.{AreTurnsOf};
    ghost use Rattle.xray_program.specs.Inputs.{schedule_form};

    type Value = Schedule;

    type Refusal = ScheduleFault;

    ghost form = { λ k. schedule_form k.threads };

    ghost fits = { λ k turns. All (AreTurnsOf k.threads) turns };

    fn word(&self) -> &'static str {
        "schedule"
    }

    fn limit(&self) -> u64 {
        SCHEDULE_LIMIT
    }

    fn judge(&self, alloc: Global, bytes: &[u8]) -> Result<Schedule, ScheduleFault> {
        read_schedule(alloc, bytes, self.threads)
    }
}

/// The audit of a run.
#[derive(Drop)]
pub(crate) struct AuditKind;

impl Kind for AuditKind {
    ghost use Rattle.audit_check.specs.Statements.{NamesThreads};
    ghost use Rattle.xray_program.specs.Inputs.{audit_form};

    type Value = StatedAudit;

    type Refusal = AuditFault;

    ghost form = { λ _. audit_form };

    ghost fits = { λ _. NamesThreads };

    fn word(&self) -> &'static str {
        AUDIT
    }

    fn limit(&self) -> u64 {
        AUDIT_LIMIT
    }

    fn judge(&self, alloc: Global, bytes: &[u8]) -> Result<StatedAudit, AuditFault> {
        match read_audit(alloc, bytes) {
            Ok(audit) => Ok(StatedAudit { audit }),
            Err(fault) => Err(fault),
        }
    }
}
