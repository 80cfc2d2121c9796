//! Which values a passing may load.
ghost use Rattle.std.specs.Prelude.{◌≡◌, ◌<◌, ◌↔◌, length, slice_get, Some, IsTrue};
ghost use Rattle.sled_words.specs.Allowed.{IsUnpatchedHead};
ghost use Rattle.xray_image.specs.declared.sled.Sled.{Sled};
ghost use Rattle.machine_step.specs.private.Stages.{AllowsAt};

use crate::stage::Stage;
use sled_words::{HANDLER_SET, JUMP_HEAD, LogState, PATCHED_HEAD, Part, RELEASED, part_value};
use subset_decode::opcodes::RET;
use xray_image::{Image, SledKind};

/// Whether a value may be loaded at this stage of a passing of a sled.
pub(crate) fn allows(image: &Image, stage: Stage, sled: u32, value: u64) -> bool
    requires { sled < length image.now.sleds }
    ensures { (s : Sled) → slice_get image.now.sleds sled ≡ Some s
        → IsTrue result ↔ AllowsAt image.now.trampolines s stage value }
{
    match stage {
        Stage::Release => value <= RELEASED,
        Stage::Head => value == PATCHED_HEAD || is_unpatched_head(image.sled(sled).kind, value),
        Stage::Id => value == part_value(image, sled, Part::Id, true),
        Stage::Opcode => value == part_value(image, sled, Part::Opcode, true),
        Stage::Offset => value == part_value(image, sled, Part::Offset, true),
        Stage::ArgHandler | Stage::Handler => value <= HANDLER_SET,
        Stage::State | Stage::ArgState => value <= LogState::Finalized as u64,
    }
}

/// Whether a value is the head of an unpatched sled of this kind: a jump over the nine bytes after
/// it, or a return with any second byte, since unpatching stores only the first one
/// (`patchFunctionExit` of `xray_x86_64.cpp`).
fn is_unpatched_head(kind: SledKind, value: u64) -> bool
    ensures { IsTrue result ↔ IsUnpatchedHead kind value }
{
    match kind {
        SledKind::Entry | SledKind::Tail | SledKind::Args => value == JUMP_HEAD,
        SledKind::Exit => value <= u64::from(u16::MAX) && value % 256 == u64::from(RET),
    }
}
