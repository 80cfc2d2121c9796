//! Laws of the definitions. Each law is the contract of a function that does nothing.

ghost use Rattle.std.specs.Prelude.{◌≡◌, ◌<◌, ◌≤◌, ◌+◌, ℕ, List, Ok, Some, slice_get, unwrap_or};
ghost use Rattle.xray_image.specs.declared.sled.Sled.{Sled};
ghost use Rattle.xray_image.specs.Program.{Program};
ghost use Rattle.sled_words.specs.{ChangingCode.{KeepsSleds, LetsEnd}, Parts.{initial_words}};
ghost use Rattle.patch_script.specs.declared.command.PatchCommand.{PatchCommand};
ghost use Rattle.patch_script.specs.{Bounds.{bound_of}, CodeAt.{code_at, stored_in}};
ghost use Rattle.patch_script.specs.Micros.{hold_of, micro_at, start_of, total_of};
ghost use Rattle.patch_script.specs.Patched.{HasPatchedHead, HasPatchedParts};
ghost use Rattle.patch_script.specs.{Plans.{Plan, plan_of}, Refusals.{commands_of}};
ghost use Rattle.patch_script.specs.{StoredWords.{AreCodeAt, stored}, Values.{IsCodeValue}};

use crate::micro::Micro;

/// If a thread loads a patched head, it then loads from the sled's other parts what patching
/// stores, however many stores come between the loads. No script stores anything else in an id, an
/// opcode or an offset, and it stores these three before the head.
pub fn a_patched_head_has_patched_parts()
    ensures { (program : Program) (threads : ℕ) (script : List PatchCommand) (p q k : ℕ) (sled : Sled)
        → slice_get program.sleds k ≡ Some sled → p ≤ q
        → HasPatchedHead program threads script p k → HasPatchedParts program threads script q k sled }
{}

/// At each place, each word has one of a few values.
pub fn each_word_has_a_code_value()
    ensures { (program : Program) (threads : ℕ) (script : List PatchCommand) (place word : ℕ)
        → IsCodeValue program threads word (code_at program threads script place word) }
{}

/// The stores of any script keep each sled whole for a thread that passes it. What the thread loads
/// is allowed, wherever its loads fall between the stores.
pub fn each_script_keeps_sleds()
    ensures { (program : Program) (threads : ℕ) (script : List PatchCommand) (thread : ℕ)
        → KeepsSleds program threads thread (code_at program threads script) }
{}

/// Stores made one by one give the code at each place. At first the words are those before the
/// script. Each micro step brings the words to their values at the next place.
#[inline(always)]
pub fn stores_give_the_code()
    ensures first { (program : Program) (threads : ℕ) (script : List PatchCommand)
        → AreCodeAt program threads script 0 (initial_words program threads) }
    ensures next { (program : Program) (threads : ℕ) (script : List PatchCommand) (place : ℕ) (words : List ℕ)
        → AreCodeAt program threads script place words
        → AreCodeAt program threads script (place + 1) (stored words (micro_at program threads script place)) }
    ensures word { (program : Program) (threads : ℕ) (script : List PatchCommand) (place word : ℕ)
        → code_at program threads script (place + 1) word
        ≡ unwrap_or (stored_in word (micro_at program threads script place))
        (code_at program threads script place word) }
{}

/// How far the patcher may have come while a thread makes a passing: up to the first micro step
/// that awaits this passing. The patcher is within this bound if each await so far was for at most
/// the passings that the thread had made before this one.
#[inline(always)]
pub fn awaits_bound_passings()
    ensures within { (program : Program) (threads : ℕ) (script : List PatchCommand) (thread passing : ℕ)
        → bound_of program threads script thread passing ≤ total_of program threads script }
    ensures awaited { (program : Program) (threads : ℕ) (script : List PatchCommand) (thread passing place count : ℕ)
        → micro_at program threads script place ≡ Micro.Await thread count → passing < count
        → bound_of program threads script thread passing ≤ place }
    ensures reached { (program : Program) (threads : ℕ) (script : List PatchCommand) (thread passing place : ℕ)
        → place ≤ total_of program threads script
        → ((i count : ℕ) → i < place → micro_at program threads script i ≡ Micro.Await thread count → count ≤ passing)
        → place ≤ bound_of program threads script thread passing }
{}

/// Each script that is read lets each of its threads come to its end. It awaits passings only after
/// `go`. If it holds a thread, it releases it before it awaits the passing before which it holds it.
pub fn each_script_lets_threads_end()
    ensures { (program : Program) (threads : ℕ) (text : List ℕ) (plan : Plan) (thread : ℕ)
        → 0 < thread → plan_of program threads text ≡ Ok plan
        → LetsEnd program thread (hold_of thread (commands_of plan.lines))
        (code_at program threads (commands_of plan.lines)) (start_of program threads (commands_of plan.lines))
        (total_of program threads (commands_of plan.lines)) (bound_of program threads (commands_of plan.lines) thread) }
{}
