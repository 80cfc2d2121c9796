//! Laws of the plain machine and of its loads. Each law is the contract of a function that does
//! nothing.
ghost use Rattle.std.specs.Prelude.{◌≡◌, ◌<◌, ◌≤◌, ℕ, List, Option, Some, All, length};
ghost use Rattle.xray_image.specs.Program.{Program, IsAccepted};
ghost use Rattle.sled_words.specs.{Allowed.{IsAllowed}, ChangingCode.{KeepsSleds, LetsEnd}};
ghost use Rattle.handler_word.specs.declared.mark.Mark.{Mark};
ghost use Rattle.machine_step.specs.declared.limits.Limits.{Limits};
ghost use Rattle.machine_step.specs.declared.end.End.{End};
ghost use Rattle.machine_step.specs.{PlainStep.{State, Passing, PlainRun}, Course.{ComesTo}};
ghost use Rattle.machine_step.specs.Follows.{Follows, MarksFollow};
ghost use Rattle.machine_step.specs.{Loads.{AreWanted, Load, next_load}, Ended.{EndsAsPlain}};
ghost use Rattle.machine_step.specs.Traced.{HasLoaded, IsDone, StandsAs, Traced, sleds_passed};
ghost use Rattle.machine_step.specs.Whole.{AreWhole, HaveOneValueEach};

/// A thread of an accepted image reaches only one end. All its plain runs have the same passings,
/// the same end and the same last state. So what is printed of a plain run depends only on the
/// image, the limits and the thread.
pub fn one_end()
    ensures { (bytes : List ℕ) (program : Program) (limits : Limits) (thread : ℕ)
        (passed passed' : List Passing) (end end' : End) (last last' : State)
        → IsAccepted bytes program
        → PlainRun program limits thread passed end last
        → PlainRun program limits thread passed' end' last'
        → (passed ≡ passed') × (end ≡ end') × (last ≡ last') }
{}

/// A thread of an accepted image reaches an end, whatever the image, the thread's number and the
/// limits are. With `one_end`, it reaches exactly one.
pub fn some_end()
    ensures { (bytes : List ℕ) (program : Program) (limits : Limits) (thread : ℕ)
        → IsAccepted bytes program
        → (passed : List Passing) × (end : End) × (last : State)
        × PlainRun program limits thread passed end last }
{}

/// A plain run makes no more passings than its limits allow.
pub fn passings_are_limited()
    ensures { (program : Program) (limits : Limits) (thread : ℕ) (passed : List Passing) (end : End) (last : State)
        → PlainRun program limits thread passed end last → length passed ≤ limits.passings }
{}

/// Before a passing of a given number a thread of an accepted image is in only one state. All ways
/// to it have the same passings, and come to the same passing.
pub fn one_state_before_a_passing()
    ensures { (bytes : List ℕ) (program : Program) (limits : Limits) (thread : ℕ)
        (passed passed' : List Passing) (state state' : State) (next next' : Passing)
        → IsAccepted bytes program
        → ComesTo program limits thread passed state next
        → ComesTo program limits thread passed' state' next'
        → length passed ≡ length passed'
        → (passed ≡ passed') × (state ≡ state') × (next ≡ next') }
{}

/// Let code change in a way that keeps sleds whole. However the loads of a thread fall between the
/// changes, each load is of the word that the thread wanted next, each value that it has loaded is
/// allowed, and so is the value of its next load. Each of its passings that has its mark decodes
/// its sled whole. This holds for the loads of a replay and for those of running threads. Nothing
/// is asked of the thread, of the sleds that it passes, or of the bounds.
pub fn what_follows_is_allowed()
    ensures wanted { (program : Program) (threads : ℕ) (code : ℕ → ℕ → ℕ) (start : ℕ) (bound : ℕ → ℕ)
        (thread : ℕ) (hold : Option ℕ) (sleds : List ℕ) (loads : List Load) (place : ℕ)
        → Follows program threads code start bound thread hold sleds loads place
        → AreWanted program threads thread hold sleds loads }
    ensures loaded { (program : Program) (threads : ℕ) (code : ℕ → ℕ → ℕ) (start : ℕ) (bound : ℕ → ℕ)
        (thread : ℕ) (hold : Option ℕ) (sleds : List ℕ) (loads : List Load) (place : ℕ)
        → KeepsSleds program threads thread code
        → Follows program threads code start bound thread hold sleds loads place
        → All (λ load. IsAllowed program threads thread load.word load.value) loads }
    ensures next { (program : Program) (threads : ℕ) (code : ℕ → ℕ → ℕ) (start : ℕ) (bound : ℕ → ℕ)
        (thread : ℕ) (hold : Option ℕ) (sleds : List ℕ) (loads : List Load) (place word : ℕ)
        → KeepsSleds program threads thread code
        → Follows program threads code start bound thread hold sleds loads place
        → next_load program threads thread hold sleds loads ≡ Some word
        → IsAllowed program threads thread word (code place word) }
    ensures whole { (program : Program) (threads : ℕ) (code : ℕ → ℕ → ℕ) (start : ℕ) (bound : ℕ → ℕ)
        (thread : ℕ) (hold : Option ℕ) (sleds : List ℕ) (loads : List Load) (place : ℕ)
        → KeepsSleds program threads thread code
        → Follows program threads code start bound thread hold sleds loads place
        → AreWhole program threads thread hold sleds loads }
{}

/// If a thread loads the words that it wants one after the other, and each value is allowed, no
/// sled is torn. Each passing that has its mark decodes its sled whole, wherever the values come
/// from.
pub fn allowed_loads_are_whole()
    ensures { (program : Program) (threads thread : ℕ) (hold : Option ℕ) (sleds : List ℕ) (loads : List Load)
        → AreWanted program threads thread hold sleds loads
        → All (λ load. IsAllowed program threads thread load.word load.value) loads
        → AreWhole program threads thread hold sleds loads }
{}

/// If a thread loads the words that it wants one after the other, each of its passings that has its
/// mark, at a sled that exists, has loaded each part of the sled with at most one value, whatever
/// the values are.
pub fn wanted_loads_have_one_value()
    ensures { (program : Program) (threads thread : ℕ) (hold : Option ℕ) (sleds : List ℕ) (loads : List Load)
        → AreWanted program threads thread hold sleds loads
        → HaveOneValueEach program threads thread hold sleds loads }
{}

/// If changing code lets one of the threads come to its end, some marks of all its passings follow
/// the code. One example is the marks of a thread that makes each load as late as it may.
pub fn some_marks_follow()
    ensures { (program : Program) (limits : Limits) (threads thread : ℕ) (passed : List Passing) (end : End)
        (last : State) (code : ℕ → ℕ → ℕ) (start total : ℕ) (bound : ℕ → ℕ) (hold : Option ℕ)
        → 0 < thread → thread ≤ threads → PlainRun program limits thread passed end last
        → LetsEnd program thread hold code start total bound
        → (marks : List Mark)
        × MarksFollow program threads code start bound thread hold (sleds_passed passed) marks total }
{}

/// A traced thread ends as its plain run does, whatever allowed values its loads gave. Any plain
/// run of the thread will do, since it has only one. A caller with an order of loads of its own
/// needs no other law on a `Cpu`. What the thread was given, and where it stands, are clauses of
/// `Cpu::new`, `opened`, `give` and `want`. That it comes to an end is the clause `nearer` of
/// `opened` and `give`.
pub fn a_traced_thread_ends_as_its_plain_run()
    ensures { (bytes : List ℕ) (t : Traced) (own passed : List Passing) (loads : List Load) (end : End) (last : State)
        → IsAccepted bytes t.program → HasLoaded t own loads → IsDone t.want → StandsAs t t.want
        → PlainRun t.program t.limits t.thread passed end last → EndsAsPlain t passed end last loads }
{}
