//! What threads are started through.

ghost use Rattle.std.specs.Prelude.{◌≡◌, false, true};
ghost use Rattle.thread_run.specs.Starters.{has_started};

/// What threads are started through: the runtime that starts them, and the gate that they and the
/// patcher pass.
///
/// It says whether threads were started through it. So a caller that lends it knows whether threads
/// have run, and a contract can say when none have.
#[derive(Drop)]
pub struct Starter<'r, T, G> {
    rt: &'r T,
    gate: &'r G,
    has_started: bool,
}

impl<'r, T, G> Starter<'r, T, G> {
    /// A starter through which no thread was started yet.
    pub fn new(rt: &'r T, gate: &'r G) -> Starter<'r, T, G>
        ensures { has_started result ≡ false }
    {
        Starter {
            rt,
            gate,
            has_started: false,
        }
    }

    /// Whether threads were started through it.
    pub fn has_started(&self) -> bool
        ensures { result ≡ has_started self.now }
    {
        self.has_started
    }

    /// The runtime, for what may wait and starts no thread.
    pub(crate) fn runtime(&self) -> &'r T {
        self.rt
    }

    /// The runtime and the gate, for threads that start.
    pub(crate) fn start(&mut self) -> (&'r T, &'r G)
        ensures { has_started self.new ≡ true }
    {
        self.has_started = true;
        (self.rt, self.gate)
    }
}
