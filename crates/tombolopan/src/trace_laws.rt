//! Laws of traced runs: they are runs, and steps without an access keep the memory.

ghost use Rattle.std.specs.Prelude.{◌≡◌, ℕ, [], None};
ghost use Rattle.mte_tags.specs.Memory.{Memory};
ghost use Rattle.a64_registers.specs.declared.registers.Regs.{Regs};
ghost use Rattle.a64_step.specs.Steps.{run_of, step_of};
ghost use Rattle.tombolopan.specs.InstructionAccesses.{next_access};
ghost use Rattle.tombolopan.specs.Traces.{trace_of, IsRun};
ghost use Rattle.tombolopan.specs.declared.trace_request.TraceRequest.{TraceRequest};

/// Without stops the first steps of a trace leave what a run of as many steps leaves, whatever is
/// entered of them.
pub fn traces_are_runs()
    ensures { (n : ℕ) (q : TraceRequest) (r : Regs) (m : Memory) → q.stops.now ≡ []
        → IsRun (trace_of n q r m) (run_of n r m) }
{}

/// A step whose instruction makes no access leaves the memory as it is: what is entered has each
/// change.
pub fn steps_without_access_keep_memory()
    ensures { (r : Regs) (m : Memory) → next_access r m ≡ None → (step_of r m).memory ≡ m }
{}
