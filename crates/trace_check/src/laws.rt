//! Laws of traces. The functions do nothing: their contracts are the laws.
ghost use Rattle.std.specs.Prelude.{◌≡◌, ◌∷◌, ◌++◌, [], ℕ, List, Some, length};
ghost use Rattle.trace_check.specs.Lines.{step_of};
ghost use Rattle.trace_check.specs.ReadBack.{FitsStep};
ghost use Rattle.trace_check.specs.Traces.{IsLegal, IsTraceOf, Say};
ghost use Rattle.trace_check.specs.Verdicts.{legal, lines_of, tally_of, verdict_of};
ghost use Rattle.unit_model.specs.Lines.{line_of};
ghost use Rattle.unit_model.specs.Opening.{opened_core};
ghost use Rattle.unit_model.specs.Running.{AllEnabled, after_steps};
ghost use Rattle.unit_model.specs.declared.machine.Step.{Step};
ghost use Rattle.unit_model.specs.declared.shape.Shape.{Shape};

/// The line by which a step is told, if its numbers fit their types, is read back as that step; and that line alone is, so
/// that each step has one spelling.
pub fn lines_are_read_back()
    ensures read { (step : Step) (text : List ℕ) → FitsStep step → line_of step ≡ text ++ 10 ∷ []
        → step_of text ≡ Some step }
    ensures spelled { (step : Step) (text : List ℕ) → step_of text ≡ Some step
        → FitsStep step × (line_of step ≡ text ++ 10 ∷ []) }
{}

/// The lines of a shape and of steps, one after another, say this shape and these steps; and no other bytes do.
pub fn traces_are_read_back()
    ensures read { (shape : Shape) (steps : List Step) (bytes : List ℕ)
        → IsTraceOf shape steps bytes
        → Say (lines_of bytes) shape steps }
    ensures spelled { (shape : Shape) (steps : List Step) (bytes : List ℕ)
        → Say (lines_of bytes) shape steps
        → IsTraceOf shape steps bytes }
{}

/// A trace is legal exactly where its lines say steps that run from the opened core of the shape: `run_core` does such steps
/// to the end, where memory doesn't run out. Its numbers are then those of the core that they lead to.
pub fn legal_where_steps_run()
    ensures legal { (bytes : List ℕ) → IsLegal (verdict_of bytes)
        → (shape : Shape) × (steps : List Step) × Say (lines_of bytes) shape steps
        × AllEnabled (opened_core shape) steps }
    ensures enabled { (bytes : List ℕ) (shape : Shape) (steps : List Step)
        → Say (lines_of bytes) shape steps
        → AllEnabled (opened_core shape) steps
        → verdict_of bytes
        ≡ legal (length steps) (tally_of (after_steps (opened_core shape) steps)) }
{}
