//! What the inputs of a run keep to. A law has an empty body: its contract is the law.

ghost use Rattle.std.specs.Prelude.{◌≡◌, ℕ, List};
ghost use Rattle.run_inputs.specs.Inputs.{HaveNoFault, IsFaultOf};
ghost use Rattle.run_inputs.specs.declared.fault.Fault.{Fault};
ghost use Rattle.run_inputs.specs.declared.fault.Fault.TheVariants.{Room};
ghost use Rattle.run_inputs.specs.declared.inputs.Inputs.{Inputs};

/// Inputs without a fault are refused for none.
pub fn law_inputs_that_are_read_have_no_fault()
    ensures { (files : Inputs (List ℕ)) (fault : Fault) → HaveNoFault files → IsFaultOf files fault → fault ≡ Room }
{}
