// The claims about the monitor's turns and cycles. Each function does nothing: its `ensures` is the claim.
#![tactic(auto)]

ghost use Rattle.turns.specs.Cycles.{GrantsAreTaken};
ghost use Rattle.turns.specs.Turns.{FaultsChangeNothing, StepsAreCycles};

// A line with a fault changes nothing.
pub fn faults_change_nothing()
    ensures { FaultsChangeNothing }
{}

// `z N` makes N cycles.
pub fn steps_are_cycles()
    ensures { StepsAreCycles }
{}

// The grant that is shown is the one that the cycle takes, and the marks that are shown are those that it answers.
pub fn grants_are_taken()
    ensures { GrantsAreTaken }
{}
