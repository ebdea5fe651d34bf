// The worked cases, proved together; their list stands in specs/Cases.antt.
#![tactic(auto)]

ghost use Rattle.std.specs.Prelude.{◌≡◌, length};
ghost use Rattle.cases.specs.Cases.{AllHold, worked};

/// How many worked cases there are, every one of which holds.
pub fn worked_cases() -> usize
    ensures hold { AllHold worked }
    ensures count { result ≡ length worked }
{
    13
}
