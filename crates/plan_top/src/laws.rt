//! The laws of answers. Each function does nothing: its contract is the law.

ghost use Rattle.plan_top.specs.Laws.{ValidOrInvalid, OneFirstFault, OneAnswer, OnePlan, OneDemo, RefusedOrBegun};

/// No document is both valid and invalid.
pub fn valid_or_invalid()
    ensures { ValidOrInvalid }
{}

/// No document has two first faults.
pub fn one_first_fault()
    ensures { OneFirstFault }
{}

/// No bytes have two answers of `check`: two lawful ones have one exit code and one line.
pub fn one_answer()
    ensures { OneAnswer }
{}

/// No bytes have two texts of `plan`: two lawful ones, whole lines or the line of a refusal, are one. So none depends on
/// the number of workers.
pub fn one_plan()
    ensures { OnePlan }
{}

/// No document whose first scene is refused has a session, nor one that is begun: so of such a one nobody is told
/// anything.
pub fn refused_or_begun()
    ensures { RefusedOrBegun }
{}

/// No number has two texts of `demo`: whatever the number of workers, they count alike.
pub fn one_demo()
    ensures { OneDemo }
{}
