// The laws of corrected plans, carried by contracts so that the gate asks for their proofs.
ghost use Rattle.planning.specs.Laws.{GroupsAddUp, SharesAddUp, PlansStayWithin};

// The parts of a contract's groups come to its corrected sales less purchases.
fn groups_add_up()
    ensures { GroupsAddUp }
{}

// The corrected plans of a group's shares come to the group's part.
fn shares_add_up()
    ensures { SharesAddUp }
{}

// Corrected plans stay within the limits that settling needs.
fn plans_stay_within()
    ensures { PlansStayWithin }
{}
