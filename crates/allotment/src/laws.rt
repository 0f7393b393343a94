// The laws of allotted output, carried by contracts so that the gate asks for their proofs.
ghost use Rattle.allotment.specs.Laws.{OutputAddsUp, OutputWithin, TurnsStayWithin};

// The allotted output of a plant's shares comes to the plant's reading.
fn output_adds_up()
    ensures { OutputAddsUp }
{}

// No share is allotted more than its plant reads.
fn output_within()
    ensures { OutputWithin }
{}

// A plant has at most 99 claims, which come to no more than all plans in magnitude.
fn turns_stay_within()
    ensures { TurnsStayWithin }
{}
