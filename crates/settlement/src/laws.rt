// The law of the area total, carried by a contract so that the gate asks for its proof.
ghost use Rattle.settlement.specs.Area.{AreaTotal};

// All imbalances together are metered demand less metered output, with what left the area by trade.
fn area_total()
    ensures { AreaTotal }
{}
