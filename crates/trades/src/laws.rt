// The laws of corrected trades, carried by contracts so that the gate asks for their proofs.
ghost use Rattle.trades.specs.Laws.{OppositesAgree, AloneIsZero};
ghost use Rattle.trades.specs.Beyond.{TradesCancel};

// Two opposite lines get the same corrected figure.
fn opposites_agree()
    ensures { OppositesAgree }
{}

// A line with a contract that has no opposite line gets zero.
fn alone_is_zero()
    ensures { AloneIsZero }
{}

// What contracts trade with each other cancels in the sum over all contracts.
fn trades_cancel()
    ensures { TradesCancel }
{}
