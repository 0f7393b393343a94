// A retailer's settlement.
ghost use Rattle.std.specs.Prelude.{◌≡◌, ◌≤◌, unsigned_abs};
ghost use Rattle.curtailment.specs.Retail.{retail_imbalance};

// A retail contract's imbalance: what it supplied less its deemed demand. Supplied is its own metered demand with the supplied kWh of the groups that name it:
// 96 groups and its own meters come to 14,899,200,000 kWh at most. Callers are proved to stay inside these limits of a book.
pub fn retail_imbalance(supplied: u64, deemed_demand: i64) -> i64
    requires { (supplied ≤ 14899200000) × (unsigned_abs deemed_demand ≤ 128000000) }
    ensures { result ≡ retail_imbalance supplied deemed_demand }
{
    supplied as i64 - deemed_demand
}
