// The worked cases of the rules: what the definitions give, beside what they must give.
#![tactic(auto)]

ghost use Rattle.std.specs.Prelude.{◌≡◌, length};
ghost use Rattle.worked.specs.Cases.{given, TwelveCases};

// The marked cases hold, as one list; the answer is how many there are.
pub fn marked_cases() -> usize
    ensures counted { result ≡ length given }
    ensures hold { TwelveCases }
{
    12
}
