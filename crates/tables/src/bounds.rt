// What a row is to totals and divisions: whose it is, what it carries, and what is listed under it.
ghost use Rattle.std.specs.Prelude.{◌≡◌, ℕ};

// A row that belongs to an owner, by the owner's number.
pub trait Owned {
    ghost owned: { Self → ℕ };

    fn owner(&self) -> u32
        ensures { result ≡ owned self.now };
}

// A row that carries kWh for its owner.
pub trait Carries: Owned {
    ghost carried: { Self → ℕ };

    fn kwh(&self) -> u64
        ensures { result ≡ carried self.now };
}

// A row with a number, under which its members are listed: a member's owner is the number of its head.
// What the head claims in a division may depend on what its members carry together.
pub trait Head: Owned {
    ghost numbered: { Self → ℕ };

    ghost claimed: { Self → ℕ → ℕ };

    fn number(&self) -> u32
        ensures { result ≡ numbered self.now };

    fn claim(&self, together: u64) -> u64
        ensures { result ≡ claimed self.now together };
}

// The owner of what belongs to nobody.
const NOBODY: u32 = 0;

// A figure by itself, of either width, carries itself and belongs to nobody: one of 32 bits as the same of 64.
// An impl for each width: one written by a macro of our own is refused.
impl Owned for u32 {
    ghost owned = { λ _. 0 };

    fn owner(&self) -> u32 {
        u64::from(*self).owner()
    }
}

impl Carries for u32 {
    ghost carried = { λ x. x };

    fn kwh(&self) -> u64 {
        u64::from(*self).kwh()
    }
}

impl Owned for u64 {
    ghost owned = { λ _. 0 };

    fn owner(&self) -> u32 {
        NOBODY
    }
}

impl Carries for u64 {
    ghost carried = { λ x. x };

    fn kwh(&self) -> u64 {
        *self
    }
}
