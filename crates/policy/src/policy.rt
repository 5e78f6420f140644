// What every policy can do.
ghost use Rattle.std.specs.Prelude.{◌≡◌, ℕ, List, [], ◌∷◌};
ghost use Rattle.policy.specs.Meaning.{Choice, Lawful, told};

/// What a policy is told: a way of a processor's column was mentioned, and whether the policy had
/// named it.
#[derive(Clone, Copy)]
pub struct Telling {
    pub processor: u8,
    pub column: usize,
    pub way: usize,
    pub named: bool,
}

/// It decides which way of a full column is replaced.
pub trait Policy {
    /// What the making fixed of its fields.
    type Fixed;

    /// What it means: its numbers, and which way it names after any tellings.
    ghost model: { Self → Choice };

    /// The way that it names is below its ways.
    ghost lawful: { (s : Self) → Lawful (model s) };

    // Each of these two has a clause that keeps it: the meaning alone does not tell the lender of a
    // table how the table is read.
    /// The loans that it stands on, which no telling changes.
    ghost standing: { Self → List ℕ };

    /// What was fixed when it was made.
    ghost fixed: { Self → Self.Fixed };

    /// The number of processors that it was made for.
    fn processors(&self) -> u8
        ensures { result ≡ (model self.now).processors };

    /// The number of columns that it was made for.
    fn columns(&self) -> usize
        ensures { result ≡ (model self.now).columns };

    /// The number of ways that it was made for.
    fn ways(&self) -> usize
        ensures { result ≡ (model self.now).ways };

    /// The way of the processor's column that is to be replaced. It is below the ways if the
    /// processor and the column are below their numbers.
    fn victim_way(&self, processor: u8, column: usize) -> usize
        ensures { result ≡ (model self.now).names [] processor column };

    /// Tells it that a way was mentioned. One that is not below its numbers changes nothing.
    fn tell(&mut self, telling: Telling)
        ensures after { model self.new ≡ told telling (model self.old) }
        ensures kept { standing self.new ≡ standing self.old }
        ensures fixed { fixed self.new ≡ fixed self.old };
}

/// A policy that is lent is one.
impl<P: Policy> Policy for &mut P {
    type Fixed = P::Fixed;

    ghost model = { λ s. P.Policy.model s.now };

    ghost lawful = { λ s. P.Policy.lawful s.now };

    ghost standing = { λ s. s.ghost_name ∷ P.Policy.standing s.now };

    ghost fixed = { λ s. P.Policy.fixed s.now };

    fn processors(&self) -> u8 {
        (**self).processors()
    }

    fn columns(&self) -> usize {
        (**self).columns()
    }

    fn ways(&self) -> usize {
        (**self).ways()
    }

    fn victim_way(&self, processor: u8, column: usize) -> usize {
        (**self).victim_way(processor, column)
    }

    fn tell(&mut self, telling: Telling) {
        (**self).tell(telling);
    }
}
