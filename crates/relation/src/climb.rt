//! The climb: from the least value of a problem, by rounds of its step, to its least solution.
ghost use Rattle.std.specs.Prelude.{◌≡◌, ℕ, ◌<◌, Decides};
ghost use Rattle.relation.specs.Climbs.{Climbed};

/// What can be climbed. A value holds its problem beside what is reached of the solution.
pub trait Ascent: Sized {
    /// The second value is the least one of the first one's problem.
    ghost begins: { Self → Self → Type 0 };

    /// The step makes the second value of the first.
    ghost steps: { Self → Self → Type 0 };

    /// The order: the first value is within the second.
    ghost below: { Self → Self → Type 0 };

    /// The second value solves the first one's problem.
    ghost solves: { Self → Self → Type 0 };

    /// What holds of every value on the way, the second, to a solution of the first one's problem.
    ghost along: { Self → Self → Type 0 };

    /// The values have reached the same.
    ghost alike: { Self → Self → Type 0 };

    /// How far a value can still rise.
    ghost height: { Self → ℕ };

    /// The least value of the problem.
    fn bottom(&self) -> Self
        ensures { begins self.now result };

    /// One step.
    fn step(&self) -> Self
        ensures { steps self.now result };

    /// Whether two values have reached the same.
    fn is(&self, other: &Self) -> bool
        ensures { Decides result (alike self.now other.now) };

    /// The least value is on the way.
    ghost start: { (problem x : Self) → begins problem x → along problem x };

    /// A step stays on the way.
    ghost onward: { (problem x y : Self) → along problem x → steps x y → along problem y };

    /// Values on the way that have reached the same are the same.
    ghost matched: { (problem x y : Self) → along problem x → along problem y → alike x y → x ≡ y };

    /// A step that reaches something else leaves less to rise.
    ghost falls: { (problem x y : Self) → along problem x → steps x y → (alike x y → ⊥) → height y < height x };

    /// The least value is within every solution.
    ghost least: { (problem x z : Self) → begins problem x → solves problem z → below x z };

    /// A step stays within every solution.
    ghost within: { (problem x y z : Self) → along problem x → steps x y → solves problem z → below x z → below y z };

    /// What the step leaves unchanged is a solution.
    ghost solved: { (problem x : Self) → along problem x → steps x x → solves problem x };
}

/// The least solution of a problem.
pub fn climb<S: Ascent + Drop>(problem: &S) -> S
    ensures { Climbed S.Ascent.begins S.Ascent.steps S.Ascent.below S.Ascent.solves S.Ascent.along problem.now result }
{
    let mut value = problem.bottom();
    loop {
        let next = value.step();
        if value.is(&next) {
            return value;
        }
        value = next;
    }
}
