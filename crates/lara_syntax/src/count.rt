//! What is counted in a statement.
ghost use Rattle.std.specs.Prelude.{◌≡◌, ◌<◌, nat_lt};
ghost use Rattle.lara_syntax.specs.Limits.{most, one_operator, one_sign};

/// The words and signs of a statement of which there is a greatest number.
#[derive(Clone, Copy)]
pub struct Count {
    /// `join`, `union`, `agg` and the other words that make a table of tables.
    pub operators: u32,
    /// The signs and words that stand between two parts of an expression.
    pub signs: u32,
}

// How many operator words a statement may have.
const MOST_OPERATORS: u32 = 64;

// How many signs and words between parts of expressions a statement may have.
const MOST_SIGNS: u32 = 1024;

impl Count {
    /// Whether there is room for an operator word.
    pub fn has_room(self) -> bool
        ensures { result ≡ nat_lt self.operators most.counted.operators }
    {
        self.operators < MOST_OPERATORS
    }

    /// An operator word more.
    pub fn one_operator(self) -> Count
        requires { self.operators < most.counted.operators }
        ensures { result ≡ one_operator self }
    {
        Count {
            operators: self.operators + 1,
            signs: self.signs,
        }
    }

    /// Whether there is room for a sign between two parts of an expression.
    pub fn has_room_for_sign(self) -> bool
        ensures { result ≡ nat_lt self.signs most.counted.signs }
    {
        self.signs < MOST_SIGNS
    }

    /// A sign more.
    pub fn one_sign(self) -> Count
        requires { self.signs < most.counted.signs }
        ensures { result ≡ one_sign self }
    {
        Count {
            operators: self.operators,
            signs: self.signs + 1,
        }
    }
}
