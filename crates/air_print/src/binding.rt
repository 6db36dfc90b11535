//! The position of an expression in a text, which determines whether it needs parentheses.
ghost use Rattle.std.specs.Prelude.{◌≡◌};
ghost use Rattle.air_print.specs.Infix.{wraps_sum, wraps_product, wraps_constant};

/// The position of an expression, from the loosest to the tightest binding.
#[derive(Clone, Copy, Debug, PartialEq, Eq)]
pub enum Binding {
    /// On its own, or before a plus or a minus.
    Loose,
    /// After a plus or a minus, or before a times.
    Summand,
    /// After a times.
    Factor,
    /// After a unary minus.
    Negated,
}

impl Binding {
    /// Whether a sum or a difference needs parentheses there.
    pub fn wraps_sum(self) -> bool
        ensures { result ≡ wraps_sum self }
    {
        match self {
            Binding::Loose => false,
            _ => true,
        }
    }

    /// Whether a product needs parentheses there.
    pub fn wraps_product(self) -> bool
        ensures { result ≡ wraps_product self }
    {
        match self {
            Binding::Loose => false,
            Binding::Summand => false,
            _ => true,
        }
    }

    /// Whether a constant needs parentheses there.
    pub fn wraps_constant(self) -> bool
        ensures { result ≡ wraps_constant self }
    {
        match self {
            Binding::Negated => true,
            _ => false,
        }
    }
}
