//! What holds of all inputs, each as the contract of a function that does nothing.

ghost use Rattle.al_input.specs.Numbers.{DecimalsAreNaturals, NaturalsArePlain};

/// A natural number is spelled in plain digits: a number with a sign, a point or an exponent is none.
pub fn numbers_are_plain()
    ensures plain { NaturalsArePlain }
    ensures decimal { DecimalsAreNaturals }
{}
