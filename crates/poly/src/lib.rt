// Polynomials modulo a listed modulus. The calls that refuse a modulus off the list take p and e as two numbers; the others take a Modulus.
// A modulus and a list stay two parameters where any list may be given, as in `evaluate` and `powers`.
// A place stays a number beside the modulus: each function asks for another limit, 52, 63 or 64.
#![tactic(auto)]

pub mod alike;
pub mod newton;
pub mod null;
pub mod powers;
pub mod reduce;
mod residue;
pub mod shift;
