//! Functions of numbers by their names.

use std::f64::consts;

/// A function of floating-point numbers. Its name is that of the variant in small letters with underscores; those of `E` and `Pi`,
/// which are constants, are in capital letters.
#[derive(Clone, Copy, Debug, PartialEq, Eq, Drop)]
pub enum Math {
    Acos,
    Acosh,
    Asin,
    Asinh,
    Atan,
    Atanh,
    Ceiling,
    Cos,
    Cosh,
    E,
    Exp,
    Floor,
    Fraction,
    Hypot,
    Int,
    Ln,
    Log,
    Pi,
    Round,
    Sin,
    Sinh,
    Sqrt,
    Tan,
    Tanh,
    ToDegrees,
    ToRadians,
}

const NAMES: &'static [(&'static str, Math)] = &[
    ("acos", Math::Acos),
    ("acosh", Math::Acosh),
    ("asin", Math::Asin),
    ("asinh", Math::Asinh),
    ("atan", Math::Atan),
    ("atanh", Math::Atanh),
    ("ceiling", Math::Ceiling),
    ("cos", Math::Cos),
    ("cosh", Math::Cosh),
    ("E", Math::E),
    ("exp", Math::Exp),
    ("floor", Math::Floor),
    ("fraction", Math::Fraction),
    ("hypot", Math::Hypot),
    ("int", Math::Int),
    ("ln", Math::Ln),
    ("log", Math::Log),
    ("PI", Math::Pi),
    ("round", Math::Round),
    ("sin", Math::Sin),
    ("sinh", Math::Sinh),
    ("sqrt", Math::Sqrt),
    ("tan", Math::Tan),
    ("tanh", Math::Tanh),
    ("to_degrees", Math::ToDegrees),
    ("to_radians", Math::ToRadians),
];

impl Math {
    /// The function of this name, if there is one. It compares with every name.
    #[must_use]
    pub fn named(name: &str) -> Option<Math> {
        for (known, function) in NAMES {
            if *known == name {
                return Some(*function);
            }
        }
        None
    }

    /// Whether it may be read as a property, without brackets.
    #[must_use]
    pub fn is_property(self) -> bool {
        matches!(
            self,
            Math::Ceiling | Math::Floor | Math::Fraction | Math::Int | Math::Round
        )
    }

    /// The constant that it gives without arguments, if it is one.
    #[must_use]
    pub fn constant(self) -> Option<f64> {
        match self {
            Math::E => Some(consts::E),
            Math::Pi => Some(consts::PI),
            _ => None,
        }
    }

    /// What it gives of one number; `None` if it takes none or two.
    #[must_use]
    pub fn of(self, x: f64) -> Option<f64> {
        let number = match self {
            Math::Ceiling => x.ceil(),
            Math::Exp => x.exp(),
            Math::Floor => x.floor(),
            Math::Fraction => x.fract(),
            Math::Int => x.trunc(),
            Math::Ln => x.ln(),
            Math::Log => x.log10(),
            Math::Round => x.round(),
            Math::Sqrt => x.sqrt(),
            Math::ToDegrees => x.to_degrees(),
            Math::ToRadians => x.to_radians(),
            _ => return self.of_angle(x),
        };
        Some(number)
    }

    /// The functions of angles, and the hyperbolic ones.
    fn of_angle(self, x: f64) -> Option<f64> {
        let number = match self {
            Math::Acos => x.acos(),
            Math::Acosh => x.acosh(),
            Math::Asin => x.asin(),
            Math::Asinh => x.asinh(),
            Math::Atan => x.atan(),
            Math::Atanh => x.atanh(),
            Math::Cos => x.cos(),
            Math::Cosh => x.cosh(),
            Math::Sin => x.sin(),
            Math::Sinh => x.sinh(),
            Math::Tan => x.tan(),
            Math::Tanh => x.tanh(),
            _ => return None,
        };
        Some(number)
    }

    /// What it gives of two numbers: the angle of the point that lies at `y` and `x`, the length of the line there, or the
    /// logarithm of `x` to the base `y`. `None` if it doesn't take two.
    #[must_use]
    pub fn of_two(self, x: f64, y: f64) -> Option<f64> {
        match self {
            Math::Atan => Some(x.atan2(y)),
            Math::Hypot => Some(x.hypot(y)),
            Math::Log => Some(x.log(y)),
            _ => None,
        }
    }
}
