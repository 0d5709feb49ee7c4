//! Laws of the definitions that contracts cite. Each function does nothing: its contract is the law.
ghost use Rattle.rhai_flat.specs.Rows.{NumbersKeepBits, RowsTellForms};

/// The rows and bytes of values tell their flat forms. So values that [`FlatValues::write`](crate::FlatValues::write) writes and
/// [`read_values`](crate::read_values) reads back keep them.
pub fn rows_tell_forms()
    ensures { RowsTellForms }
{}

/// A floating-point number that is read from its bits keeps them, unless they are those of NaN.
pub fn numbers_keep_bits()
    ensures { NumbersKeepBits }
{}
