//! Laws of the texts.
ghost use Rattle.zf_print.specs.{OneEnd, OneObject, OneRow, OneValue};

/// Values of one type with one text are one.
pub fn one_value()
    ensures { OneValue }
{}

/// A text begins with the text of one value of a type alone.
pub fn one_end()
    ensures { OneEnd }
{}

/// Rows of one schema with one line are one.
pub fn one_row()
    ensures { OneRow }
{}

/// Rows of one schema with one object are one.
pub fn one_object()
    ensures { OneObject }
{}
