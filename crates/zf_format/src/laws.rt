//! Laws of strings.
ghost use Rattle.zf_format.specs.{OneString};

/// A text begins with the string of one list of bytes alone.
pub fn one_string()
    ensures { OneString }
{}
