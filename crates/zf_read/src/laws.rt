//! Laws of lines of some components.
ghost use Rattle.zf_read.specs.{HeldIsLine, LineIsHeld, OneHeldLine};

/// A line of some components holds one list of values, and is the line of these components with them.
pub fn held_lines()
    ensures one { OneHeldLine }
    ensures line { HeldIsLine }
    ensures held { LineIsHeld }
{}
