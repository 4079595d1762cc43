//! Tests of values, and the values that pass one.
ghost use Rattle.std.specs.Prelude.{◌↔◌, IsTrue, IfOk, OnOk};
ghost use Rattle.zf_ranges.specs.Prelude.{IsAscending, IsMember};
ghost use Rattle.zf_value.specs.declared.plain.Value as value;
ghost use Rattle.zf_ranges.specs.{Grows, Lists};

use std::alloc::{AllocError, Global};
use zf_value::Value;

/// A test of values.
pub(crate) trait Test {
    ghost use Rattle.std.specs.Prelude.{◌↔◌, IsTrue};
    ghost use Rattle.zf_value.specs.declared.plain.Value as value;

    /// What passes.
    ghost passes: { Self → value.Value → Type 0 };

    /// When it may be asked.
    ghost ready: { Self → Type 0 };

    fn admits(&self, value: &Value) -> bool
        requires { ready self.now }
        ensures { IsTrue result ↔ passes self.now value.now };
}

/// The values that pass, in their order.
pub(crate) fn kept<T: Test>(
    alloc: Global,
    values: &[Value],
    test: &T,
) -> Result<Vec<Value>, AllocError>
    requires values { IsAscending values.now }
    requires ready { T.ready test.now }
    ensures { IfOk result (λ out. Lists (λ v. IsMember v values.now × T.passes test.now v) out.items) }
{
    let mut out = Vec::new(alloc);
    for value in values {
        keep(alloc, &mut out, value, test)?;
    }
    Ok(out)
}

/// Puts a copy of the value after the others if it passes.
fn keep<T: Test>(
    alloc: Global,
    out: &mut Vec<Value>,
    value: &Value,
    test: &T,
) -> Result<(), AllocError>
    requires { T.ready test.now }
    ensures { OnOk result (Grows (T.passes test.now) value.now out.old.items out.new.items) }
{
    if test.admits(value) {
        out.push(value.copy(alloc)?)?;
    }
    Ok(())
}
