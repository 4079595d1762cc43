//! A search for a state of the machine that schemas make.
ghost use Rattle.std.specs.Prelude.{◌≡◌, ◌≤◌, ◌⊎◌, ℕ, List, [], IfOk, OnErr};
ghost use Rattle.zf_machines.specs.Prelude.{AllByRecursion, Appends, IsSearched, device_of, failures_of, read_failures, write_failures, environment_of, result_of, StopsSearch, CanSearch, explored_in, sought_in, System, verdict, words};
ghost use Rattle.zf_machines.specs.{all_of, HasShape, IsMachineOf, schemas_of};

use crate::exploring::Specification;
use crate::making::machine_of;
use std::io::Write;
use zf_lines::{Counted, RunFault};
use zf_reach::Finding;
use zf_steps::seek_flat;

/// Searches the machine for a state that is sought, and writes a shortest way to the first that is met. It looks at so many states, and at one more.
pub fn seek_schemas<W: Write>(
    specification: &Specification<'_, '_, '_, '_, '_>,
    limit: usize,
    writer: &mut Counted<W>,
) -> Result<Finding, RunFault>
    requires unfailed { failures_of writer.old ≡ 0 }
    requires limited { 1 ≤ limit }
    requires shape { HasShape (schemas_of specification.now.schemas.now) }
    requires searchable { AllByRecursion (λ n. CanSearch (environment_of specification.now.env.now) n.schema) (all_of (schemas_of specification.now.schemas.now)) }
    ensures ok { IfOk result (λ finding. (m : System) × IsMachineOf (environment_of specification.now.env.now) specification.now.elements.now specification.now.form (schemas_of specification.now.schemas.now) m × (at text : List ℕ) × IsSearched (explored_in m) (sought_in m) (words m) (verdict m) limit (result_of finding at) text × Appends (W.contents (device_of writer.old)) (W.contents (device_of writer.new)) text) }
    ensures err { OnErr result (Appends (W.contents (device_of writer.old)) (W.contents (device_of writer.new)) [] ⊎ ((m : System) × IsMachineOf (environment_of specification.now.env.now) specification.now.elements.now specification.now.form (schemas_of specification.now.schemas.now) m × StopsSearch (explored_in m) (sought_in m) (words m) (verdict m) limit (W.contents (device_of writer.old)) (W.contents (device_of writer.new)))) }
    ensures count { failures_of writer.new ≡ write_failures result }
    ensures unread { read_failures result ≡ 0 }
{
    let system = machine_of(
        specification.alloc,
        specification.arena,
        specification.elements,
        specification.form,
        specification.schemas,
    )?;
    seek_flat(&system, specification.env, limit, writer)
}
