//! What the machine that schemas make can reach.
ghost use Rattle.std.specs.Prelude.{◌≡◌, ◌≤◌, ◌⊎◌, ℕ, List, [], IfOk, OnErr};
ghost use Rattle.zf_machines.specs.Prelude.{AllByRecursion, Appends, IsExplored, device_of, failures_of, read_failures, write_failures, environment_of, ending_of, StopsEarly, CanSearch, explored_in, System, words};
ghost use Rattle.zf_machines.specs.{all_of, HasShape, IsMachineOf, schemas_of};

use crate::making::machine_of;
use crate::schemas::Schemas;
use bumpalo::Bump;
use std::alloc::Global;
use std::io::Write;
use zf_lines::{Counted, RunFault};
use zf_meaning::Env;
use zf_print::Spelling;
use zf_reach::Ending;
use zf_steps::{Form, explore_flat};

/// The schemas of a machine in an environment, with how elements are spelled, and the form in which it is written.
#[derive(Drop)]
pub struct Specification<'s, 'e, 'p, 'g, 'a> {
    pub alloc: Global,
    pub arena: &'a Bump,
    pub env: &'e Env<'g, 'a>,
    pub elements: &'s [Spelling],
    pub form: Form,
    pub schemas: &'s Schemas<'p, 'a>,
}

/// Writes the exploration of the machine, up to so many states. Each line is written before anything further is searched for.
pub fn explore_schemas<W: Write>(
    specification: &Specification<'_, '_, '_, '_, '_>,
    limit: usize,
    writer: &mut Counted<W>,
) -> Result<Ending, RunFault>
    requires unfailed { failures_of writer.old ≡ 0 }
    requires limited { 1 ≤ limit }
    requires shape { HasShape (schemas_of specification.now.schemas.now) }
    requires searchable { AllByRecursion (λ n. CanSearch (environment_of specification.now.env.now) n.schema) (all_of (schemas_of specification.now.schemas.now)) }
    ensures ok { IfOk result (λ ending. (m : System) × IsMachineOf (environment_of specification.now.env.now) specification.now.elements.now specification.now.form (schemas_of specification.now.schemas.now) m × (at text : List ℕ) × IsExplored (explored_in m) (words m) limit (ending_of ending at) text × Appends (W.contents (device_of writer.old)) (W.contents (device_of writer.new)) text) }
    ensures err { OnErr result (Appends (W.contents (device_of writer.old)) (W.contents (device_of writer.new)) [] ⊎ ((m : System) × IsMachineOf (environment_of specification.now.env.now) specification.now.elements.now specification.now.form (schemas_of specification.now.schemas.now) m × StopsEarly (explored_in m) (words m) limit (W.contents (device_of writer.old)) (W.contents (device_of writer.new)))) }
    ensures count { failures_of writer.new ≡ write_failures result }
    ensures unread { read_failures result ≡ 0 }
{
    let system = machine_of(
        specification.alloc,
        specification.arena,
        specification.elements,
        specification.form,
        specification.schemas,
    )?;
    explore_flat(&system, specification.env, limit, writer)
}
