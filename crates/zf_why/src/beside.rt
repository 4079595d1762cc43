//! Conjuncts beside given ones.
ghost use Rattle.std.specs.Prelude.{length};

use crate::setting::Setting;
use std::alloc::AllocError;
use zf_cores::Trial;
use zf_term::Conjunct;

/// Conjuncts of which some may hold together with the given ones.
#[derive(Drop)]
pub struct Beside<'t, 's, 'g, 'a> {
    pub setting: &'t Setting<'s, 'g, 'a>,
    pub given: &'t [Conjunct<'a>],
    pub conjuncts: &'t [Conjunct<'a>],
}

impl<'t, 's, 'g, 'a> Trial for Beside<'t, 's, 'g, 'a> {
    ghost use Rattle.std.specs.Prelude.{◌++◌, map};
    ghost use Rattle.zf_term.specs.SchemaViews.{comp_of, conjunct_of};
    ghost use Rattle.zf_meaning.specs.Envs.{environment_of};
    ghost use Rattle.zf_cores.specs.Choices.{chosen_of};
    ghost use Rattle.zf_why.specs.Rows.{HasRow};
    ghost use Rattle.zf_why.specs.Searching.{CanBegin};
    ghost use Rattle.zf_why.specs.Besides.{has_fewer};

    ghost number = { λ b. length b.conjuncts.now };

    ghost ready = { λ b. CanBegin (environment_of b.setting.now.env.now) (map comp_of b.setting.now.components.now) (map conjunct_of b.given.now ++ map conjunct_of b.conjuncts.now) };

    ghost Possible = { λ b m. HasRow (environment_of b.setting.now.env.now) (map comp_of b.setting.now.components.now) b.setting.now.held.now (map conjunct_of b.given.now ++ chosen_of (map conjunct_of b.conjuncts.now) m) };

    ghost fewer = { λ b small large f h. has_fewer (environment_of b.setting.now.env.now) (map comp_of b.setting.now.components.now) b.setting.now.held.now (map conjunct_of b.given.now) (map conjunct_of b.conjuncts.now) small large f h };

    fn count(&self) -> usize {
        self.conjuncts.len()
    }

    fn is_possible(&self, chosen: &[bool]) -> Result<bool, AllocError> {
        self.setting.allows(self.given, self.conjuncts, chosen)
    }
}
