//! Room for what a schema is expected to gain.
use zf_term::Flat;

/// How many further components and conjuncts are expected.
#[derive(Clone, Copy)]
pub struct Spare {
    pub components: usize,
    pub conjuncts: usize,
}

impl Spare {
    /// Nothing further is expected.
    pub fn none() -> Spare {
        Spare {
            components: 0,
            conjuncts: 0,
        }
    }

    /// What is expected after this schema: nothing after an empty one, since a text may take in any number of those.
    pub fn behind(self, flat: &Flat<'_>) -> Spare {
        if flat.components.len() == 0 && flat.conjuncts.len() == 0 {
            Spare::none()
        } else {
            self
        }
    }

    /// This schema is expected too.
    pub fn and(self, flat: &Flat<'_>) -> Spare {
        Spare {
            components: self.components.saturating_add(flat.components.len()),
            conjuncts: self.conjuncts.saturating_add(flat.conjuncts.len()),
        }
    }

    /// So many conjuncts are expected too.
    pub fn and_conjuncts(self, count: usize) -> Spare {
        Spare {
            components: self.components,
            conjuncts: self.conjuncts.saturating_add(count),
        }
    }
}
