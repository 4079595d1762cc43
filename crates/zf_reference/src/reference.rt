//! References: a component, a bound variable or a global, each by its number.
ghost use Rattle.std.specs.Prelude.{◌≡◌};
ghost use Rattle.zf_reference.specs.Numbering as spec;
ghost use Rattle.zf_reference.specs.NumberingViews as spec_views;

/// What a name stands for.
#[derive(Clone, Copy, PartialEq, Eq)]
pub enum Reference {
    /// A component, by its place in the schema.
    Component(usize),
    /// A bound variable, by the number of those bound outside it.
    Local(usize),
    /// A global, by its place in the order of definition.
    Global(usize),
}

impl Reference {
    /// The same, with the component numbered anew where the list has a number for it.
    pub fn moved(self, places: &[usize]) -> Reference
        ensures { result ≡ spec.renumbered (spec_views.place_in places.now) self }
    {
        match self {
            Reference::Component(place) => Reference::Component(place_in(places, place)),
            Reference::Local(_) => self,
            Reference::Global(_) => self,
        }
    }
}

/// The number at the place, or the place itself where there is none.
pub fn place_in(places: &[usize], place: usize) -> usize
    ensures { result ≡ spec_views.place_in places.now place }
{
    match places.get(place) {
        Some(other) => *other,
        None => place,
    }
}
