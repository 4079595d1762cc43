//! What holds of every schema expression, of every paragraph and box, and of every text.
ghost use Rattle.zf_schema.specs.{CompsJoined, CompsOfEither, CompsOnce, DecorationRenames, FirstKept, GlobalsKept, NamesOnce, NoItemOffence, NoSchemaOffence, OneCheck, OneDefinition, OneSchema, PlacesCarried, SetsJoined, SetsOfEither, TypesJoined, TypesOfEither, XiEquates};
ghost use Rattle.zf_checker.specs.{ExtentsKept, GlobalsWellTyped};

/// After the same globals a schema expression is one schema at most.
#[tactic(auto, using(zf_schema::proofs::OneSchema::one_schema))]
pub fn one_schema()
    ensures { OneSchema }
{}

/// A schema expression that is a schema has no offence.
#[tactic(auto, using(zf_schema::proofs::NoSchemaOffence::no_schema_offence))]
pub fn no_schema_offence()
    ensures { NoSchemaOffence }
{}

/// After the same globals a paragraph or box defines one thing at most.
#[tactic(auto, using(crate::proofs::OneDefinition::one_definition))]
pub fn one_definition()
    ensures { OneDefinition }
{}

/// A paragraph or box that is well typed has no offence.
#[tactic(auto, using(crate::proofs::OneDefinition::no_item_offence))]
pub fn no_item_offence()
    ensures { NoItemOffence }
{}

/// A text defines one list of globals, and has one number of faults.
#[tactic(auto, using(crate::proofs::OneCheck::one_check))]
pub fn one_check()
    ensures { OneCheck }
{}

/// Decoration changes the names of components alone.
pub fn decoration_renames()
    ensures { DecorationRenames }
{}

/// What is made of two schemas has the components of the first one first.
pub fn first_kept()
    ensures { FirstKept }
{}

/// A conjunction has the components of the first schema, then those of the second that are new.
#[tactic(auto, using(crate::proofs::NewComponents::comps_joined))]
pub fn comps_joined()
    ensures { CompsJoined }
{}

/// A component of a conjunction has its type from the first schema that has it.
#[tactic(auto, using(crate::proofs::Joined::types_joined))]
pub fn types_joined()
    ensures { TypesJoined }
{}

/// It has the declared sets of the first schema, then those of the second.
#[tactic(auto, using(crate::proofs::Joined::sets_joined))]
pub fn sets_joined()
    ensures { SetsJoined }
{}

/// What is said of the second schema goes on naming the same components.
pub fn places_carried()
    ensures { PlacesCarried }
{}

/// A component of a disjunction has its type from the first schema that has it.
pub fn types_of_either()
    ensures { TypesOfEither }
{}

/// A disjunction has the components of the conjunction.
pub fn comps_of_either()
    ensures { CompsOfEither }
{}

/// A component of it has one declared set, with the declared sets of both schemas on its sides.
pub fn sets_of_either()
    ensures { SetsOfEither }
{}

/// `\Xi` equates each component with the primed one.
#[tactic(auto, using(crate::proofs::Unchanged::xi_equates))]
pub fn xi_equates()
    ensures { XiEquates }
{}

/// A global keeps its place.
#[tactic(auto, using(crate::proofs::Globals::globals_kept))]
pub fn globals_kept()
    ensures { GlobalsKept }
{}

/// Where the globals have each name once, so has a schema expression: what the laws of conjunction and `\Xi` ask of their parts.
#[tactic(auto, using(zf_schema::proofs::Once::schema_once))]
pub fn comps_once()
    ensures { CompsOnce }
{}

/// A name is defined once, and is one component of a schema at most.
#[tactic(auto, using(crate::proofs::Globals::names_once))]
pub fn names_once()
    ensures { NamesOnce }
{}

/// Each global is made by the rules from those before it.
#[tactic(auto, using(crate::proofs::WellTyped::globals_well_typed))]
pub fn globals_well_typed()
    ensures { GlobalsWellTyped }
{}

/// The extent kept with an abbreviation stays that of its term, whatever is defined after it.
pub fn extents_kept()
    ensures { ExtentsKept }
{}
