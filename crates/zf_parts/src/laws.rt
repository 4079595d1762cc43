//! Laws of parts.
ghost use Rattle.zf_parts.specs.{HasEachPart, OneListOfParts, OneTextOfParts, SomeListOfParts, SomeTextOfParts};

/// Events have one list of parts, which has exactly the parts that they have.
pub fn one_list()
    ensures one { OneListOfParts }
    ensures some { SomeListOfParts }
    ensures each { HasEachPart }
{}

/// Parts have one text.
pub fn one_text()
    ensures one { OneTextOfParts }
    ensures some { SomeTextOfParts }
{}
