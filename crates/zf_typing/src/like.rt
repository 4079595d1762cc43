//! The first name in scope that is like one that is not. It helps where a fault is reported, and nothing is promised of it.
use crate::locals::Locals;
use crate::scope::Scope;
use zf_term::{Component, Entry, Globals, is_like};

/// That of a variable, a component, or a global that is no schema.
#[inline(never)]
pub(crate) fn name_like<'s>(scope: &'s Scope<'_, '_>, name: &[u8]) -> Option<&'s [u8]> {
    if let Some(variable) = variable_like(&scope.locals, name) {
        return Some(variable);
    }
    if let Some(component) = component_like(scope.components, name) {
        return Some(component);
    }
    global_like(scope.globals, name, false)
}

fn variable_like<'s>(locals: &'s Locals<'_>, name: &[u8]) -> Option<&'s [u8]> {
    for place in 0..locals.len() {
        let other = locals.get(place).name.as_slice();
        if is_like(other, name) {
            return Some(other);
        }
    }
    None
}

fn component_like<'s>(components: &'s [Component<'_>], name: &[u8]) -> Option<&'s [u8]> {
    for component in components {
        let other = component.name.as_slice();
        if is_like(other, name) {
            return Some(other);
        }
    }
    None
}

/// That of a global that is a schema, or of one that is none.
pub fn global_like<'g>(globals: &'g Globals<'_>, name: &[u8], schema: bool) -> Option<&'g [u8]> {
    for place in 0..globals.len() {
        if let Some((other, entry)) = globals.in_order(place) {
            if matches!(entry, Entry::Schema(_)) == schema && is_like(other, name) {
                return Some(other);
            }
        }
    }
    None
}
