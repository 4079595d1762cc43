//! A search for bindings that can be begun again with other values held.
ghost use Rattle.std.specs.Option.{option_copied};
ghost use Rattle.zf_steps.specs.{BeginsAgain, Goes, GoesAhead, IsSearch, MayGo};

use crate::stepped::Stepped;
use std::alloc::AllocError;
use zf_value::Value;

/// A search for the bindings of a schema that are not False, one after another in ascending order. It has one method: at a
/// type of many parts, each method of a bound costs the proof of a call seconds.
pub trait Finder {
    ghost use Rattle.zf_steps.specs.Finders.{Place};

    /// Where it stands, and what it is for.
    ghost place: { Self → Place };

    /// Stands before the first binding that has these values, by the components' places; without any, goes on to the next
    /// binding that is not False.
    fn go(&mut self, held: Option<&[Option<Value>]>) -> Result<Stepped, AllocError>
        requires { MayGo (place self.old) (option_copied held) }
        ensures { Goes (place self.old) (place self.new) (option_copied held.entry) result };
}

/// Begins a search again with these values held.
pub fn begin<S: Finder>(search: &mut S, held: &[Option<Value>]) -> Result<(), AllocError>
    requires { IsSearch (S.place search.old) }
    ensures { BeginsAgain (S.place search.old) (S.place search.new) held.now result }
{
    let _begun = search.go(Some(held))?;
    Ok(())
}

/// Goes on to the next binding.
pub fn advance<S: Finder>(search: &mut S) -> Result<Stepped, AllocError>
    ensures { GoesAhead (S.place search.old) (S.place search.new) result }
{
    search.go(None)
}
