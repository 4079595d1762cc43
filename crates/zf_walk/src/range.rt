//! Ranges.
use std::marker::Model;

/// The values that a component may take, in ascending order.
#[derive(Debug, Drop)]
pub struct Range<V> {
    pub values: Vec<V>,
}

impl<V> Model for Range<V> {
    ghost use Rattle.std.specs.Prelude.{List};
    ghost use Rattle.std.specs.Coded.{coded_list};

    ghost Value = { List V };

    ghost coded = { coded_list V.code };

    ghost view = { λ r. r.values.items };
}
