//! What holds of the table of methods.

ghost use Rattle.std.specs.Prelude.{◌≡◌, map, true};
ghost use Rattle.amqp_methods.specs.Rows.{all_rows};
ghost use Rattle.amqp_methods.specs.Table.{row_view, are_once, AreOnce};

use crate::rows::METHODS;

/// The table has the methods that are read and written, with the kinds of their arguments.
pub fn rows_are_methods()
    ensures { map row_view METHODS ≡ all_rows }
{}

/// No two rows of the table have one class and id: the test of all pairs passes, and so it is.
pub fn rows_are_once()
    ensures test { are_once METHODS ≡ true }
    ensures fact { AreOnce METHODS }
{}
