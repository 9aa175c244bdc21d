// What a pass knows, as the table of words and slots sees it.
use std::marker::Model;

/// Represents the view of a pass in the types of the table. No value of it is made: views are ghost
/// data.
pub struct PassView;

impl Model for PassView {
    ghost use Rattle.account_lock.specs.Views.{View, spent};

    ghost Value = { View };

    ghost view = { λ _. spent };
}
