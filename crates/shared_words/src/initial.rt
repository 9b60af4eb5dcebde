//! What a shared table is opened with.

ghost use Rattle.shared_words.specs.Layout.{InitialData};

use std::marker::Model;

/// What a table was opened with, as the view of a seat has it. No value of it is made.
pub struct InitialData {
    marker: (),
}

impl Model for InitialData {
    ghost use Rattle.shared_words.specs.Layout.{InitialData, coded_initial_data, no_initial_data};

    ghost Value = { InitialData };

    ghost coded = { coded_initial_data };

    ghost view = { λ a. no_initial_data };
}

/// What a table can be opened with: it names the widths, the number of workers, the token, the words, the
/// rules that they answer by, and the block of each linked group.
pub trait InitialContent {
    ghost initial: { Self → InitialData };
}
