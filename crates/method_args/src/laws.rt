// What the definitions of identifiers and states in responses come to.
ghost use Rattle.method_args.specs.ReadValues.{AddedAreReadWithoutPlaces, IdsAreReadWithoutPlaces};
ghost use Rattle.method_args.specs.WrittenIds.{IdsReadBack, StatesReadBack};

/// Shows that a list of identifiers that was written is read as the same numbers (RFC 8620, section
/// 1.2).
pub fn show_that_written_ids_are_read()
    ensures { IdsReadBack }
{}

/// Shows that the text of a state that was written is read as the same position (RFC 8620, section
/// 5.1).
pub fn show_that_written_states_are_read()
    ensures { StatesReadBack }
{}

/// Shows that a list of identifiers, or of added items, is read if and only if there is no place in
/// it that is not of its form.
pub fn show_that_values_without_places_are_read()
    ensures ids { IdsAreReadWithoutPlaces }
    ensures added { AddedAreReadWithoutPlaces }
{}
