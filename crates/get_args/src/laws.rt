// What follows from the definitions.
ghost use Rattle.std.specs.Prelude.{◌≡◌, ℕ, List, false, true};
ghost use Rattle.get_args.specs.Wanted.{
  IsTaken,
  asked,
  cached_arguments,
  cached_wanted,
  read_arguments,
  wanted_in,
};

/// States that the arguments by which the command line reads a message are valid.
pub fn arguments_of_read_are_taken()
    ensures { IsTaken (wanted_in read_arguments true) }
{}

/// The arguments by which a client asks for the emails that it keeps are valid, and ask for exactly
/// the properties that it keeps.
pub fn arguments_of_a_client_are_taken()
    ensures { (account : List ℕ) (ids : List (List ℕ)) → wanted_in (cached_arguments account ids)
        false ≡ asked cached_wanted }
{}
