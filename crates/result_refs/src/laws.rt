// What follows from the bytes that a reference takes.
ghost use Rattle.std.specs.Prelude.{◌≡◌, ◌≤◌, List, Some};
ghost use Rattle.jm_json.specs.Tree.{Tree};
ghost use Rattle.jm_json.specs.Call.{Call};
ghost use Rattle.result_refs.specs.References.{referred};
ghost use Rattle.result_refs.specs.Room.{value_bytes};
ghost use Rattle.result_refs.specs.Costs.{referred_bytes};

/// The value that a reference makes has at most the bytes that the reference takes from the room.
pub fn a_reference_takes_what_it_makes()
    ensures { (reference : Tree) (responses : List Call) (made : Tree)
        → referred reference responses ≡ Some made
        → value_bytes made ≤ referred_bytes reference responses }
{}
