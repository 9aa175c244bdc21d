// What the definitions of trees come to.
ghost use Rattle.std.specs.Prelude.{◌≡◌, ◌≤◌, ◌<◌, ◌^◌, ◌∷◌, ◌++◌, [], List, None, Some, codes, decimal, option_and_then, ℕ};
ghost use Rattle.serde_json.specs.Data as json;
ghost use Rattle.serde_json.specs.Read.{max_depth};
ghost use Rattle.jm_json.specs.Call.{Call};
ghost use Rattle.jm_json.specs.Calls.{calls_from, calls_in_response};
ghost use Rattle.jm_json.specs.Find.{as_list, as_object, find, pairs_of};
ghost use Rattle.jm_json.specs.Integers.{first_invalid, pointer_part};
ghost use Rattle.jm_json.specs.JsonValues.{data_of};
ghost use Rattle.jm_json.specs.LeastPlaces.{least_from, IsLeast};
ghost use Rattle.jm_json.specs.Pointer.{child, pointed};
ghost use Rattle.jm_json.specs.Reading.{reading_of, whole};
ghost use Rattle.jm_json.specs.Requests.{HaveObjects, request_tree};
ghost use Rattle.jm_json.specs.Responses.{responses_tree};
ghost use Rattle.jm_json.specs.Tree.{Fields, Tree, object};

/// Shows that a tree that was read may be written so that it is read back: it nests at most
/// `MAX_DEPTH` deep, and its numbers are integers below 2^53 and above -2^53.
pub fn show_that_what_was_read_reads_back()
    ensures depth { (text : List ℕ) (t : Tree) → reading_of text ≡ whole t
        → json.depth (data_of t) ≤ max_depth }
    ensures numbers { (text : List ℕ) (t : Tree) → reading_of text ≡ whole t
        → first_invalid (data_of t) ≡ None }
{}

/// Shows that a JSON Pointer to which a name or an index was pushed names the member or the item in
/// what the pointer named (RFC 6901, section 4).
pub fn show_that_a_pushed_part_is_followed()
    ensures name { (pointer name : List ℕ) (t : Tree)
        → pointed (pointer ++ 47 ∷ pointer_part name) t
        ≡ option_and_then (child (pointer_part name)) (pointed pointer t) }
    ensures member { (name : List ℕ) (members : Fields)
        → child (pointer_part name) (object members) ≡ find name (pairs_of members) }
    ensures index { (pointer : List ℕ) (index : ℕ) (t : Tree) → index < 2 ^ 64
        → pointed (pointer ++ 47 ∷ decimal index) t
        ≡ option_and_then (child (decimal index)) (pointed pointer t) }
{}

/// Shows that the least of some places is one of them, and that none of them is less in byte order;
/// without a least place there is none.
pub fn show_that_the_least_place_is_least()
    ensures least { (places : List (List ℕ)) (place : List ℕ)
        → least_from None places ≡ Some place → IsLeast places place }
    ensures none { (places : List (List ℕ)) → least_from None places ≡ None → places ≡ [] }
{}

/// Shows that the calls in the tree of a request, and the responses in that of a Response, are read
/// as what they were, if the arguments of each are an object (RFC 8620, section 3.2).
pub fn show_that_calls_are_read_as_written()
    ensures request { (capabilities : List (List ℕ)) (calls : List Call) → HaveObjects calls
        → option_and_then calls_from (option_and_then as_list
        (option_and_then (find (codes "methodCalls")) (as_object (request_tree capabilities calls))))
        ≡ Some calls }
    ensures response { (responses : List Call) (state : List ℕ) → HaveObjects responses
        → calls_in_response (responses_tree responses state) ≡ Some responses }
{}
