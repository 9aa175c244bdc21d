// What the definitions say of examples, and of bytes that come later.
ghost use Rattle.std.specs.Prelude.{◌≡◌, [], ◌∷◌, ◌++◌, codes, List, ℕ};
ghost use Rattle.http_parts.specs.Heads.{Unfinished, Head, beginning_of};
ghost use Rattle.http_parts.specs.Bodies.{BodyInvalid, BodyTooLong, BodyUnfinished, Whole};
ghost use Rattle.http_parts.specs.Chunks.{chunked_body};

/// Shows examples of messages: heads with either line end and empty lines before them; chunks with
/// an extension, a trailer and bytes of a next request; and what is invalid, too long or
/// unfinished.
pub fn show_examples_of_messages()
    ensures head { beginning_of (codes "\r\nGET / HTTP/1.1\r\nHost: h\n\r\nnext") ≡ Head (codes
        "GET / HTTP/1.1\r\nHost: h\n\r\n") (codes "next") }
    ensures no_head { beginning_of (codes "\r\nGET / HTTP/1.1\r\nHost: h\n\r") ≡ Unfinished }
    ensures chunks { chunked_body 9 (codes "3;x=y\r\nabc\r\n02 \r\nde\r\n0\r\nA: b\r\n\r\nnext") ≡
        Whole (codes "abcde") (codes "next") }
    ensures unfinished_chunk { chunked_body 9 (codes "3\r\nabc\r") ≡ BodyUnfinished }
    ensures wrong_end { chunked_body 9 (codes "3\r\nabcd") ≡ BodyInvalid }
    ensures prefix { chunked_body 9 (codes "0x1\r\n") ≡ BodyInvalid }
    ensures over { chunked_body 4 (codes "3\r\nabc\r\n2\r\n") ≡ BodyTooLong }
{}

/// Shows that more bytes change no complete head.
#[tactic(auto, using(crate::proofs::HeadStays::head_stays))]
pub fn keep_heads()
    ensures { (bytes after head rest : List ℕ) → beginning_of bytes ≡ Head head rest → beginning_of
        (bytes ++ after) ≡ Head head (rest ++ after) }
{}
