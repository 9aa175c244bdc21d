//! Encoded-words (RFC 2047), and the text of bytes in the charsets that are common in mail.
//!
//! Both calls read all bytes, and fail only if memory runs out.
#![tactic(auto)]

mod charset;
mod laws;
mod shape;
mod words;

pub use charset::{Decoded, decode_charset};
pub use laws::{
    plain_texts_are_read_back, split_words_are_joined, texts_without_words_stay,
    words_are_read_back,
};
pub use words::decode_words;
